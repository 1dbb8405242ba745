// The table's rows (specs/Contract/Rows.antt), as the matcher and the walk read them: fields, rules, and the row of each form.
ghost use Rattle.std.specs.Prelude.{◌≡◌, [], ◌∷◌, ◌<◌};
ghost use Rattle.octets.specs.Octets.{octet, same};
ghost use Rattle.syntax.specs.Grammar.{obeyed};
ghost use Rattle.syntax.specs.Contract.Table.{count, rows, message_row, form_row, attribute_row};
ghost use Rattle.syntax.specs.Contract.Rows.{RowIs, rule_of, left_out};

use crate::{AttributeForm, Form, TampType, table};

// A row, with the numbers of others (numbers, and no Box of a tree: the library has no heap). A field has its tag, the row of its contents, and that of what stands after it.
#[derive(Clone, Copy)]
pub enum Row {
    Free,
    End,
    Many(u8),
    Obeys(Rule, u8),
    Field(Kind, u8, u8, u8),
}

// One element of any tag by itself, or one with a tag.
#[derive(Clone, Copy)]
pub enum Kind {
    Optional,
    Required,
    One,
    AnyOptional,
}

// What contents must keep as a whole.
#[derive(Clone, Copy)]
pub enum Rule {
    NotEmpty,
    SizeTo(u8),
    Empty,
    Equals(u8),
    EqualsGiven,
    IntegerBut(u8),
    SeqNumber,
}

// The first row is free, the second the end.
pub const FREE_ROW: u8 = 0;

pub const END_ROW: u8 = 1;

// The first of the octets, 0 where there is none. (store's `octet_at` stands above this crate.)
fn first(o: &[u8]) -> u8
    ensures { result ≡ octet o.now 0 }
{
    o.first().copied().unwrap_or(0)
}

// The octets are this one and no other.
fn is_octet(o: &[u8], n: u8) -> bool
    ensures { result ≡ same o.now (n ∷ []) }
{
    octets::equal(o, &[n])
}

// The octets o keep the rule.
pub fn keeps(rule: Rule, given: &[u8], o: &[u8]) -> bool
    ensures { result ≡ obeyed (rule_of rule given.now) o.now }
{
    match rule {
        Rule::NotEmpty => 1 <= o.len(),
        Rule::SizeTo(n) => 1 <= o.len() && o.len() <= usize::from(n),
        Rule::Empty => o.len() == 0,
        Rule::Equals(n) => is_octet(o, n),
        Rule::EqualsGiven => octets::equal(o, given),
        Rule::IntegerBut(n) => der::is_integer(o) && !is_octet(o, n),
        Rule::SeqNumber => o.len() <= 8 && first(o) < 128,
    }
}

// A row of a table that is this one. (A row's number is a u8 with `n < count` in clauses: a type of such numbers would be made at each place of the table.)
fn row_of(table: &table::Table, n: u8) -> Row
    requires { (table.now ≡ rows) × (n < count) }
    ensures { RowIs n result }
{
    table[usize::from(n)]
}

// Row n of the table.
pub fn row_at(n: u8) -> Row
    requires { n < count }
    ensures { RowIs n result }
{
    row_of(&table::ROWS, n)
}

// A field that is not there: the element charged breaks, unless the field may be left out.
pub fn left_out(kind: Kind, at: usize, charged: usize) -> Result<usize, usize>
    ensures { result ≡ left_out kind at charged }
{
    match kind {
        Kind::Optional | Kind::AnyOptional => Ok(at),
        Kind::Required | Kind::One => Err(charged),
    }
}

// The row of each form.
fn message_row(kind: TampType) -> u8
    ensures { (result ≡ message_row kind) × (result < count) }
{
    match kind {
        TampType::StatusQuery => table::STATUS_QUERY,
        TampType::Update => table::UPDATE,
        TampType::CommunityUpdate => table::COMMUNITY_UPDATE,
        TampType::SeqNumAdjust => table::SEQ_NUM_ADJUST,
    }
}

pub fn form_row(form: Form) -> u8
    ensures { (result ≡ form_row form) × (result < count) }
{
    match form {
        Form::ContentInfo => table::CONTENT_INFO,
        Form::ContentInfoSignedData => table::CONTENT_INFO_SIGNED_DATA,
        Form::SignedData => table::SIGNED_DATA,
        Form::EncapsulatedContentInfo => table::ENCAPSULATED_CONTENT_INFO,
        Form::OneSignerInfo => table::ONE_SIGNER_INFO,
        Form::StoredTrustAnchorInfo => table::STORED_TRUST_ANCHOR_INFO,
        Form::CMSContentConstraints => table::CMS_CONTENT_CONSTRAINTS,
        Form::Message(kind) => message_row(kind),
    }
}

pub fn attribute_row(form: AttributeForm) -> u8
    ensures { (result ≡ attribute_row form) × (result < count) }
{
    match form {
        AttributeForm::ContentType => table::CONTENT_TYPE_ATTRIBUTE,
        AttributeForm::MessageDigest => table::MESSAGE_DIGEST_ATTRIBUTE,
        AttributeForm::Other => table::OTHER_ATTRIBUTE,
    }
}
