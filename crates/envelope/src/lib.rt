// The signed wrapper of a message (RFC 5652): rows 1 to 8 of 01's table of answers.
#![tactic(auto)]

ghost use Rattle.std.specs.Prelude.{◌≡◌, not, ◌&&◌, ◌||◌, List, ℕ, Ok, Err};
ghost use Rattle.octets.specs.Octets.{ordered};
ghost use Rattle.der.specs.Element.{encoding as encodingOf, contents as contentsOf, inside, field};
ghost use Rattle.der.specs.Fit.{and_then, held, each, applies_if, given_at};
ghost use Rattle.repeats.specs.Contract.Keys.{is_at};
ghost use Rattle.syntax.specs.Grammar.{tagged, fit};
ghost use Rattle.syntax.specs.Asn.{Attribute};
ghost use Rattle.syntax.specs.Contract.Forms.{form_syntax, attribute_syntax};
ghost use Rattle.syntax.specs.Types.{id_content_type, id_message_digest};
ghost use Rattle.envelope.specs.Parts.{content_type, content, signed_data, encap_content_info, e_content_type, e_content_tag, signer_infos, signer_info};
ghost use Rattle.envelope.specs.Attributes.{value_syntax, attribute_fit, repeated, has_type, attributes_fit};
ghost use Rattle.envelope.specs.Rows.{refusal_with, refusal, row_1, row_29, row_2, envelope};

use der::{Compared, Element, Fit, Run};
use octets::Status;
use syntax::{AttributeForm, Form, ID_CONTENT_TYPE, ID_MESSAGE_DIGEST, TampType};

// What the wrapper holds, as parts of the message.
#[derive(Clone, Copy)]
pub struct Signed {
    pub kind: TampType,
    // eContentType
    pub msgtype: Element,
    // eContent, an OCTET STRING
    pub content: Element,
    // subjectKeyIdentifier
    pub signer: Element,
    // signedAttrs
    pub attributes: Element,
}

// A refusal that depends on the message alone: its status, the offset of the element that breaks the rule, and what its reply repeats of the message:
// msgType (none: no reply) and msgRef (none: without it).
#[derive(Clone, Copy)]
pub struct Refusal {
    pub status: Status,
    pub offset: usize,
    pub msgtype: Element,
    pub msgref: Element,
}

// What the rows read (RFC 5652), each from the one around it. An absent one has nothing inside.
#[derive(Clone, Copy)]
struct Parts {
    content: Element,
    signed_data: Element,
    encap_content_info: Element,
    e_content_type: Element,
    // eContent [0] EXPLICIT
    e_content_tag: Element,
    signer_infos: Element,
    signer_info: Element,
}

impl Parts {
    #[tactic(auto, unfolding(crate::proofs::Unfolded::parts))]
    fn new(s: &[u8]) -> Parts
        ensures content { result.content ≡ content s.now }
        ensures signed_data { result.signed_data ≡ signed_data s.now }
        ensures encap_content_info { result.encap_content_info ≡ encap_content_info s.now }
        ensures e_content_type { result.e_content_type ≡ e_content_type s.now }
        ensures e_content_tag { result.e_content_tag ≡ e_content_tag s.now }
        ensures signer_infos { result.signer_infos ≡ signer_infos s.now }
        ensures signer_info { result.signer_info ≡ signer_info s.now }
    {
        let info = der::root(s);
        let content = der::field(s, info, der::CONSTRUCTED_0);
        let signed_data = der::field(s, content, der::SEQUENCE);
        let encap = der::field(s, signed_data, der::SEQUENCE);
        let infos = der::field_after(s, signed_data, encap, der::SET);
        Parts {
            content: content,
            signed_data: signed_data,
            encap_content_info: encap,
            e_content_type: der::field(s, encap, der::OBJECT_IDENTIFIER),
            e_content_tag: der::field(s, encap, der::CONSTRUCTED_0),
            signer_infos: infos,
            signer_info: der::field(s, infos, der::SEQUENCE),
        }
    }
}

// A row of the table, "The first that applies is given": by its rule, where an element breaks it.
#[tactic(auto, unfolding(der::specs::Fit::given_at))]
pub fn row(rule: Fit, status: Status, msgtype: Element) -> Result<(), Refusal>
    ensures { result ≡ given_at rule (λ o. Err (refusal status msgtype o)) (Ok tt) }
{
    rule.map_err(|offset| Refusal {
        status: status,
        offset: offset,
        msgtype: msgtype,
        msgref: der::no_element(0),
    })
}

// .. by its test, without an offset.
pub fn row_if(applies: bool, status: Status, msgtype: Element) -> Result<(), Refusal>
    ensures { result ≡ given_at (applies_if applies) (λ o. Err (refusal status msgtype o)) (Ok tt) }
{
    row_ref(applies, status, msgtype, der::no_element(0))
}

// .. with msgRef, from 127 on.
#[tactic(auto, unfolding(der::specs::Fit::applies_if, der::specs::Fit::given_at))]
pub fn row_ref(
    applies: bool,
    status: Status,
    msgtype: Element,
    msgref: Element,
) -> Result<(), Refusal>
    ensures { result ≡ given_at (applies_if applies) (λ o. Err (refusal_with status msgtype msgref o)) (Ok tt) }
{
    if applies {
        return Err(Refusal {
            status: status,
            offset: 0,
            msgtype: msgtype,
            msgref: msgref,
        });
    }
    Ok(())
}

// ContentInfo's type.
#[tactic(auto, unfolding(crate::specs::Parts::content_info, crate::specs::Parts::content_type))]
fn content_type(s: &[u8]) -> Element
    ensures { result ≡ content_type s.now }
{
    let info = der::root(s);
    der::field(s, info, der::OBJECT_IDENTIFIER)
}

// 29: ContentInfo's type is one of the four TAMP types.
#[tactic(auto, unfolding(crate::specs::Rows::row_29, syntax::specs::Contract::Forms::form_syntax))]
fn is_bare(s: &[u8]) -> bool
    ensures { applies_if result ≡ row_29 s.now }
{
    syntax::recognise(der::contents(s, content_type(s))).is_some()
        && syntax::fits(Form::ContentInfo, s, 0, s.len(), 0).is_ok()
}

// 1: one element spans the message, as DER.
#[tactic(auto, unfolding(crate::specs::Rows::row_1))]
fn der_fit(s: &[u8]) -> Fit
    ensures { result ≡ row_1 s.now }
{
    der::spans(s, 0, s.len(), 0, octets::MAX_DEPTH)
}

// 2: a ContentInfo of type signedData.
#[tactic(auto, unfolding(crate::specs::Rows::row_2, syntax::specs::Contract::Forms::form_syntax))]
fn info_fit(s: &[u8]) -> Fit
    ensures { result ≡ row_2 s.now }
{
    syntax::fits(Form::ContentInfoSignedData, s, 0, s.len(), 0)
}

// What is asked of an Attribute with the type o.
#[tactic(auto, unfolding(crate::proofs::Unfolded::attributes))]
fn form_of(o: &[u8]) -> AttributeForm
    ensures { (type : List ℕ) → attribute_syntax result type ≡ tagged 0x30 (Attribute (value_syntax type o.now)) }
{
    if octets::equal(o, &ID_CONTENT_TYPE) {
        return AttributeForm::ContentType;
    }
    if octets::equal(o, &ID_MESSAGE_DIGEST) {
        return AttributeForm::MessageDigest;
    }
    AttributeForm::Other
}

// "malformed", "not one value each": the Attribute e by itself, where about is eContentType. (About and s are two parameters here and in the two functions below that
// pass them on: a struct for three functions is no plainer.)
#[tactic(auto, unfolding(crate::specs::Attributes::attribute_fit))]
fn attribute_fit(about: &[u8], s: &[u8], e: Element) -> Fit
    ensures { result ≡ attribute_fit about.now s.now e }
{
    let form = form_of(der::type_of(s, e));
    syntax::attribute_fits(form, about, s, e.at, e.stop, e.at)
}

// Whether one of the attributes has the type o.
#[tactic(auto, unfolding(crate::specs::Attributes::has_type))]
fn has_type(s: &[u8], attributes: Element, o: &[u8]) -> bool
    ensures { result ≡ has_type s.now attributes o.now }
{
    der::occurs(s, attributes.start, attributes.stop, Compared::Types, o)
}

// "content-type or message-digest missing".
#[tactic(auto, unfolding(crate::proofs::Unfolded::oids))]
fn has_both(s: &[u8], attributes: Element) -> bool
    ensures { result ≡ has_type s.now attributes id_content_type && has_type s.now attributes id_message_digest }
{
    has_type(s, attributes, &ID_CONTENT_TYPE) && has_type(s, attributes, &ID_MESSAGE_DIGEST)
}

// "not sorted, a type repeated": the attribute e stands in order after the one before it, and is not the first whose type stood before.
fn is_in_place(s: &[u8], former: Element, e: Element, first: Option<usize>) -> bool
    ensures { result ≡ ordered (encodingOf s.now former) (encodingOf s.now e) && not (is_at first e.at) }
{
    octets::in_order(der::encoding(s, former), der::encoding(s, e)) && !repeats::is_at(first, e.at)
}

// Each of the signed attributes in turn.
fn each_attribute(about: &[u8], s: &[u8], attributes: Element) -> Fit
    ensures { result ≡ each
        (λ former e. and_then
        (attribute_fit about.now s.now e)
        (held e.at
        (ordered (encodingOf s.now former) (encodingOf s.now e) && not (repeated s.now attributes e))))
        (inside s.now attributes) }
{
    let first = repeats::first_repeat(s, der::no_element(0), attributes, Compared::Types);
    let mut former = der::no_element(attributes.start);
    for e in Run::inside(s, attributes) {
        if !e.valid {
            return Err(e.at);
        }
        attribute_fit(about, s, e)?;
        // 02, E3: of a repeat or a wrong order the later is charged
        let later = e.at;
        if !is_in_place(s, former, e, first) {
            return Err(later);
        }
        former = e;
    }
    Ok(())
}

// 7: the signed attributes, where about is eContentType.
#[tactic(auto, unfolding(crate::specs::Attributes::attributes_fit, der::specs::Fit::and_then, der::specs::Fit::held))]
fn attributes_fit(about: &[u8], s: &[u8], signer: Element, attributes: Element) -> Fit
    ensures { result ≡ attributes_fit about.now s.now signer attributes }
{
    if !attributes.valid {
        return Err(signer.at);
    }
    each_attribute(about, s, attributes)?;
    if has_both(s, attributes) {
        return Ok(());
    }
    Err(attributes.at)
}

// 7: the signed attributes of the SignerInfo.
fn attrs_fit(s: &[u8], about: Element, signer: Element) -> Fit
    ensures { result ≡ attributes_fit (contentsOf s.now about) s.now signer (field 0xA0 s.now signer) }
{
    attributes_fit(
        der::contents(s, about),
        s,
        signer,
        der::field(s, signer, der::CONSTRUCTED_0),
    )
}

// 3, 4 and 6: what stands in a part keeps a syntax.
fn part_fit(form: Form, s: &[u8], e: Element) -> Fit
    ensures { result ≡ fit (form_syntax form) s.now e.start e.stop e.at }
{
    syntax::fits(form, s, e.start, e.stop, e.at)
}

// 5: SignedData has certificates or CRLs.
fn has_certificates(s: &[u8], signed: Element) -> bool
    ensures { result ≡ (field 0xA0 s.now signed).valid || (field 0xA1 s.now signed).valid }
{
    let certificates = der::field(s, signed, der::CONSTRUCTED_0);
    let crls = der::field(s, signed, der::CONSTRUCTED_1);
    certificates.valid || crls.valid
}

// 8: the field e is absent.
#[tactic(auto, unfolding(der::specs::Fit::held))]
fn is_absent(e: Element) -> Fit
    ensures { result ≡ held e.at (not e.valid) }
{
    let charged = e.at;
    if e.valid {
        return Err(charged);
    }
    Ok(())
}

// The first that applies of the rows 1, 29, 2, 3, 4, 9, 18, 5, 6, 7 and 8, else what the wrapper holds.
#[tactic(auto, unfolding(crate::proofs::Unfolded::table))]
pub fn open(s: &[u8]) -> Result<Signed, Refusal>
    ensures { result ≡ envelope s.now }
{
    let none = der::no_element(0);
    let p = Parts::new(s);
    let about = p.e_content_type;
    row(der_fit(s), Status::DECODE_FAILURE, none)?;
    row_if(is_bare(s), Status::MISSING_SIGNATURE, content_type(s))?;
    row(info_fit(s), Status::BAD_CONTENT_INFO, none)?;
    let signed_data = part_fit(Form::SignedData, s, p.content);
    row(signed_data, Status::BAD_SIGNED_DATA, none)?;
    let encap = part_fit(Form::EncapsulatedContentInfo, s, p.encap_content_info);
    row(encap, Status::BAD_ENCAP_CONTENT, none)?;
    row_if(!p.e_content_tag.valid, Status::MISSING_CONTENT, about)?;
    let known = syntax::recognise(der::contents(s, about));
    row_if(known.is_none(), Status::UNSUPPORTED_TAMP_MSG_TYPE, about)?;
    let certified = has_certificates(s, p.signed_data);
    row_if(certified, Status::BAD_CERTIFICATE, about)?;
    let signers = part_fit(Form::OneSignerInfo, s, p.signer_infos);
    row(signers, Status::BAD_SIGNER_INFO, about)?;
    let attrs = attrs_fit(s, about, p.signer_info);
    row(attrs, Status::BAD_SIGNED_ATTRS, about)?;
    let unsigned = is_absent(der::field(s, p.signer_info, der::CONSTRUCTED_1));
    row(unsigned, Status::BAD_UNSIGNED_ATTRS, about)?;
    // behind row 18 it is one of the four
    Ok(Signed {
        kind: known.unwrap_or(TampType::StatusQuery),
        msgtype: about,
        content: der::field(s, p.e_content_tag, der::OCTET_STRING),
        signer: der::field(s, p.signer_info, der::CONTEXT_0),
        attributes: der::field(s, p.signer_info, der::CONSTRUCTED_0),
    })
}

// eContent, as a part of the message.
pub fn e_content(s: &[u8], w: Signed) -> &[u8]
    ensures { result.now ≡ contentsOf s.now w.content }
{
    der::contents(s, w.content)
}
