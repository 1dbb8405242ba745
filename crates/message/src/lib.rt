// The four TAMP messages (RFC 5934): rows 36, 31 and 127 of 01's table, and what a message asks.
#![tactic(auto)]

ghost use Rattle.std.specs.Prelude.{◌≡◌, length};
ghost use Rattle.der.specs.Element.{encoding as encodingOf, contents as contentsOf, inside};
ghost use Rattle.der.specs.Fit.{applies_if};
ghost use Rattle.message.specs.Fields.{seq_number_in, entry_of};
ghost use Rattle.message.specs.Rows.{row_36, content_fit, row_127, has_terse, request_in, unwrapped, received};

use der::{Element, Fit, Run};
use envelope::{Refusal, Signed};
use octets::Status;
use syntax::{Form, TampType};

// What a message asks that passes the rows up to 127, as parts of it.
#[derive(Clone, Copy)]
pub struct Request {
    pub kind: TampType,
    // eContentType
    pub msgtype: Element,
    // subjectKeyIdentifier
    pub signer: Element,
    // signedAttrs
    pub attributes: Element,
    // TAMPMsgRef
    pub msgref: Element,
    // its target and seqNum
    pub target: Element,
    pub number: u64,
    // updates of an Update or a Community Update
    pub updates: Element,
    // tampSeqNumbers of an Update
    pub numbers: Element,
}

// An entry of an Update: an added TrustAnchorInfo, an added certificate or tbsCert, a removed key as the message tags it, or a change.
#[derive(Clone, Copy)]
pub enum Entry {
    Add(Element),
    AddCertificate,
    Remove(Element),
    Change,
}

// 36: eContent is not DER, depth counted afresh, or isn't its message's syntax.
#[tactic(auto, unfolding(crate::specs::Rows::row_36, der::specs::Fit::and_then, syntax::specs::Contract::Forms::form_syntax))]
fn body_fit(kind: TampType, content: &[u8]) -> Fit
    ensures { result ≡ row_36 kind content.now }
{
    let n = content.len();
    der::spans(content, 0, n, 0, octets::MAX_DEPTH)?;
    syntax::fits(Form::Message(kind), content, 0, n, 0)
}

// .. with the offset in the message.
#[tactic(auto, unfolding(crate::specs::Rows::in_message))]
fn content_fit(s: &[u8], w: Signed) -> Fit
    ensures { result ≡ content_fit s.now w }
{
    let content = envelope::e_content(s, w);
    let e = w.content;
    let start = e.start;
    body_fit(w.kind, content).map_err(|o| if o < content.len() { start + o } else { e.at })
}

#[tactic(auto, unfolding(crate::specs::Rows::has_terse))]
fn has_terse(kind: TampType) -> bool
    ensures { result ≡ has_terse kind }
{
    !matches!(kind, TampType::SeqNumAdjust)
}

// 127: a verbose reply is wanted.
#[tactic(auto, unfolding(crate::specs::Rows::row_127, crate::specs::Fields::terse_in))]
fn wants_verbose(kind: TampType, s: &[u8], body: Element) -> bool
    ensures { applies_if result ≡ row_127 kind s.now body }
{
    let terse = der::field(s, body, der::CONTEXT_1);
    has_terse(kind) && !terse.valid
}

// What the message asks whose SEQUENCE in eContent is body.
#[tactic(auto, unfolding(crate::proofs::Unfolded::request))]
fn request_in(s: &[u8], w: Signed, body: Element) -> Request
    ensures { result ≡ request_in s.now w body }
{
    let msgref = der::field(s, body, der::SEQUENCE);
    Request {
        kind: w.kind,
        msgtype: w.msgtype,
        signer: w.signer,
        attributes: w.attributes,
        msgref: msgref,
        target: der::element_at(s, msgref.start, msgref.stop),
        number: number_in(s, der::field(s, msgref, der::INTEGER)),
        updates: der::field_after(s, body, msgref, der::SEQUENCE),
        numbers: der::field(s, body, der::CONSTRUCTED_2),
    }
}

// What is in the wrapper, by the rows 36, 31 and 127.
#[tactic(auto, unfolding(crate::proofs::Unfolded::table))]
fn unwrap(s: &[u8], w: Signed) -> Result<Request, Refusal>
    ensures { result ≡ unwrapped s.now w }
{
    let about = w.msgtype;
    let body = der::element_at(s, w.content.start, w.content.stop);
    envelope::row(content_fit(s, w), Status::MALFORMED, about)?;
    let version = der::field(s, body, der::CONTEXT_0);
    envelope::row_if(version.valid, Status::VERSION_NUMBER_MISMATCH, about)?;
    let q = request_in(s, w, body);
    let verbose = wants_verbose(w.kind, s, body);
    envelope::row_ref(verbose, Status::OTHER, about, q.msgref)?;
    Ok(q)
}

// The rows up to 127: what depends on the message alone.
#[tactic(auto, unfolding(crate::specs::Rows::received, crate::specs::Rows::received_of))]
pub fn receive(s: &[u8]) -> Result<Request, Refusal>
    ensures { result ≡ received s.now }
{
    unwrap(s, envelope::open(s)?)
}

// The signer's key identifier, msgRef and the target, as parts of the message. Functions, not methods of the request: it holds places, and `q.msg_ref(s)` would
// name the message as well.
pub fn key_identifier(s: &[u8], q: Request) -> &[u8]
    ensures { result.now ≡ contentsOf s.now q.signer }
{
    der::contents(s, q.signer)
}

pub fn msg_ref(s: &[u8], q: Request) -> &[u8]
    ensures { result.now ≡ encodingOf s.now q.msgref }
{
    der::encoding(s, q.msgref)
}

pub fn target_octets(s: &[u8], q: Request) -> &[u8]
    ensures { result.now ≡ encodingOf s.now q.target }
{
    der::encoding(s, q.target)
}

// The number in the contents of a SeqNumber.
#[tactic(auto, unfolding(crate::specs::Fields::seq_number_in))]
pub fn number_in(s: &[u8], e: Element) -> u64
    ensures { result ≡ seq_number_in s.now e }
{
    octets::get_be(der::contents(s, e), 0, 8)
}

// An entry of an Update.
#[tactic(auto, unfolding(crate::specs::Fields::entry_of))]
pub fn entry_of(s: &[u8], e: Element) -> Entry
    ensures { result ≡ entry_of s.now e }
{
    match e.tag {
        der::CONSTRUCTED_1 => {
            let choice = der::element_at(s, e.start, e.stop);
            if choice.tag == der::CONSTRUCTED_2 {
                Entry::Add(der::field(s, choice, der::SEQUENCE))
            } else {
                Entry::AddCertificate
            }
        }
        der::CONSTRUCTED_2 => Entry::Remove(e),
        _ => Entry::Change,
    }
}

// How many elements are inside e: the entries of an Update.
pub fn entry_count(s: &[u8], e: Element) -> usize
    ensures { result ≡ length (inside s.now e) }
{
    Run::inside(s, e).count()
}
