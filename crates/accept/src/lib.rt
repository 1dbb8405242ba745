// Acceptance: the rows 10, 16, 38, 23, 11 and 21 of 01's table, that is signer, target, rights and number.
#![tactic(auto)]

mod target;

ghost use Rattle.std.specs.Prelude.{◌≡◌, Ok, Err};
ghost use Rattle.der.specs.Fit.{applies_if, given_at};
ghost use Rattle.store.specs.Contract.Parts.{record_at, number_in};
ghost use Rattle.protocol.specs.Acceptance.{row_11, too_low, row_21, found_status, refusal_of, judged_at};
ghost use Rattle.accept.specs.Contract.Signer.{signer_at, signer_constraints, signer_rights};
ghost use Rattle.accept.specs.Contract.Judged.{store_in, located, AtRecord, judged_in};

use der::Element;
use envelope::Refusal;
use message::Request;
use octets::Status;
use store::NoSigner;
use syntax::TampType;

// The signer of a message, as the rows after 16 find it: its position among the anchors, the place of its record in the image, and the value of its
// content constraints in the record's TrustAnchorInfo.
#[derive(Clone, Copy)]
pub struct Signer {
    pub position: usize,
    pub place: usize,
    pub constraints: Element,
}

// A row of the table that is a test, refused with msgRef.
fn row(q: Request, applies: bool, status: Status) -> Result<(), Refusal>
    ensures { result ≡ given_at (applies_if applies) (λ o. Err (refusal_of q status o)) (Ok tt) }
{
    envelope::row_ref(applies, status, q.msgtype, q.msgref)
}

// 10 and 16: the search found no signer.
#[tactic(auto, unfolding(protocol::specs::Acceptance::found_status))]
fn unsigned(q: Request, missed: NoSigner) -> Refusal
    ensures { result ≡ refusal_of q (found_status (Err missed)) 0 }
{
    let status = match missed {
        NoSigner::Unknown => Status::NO_TRUST_ANCHOR,
        NoSigner::Unverified => Status::SIGNATURE_FAILURE,
    };
    Refusal {
        status: status,
        offset: 0,
        msgtype: q.msgtype,
        msgref: q.msgref,
    }
}

// The anchor at a position as a signer.
#[tactic(auto, unfolding(crate::specs::Contract::Signer::signer_at))]
fn signer_at(image: &[u8], i: usize) -> Signer
    ensures { result ≡ signer_at image.now i }
{
    let place = store::record_place(image, i);
    let info = store::info_of(store::record_at(image, place));
    Signer {
        position: i,
        place: place,
        constraints: der::field(info, anchor::constraints_extension(info), der::OCTET_STRING),
    }
}

// The octets of its content constraints, as a part of the image.
pub fn constraints_of(image: &[u8], w: Signer) -> &[u8]
    ensures { result.now ≡ signer_constraints image.now w }
{
    let record = store::record_at(image, w.place);
    der::contents(store::info_of(record), w.constraints)
}

// 11: the signer doesn't authorise the message's type as source with its attributes. The apex authorises everything.
#[tactic(auto, unfolding(protocol::specs::Acceptance::row_11, protocol::specs::Acceptance::message_content, crate::specs::Contract::Signer::signer_rights))]
fn is_unauthorised(image: &[u8], w: Signer, s: &[u8], q: Request) -> bool
    ensures { applies_if result ≡ row_11 (signer_rights image.now w) s.now q }
{
    w.position != 0
        && !rights::authorises(
            constraints_of(image, w),
            der::contents(s, q.msgtype),
            s,
            q.attributes,
        )
}

// "Adjust must be at least the stored number and the others above it."
#[tactic(auto, unfolding(protocol::specs::Acceptance::too_low))]
fn is_too_low(kind: TampType, stored: u64, n: u64) -> bool
    ensures { result ≡ too_low kind stored n }
{
    match kind {
        TampType::SeqNumAdjust => n < stored,
        TampType::StatusQuery | TampType::Update | TampType::CommunityUpdate => n <= stored,
    }
}

// 21: sequence number refused. A signer with no number takes any.
#[tactic(auto, unfolding(protocol::specs::Acceptance::row_21, der::specs::Fit::applies_if))]
fn is_number_refused(image: &[u8], w: Signer, q: Request) -> bool
    ensures { applies_if result ≡ row_21 (number_in (record_at image.now w.place)) q }
{
    let number = store::number_of(store::record_at(image, w.place));
    number.is_some_and(|stored| is_too_low(q.kind, stored, q.number))
}

// The rows after 16, by the anchor at position i.
#[tactic(auto, unfolding(crate::proofs::Unfolded::rows))]
fn judge_at(s: &[u8], image: &[u8], q: Request, i: usize) -> Result<(Request, Signer), Refusal>
    ensures { AtRecord image.now i (result ≡ located image.now (judged_at (store_in image.now) s.now q i)) }
{
    let w = signer_at(image, i);
    let t = message::target_octets(s, q);
    let unsupported = target::is_unsupported(t);
    row(q, unsupported, Status::UNSUPPORTED_TARGET_IDENTIFIER)?;
    row(q, !target::names_device(image, t), Status::INCORRECT_TARGET)?;
    row(q, is_unauthorised(image, w, s, q), Status::NOT_AUTHORIZED)?;
    row(q, is_number_refused(image, w, q), Status::SEQ_NUM_FAILURE)?;
    Ok((q, w))
}

// What the rows decide of a message.
#[tactic(auto, unfolding(crate::proofs::Unfolded::table))]
pub fn judge(s: &[u8], image: &[u8], verdict: &[u8]) -> Result<(Request, Signer), Refusal>
    ensures { result ≡ located image.now (judged_in image.now verdict.now s.now) }
{
    let q = message::receive(s)?;
    let identifier = message::key_identifier(s, q);
    let i = store::find_signer(image, verdict, identifier).map_err(|missed| unsigned(q, missed))?;
    judge_at(s, image, q, i)
}
