// The call (01, Answers): from message, image and verdict to reply and next store.
#![tactic(auto)]

ghost use Rattle.std.specs.Prelude.{◌≡◌, ◌&&◌, ◌||◌, List, ℕ, ◌≤◌, length, leb, ltb, eqb};
ghost use Rattle.octets.specs.Limits.{image_room, reply_room, max_message, max_updates};
ghost use Rattle.octets.specs.Lists.{all_of};
ghost use Rattle.octets.specs.declared.Status.{Status};
ghost use Rattle.store.specs.Store.{Store};
ghost use Rattle.store.specs.Image.{decode};
ghost use Rattle.store.specs.Contract.Parts.{anchor_count};
ghost use Rattle.protocol.specs.Call.{answer_of, guarded, refusal_reply};
ghost use Rattle.tamp.specs.Left.{result_of, result_for, Promise, house_refusal as refusal_of, answer as answerWith};
ghost use Rattle.tamp.specs.Contract.Given.{admitted, Rooms, Stored, Known, as_judgement, offset_of, Does};
ghost use Rattle.tamp.specs.Contract.Reply.{request_reply, reply_with, Sizes, Put};

use accept::Signer;
use apply::Done;
use envelope::Refusal;
use message::Request;
use octets::Status;
use syntax::TampType;

// (The fields are the C interface's.)
// What the call returns: the number, how much was written of the reply and of the next store, and where the message broke (02, E3).
#[repr(C)]
#[derive(Clone, Copy)]
pub struct Answer {
    pub number: u32,
    pub reply_len: u64,
    pub next_len: u64,
    pub offset: u64,
}

impl Answer {
    // A house refusal: both lengths 0, nothing written.
    fn refusal(status: Status) -> Answer
        ensures { result ≡ refusal_of status }
    {
        Answer {
            number: u32::from(status.number),
            reply_len: 0,
            next_len: 0,
            offset: 0,
        }
    }

    // An answer with a TAMP status.
    fn reply(status: Status, offset: usize, reply: usize, next: usize) -> Answer
        ensures { result ≡ answerWith status offset reply next }
    {
        Answer {
            number: u32::from(status.number),
            reply_len: reply as u64,
            next_len: next as u64,
            offset: offset as u64,
        }
    }
}

// 202: the verdict has an octet for each anchor, 0 or 1.
fn is_verdict(image: &[u8], verdict: &[u8]) -> bool
    ensures { result ≡ eqb (length verdict.now) (anchor_count image.now) && all_of (λ v. leb v 1) verdict.now }
{
    verdict.len() == store::anchor_count(image) && verdict.iter().all(|v| *v <= 1)
}

// 203: the reply buffer is under 10,240 octets or the next store buffer under 33,717.
fn is_small(reply: usize, next: usize) -> bool
    ensures { result ≡ (ltb reply reply_room || ltb next image_room) }
{
    reply < octets::REPLY_ROOM || next < octets::IMAGE_ROOM
}

// (Size and writing are two functions with one `match` each, here and below: the C interface gives 205 before anything is written, and a closure for the
// difference is no plainer. Message, request and image are no struct: most take two of the three.)
// How long the reply to a request is. 205 is decided by it, before anything is written; numbers are no part of a Query's response.
fn request_size(s: &[u8], q: Request, image: &[u8]) -> usize
    requires { (length s.now ≤ max_message) × (length image.now ≤ image_room) }
    ensures { (status : Status) (codes : List ℕ) → max_updates ≤ length codes → result ≡ length (request_reply s.now q image.now status codes) }
{
    let msgref = message::msg_ref(s, q);
    let kind = q.kind;
    match kind {
        TampType::StatusQuery => reply::response_size(msgref, image),
        TampType::CommunityUpdate => reply::confirm_size(msgref),
        TampType::SeqNumAdjust => reply::confirm_size(msgref),
        TampType::Update => {
            let entry_count = message::entry_count(s, q.updates);
            if octets::MAX_UPDATES < entry_count {
                return reply::error_size(der::contents(s, q.msgtype), msgref);
            }
            reply::update_size(msgref, entry_count)
        }
    }
}

// Writes it. Gives its length. The status octets are those of an Update's entries.
fn put_request<'a>(
    s: &'a [u8],
    q: Request,
    image: &'a [u8],
    status: Status,
    codes: &'a [u8],
    reply: &mut [u8],
) -> usize
    requires { (length s.now ≤ max_message) × (length image.now ≤ image_room) × (max_updates ≤ length codes.now)
        × (length (request_reply s.now q image.now status codes.now) ≤ length reply.old) }
    ensures { Put (request_reply s.now q image.now status codes.now) reply.old result reply.new }
{
    let msgref = message::msg_ref(s, q);
    let kind = q.kind;
    match kind {
        TampType::StatusQuery => reply::put_status_response(reply, msgref, image),
        TampType::CommunityUpdate => reply::put_community_confirm(reply, msgref, status),
        TampType::SeqNumAdjust => reply::put_adjust_confirm(reply, msgref),
        TampType::Update => {
            let entry_count = message::entry_count(s, q.updates);
            if octets::MAX_UPDATES < entry_count {
                return reply::put_error(reply, der::contents(s, q.msgtype), status, msgref);
            }
            reply::put_update_confirm(reply, msgref, &codes[..entry_count])
        }
    }
}

// "Statuses 1, 2, 3 and 4 have no reply (length 0). The rest reply with a TAMP Error".
fn refusal_size(s: &[u8], r: Refusal) -> usize
    requires { length s.now ≤ max_message }
    ensures { result ≡ length (refusal_reply s.now r) }
{
    let about = r.msgtype;
    if !about.valid {
        return 0;
    }
    reply::error_size(der::contents(s, about), der::encoding(s, r.msgref))
}

fn put_refusal(s: &[u8], r: Refusal, reply: &mut [u8]) -> usize
    requires { length (refusal_reply s.now r) ≤ length reply.old }
    ensures { Put (refusal_reply s.now r) reply.old result reply.new }
{
    let about = r.msgtype;
    if !about.valid {
        return 0;
    }
    let status = r.status;
    reply::put_error(
        reply,
        der::contents(s, about),
        status,
        der::encoding(s, r.msgref),
    )
}

// How long the reply is.
fn reply_size(s: &[u8], j: Result<(Request, Signer), Refusal>, image: &[u8]) -> usize
    requires { (length s.now ≤ max_message) × (length image.now ≤ image_room) }
    ensures { Sizes s.now j image.now result }
{
    match j {
        Err(r) => refusal_size(s, r),
        Ok((q, _)) => request_size(s, q, image),
    }
}

// Writes it. Gives its length.
fn put_reply<'a>(
    s: &'a [u8],
    j: Result<(Request, Signer), Refusal>,
    image: &'a [u8],
    status: Status,
    codes: &'a [u8],
    reply: &mut [u8],
) -> usize
    requires { (length s.now ≤ max_message) × (length image.now ≤ image_room) × (max_updates ≤ length codes.now)
        × (length (reply_with s.now j image.now status codes.now) ≤ length reply.old) }
    ensures { Put (reply_with s.now j image.now status codes.now) reply.old result reply.new }
{
    match j {
        Err(r) => put_refusal(s, r, reply),
        Ok((q, _)) => put_request(s, q, image, status, codes, reply),
    }
}

// The status of the call and the next store: a refused message leaves the store alone.
fn effect(
    s: &[u8],
    j: Result<(Request, Signer), Refusal>,
    image: &[u8],
    next: &mut [u8],
    codes: &mut [u8],
) -> Done
    requires { Known s.now j image.now next.old × (max_updates ≤ length codes.old) }
    ensures { Does s.now j image.now next.old codes.old result next.new codes.new }
{
    match j {
        Err(r) => {
            octets::copy_to(next, 0, image);
            let status = r.status;
            Done {
                status: status,
                len: image.len(),
            }
        }
        Ok((q, w)) => apply::effect(s, q, w, image, next, codes),
    }
}

// 02, E3: the offset that the refusing row has; an accepted message has none.
fn offset_of(j: Result<(Request, Signer), Refusal>) -> usize
    ensures { result ≡ offset_of j }
{
    match j {
        Err(r) => r.offset,
        Ok((_, _)) => 0,
    }
}

// The answer to a message: effect, reply and next store, or 205.
fn respond(
    s: &[u8],
    j: Result<(Request, Signer), Refusal>,
    image: &[u8],
    reply: &mut [u8],
    next: &mut [u8],
) -> Answer
    requires { Rooms s.now reply.old next.old × Stored image.now × Known s.now j image.now next.old }
    ensures { (σ : Store) → decode image.now ≡ Some σ →
        result_of result reply.new next.new
        ≡ result_for (guarded (answer_of s.now image.now σ (as_judgement j))) reply.old next.old }
{
    if octets::REPLY_ROOM < reply_size(s, j, image) {
        return Answer::refusal(Status::LONG_REPLY);
    }
    let mut codes = [0u8; octets::MAX_UPDATES];
    let done = effect(s, j, image, next, &mut codes);
    let status = done.status;
    let len = done.len;
    let n = put_reply(s, j, &next[..len], status, &codes, reply);
    Answer::reply(status, offset_of(j), n, len)
}

// The house refusals 201 to 204, in their order.
#[tactic(auto, unfolding(crate::specs::Contract::Given::admitted, octets::specs::First::given_if))]
fn admit(
    message: &[u8],
    image: &[u8],
    verdict: &[u8],
    reply: usize,
    next: usize,
) -> Result<(), Status>
    ensures { result ≡ admitted message.now image.now verdict.now reply next }
{
    Status::BAD_IMAGE.given_if(!image::is_image(image))?;
    Status::BAD_VERDICT.given_if(!is_verdict(image, verdict))?;
    Status::SMALL_BUFFER.given_if(is_small(reply, next))?;
    Status::LONG_MESSAGE.given_if(octets::MAX_MESSAGE < message.len())
}

// The call: 201 to 204, then 205 or the answer. (Five slices, and no struct of them: these are the arguments of the C interface.)
pub fn tamp_call(
    message: &[u8],
    image: &[u8],
    verdict: &[u8],
    reply: &mut [u8],
    next: &mut [u8],
) -> Answer
    ensures { Promise
        message.now
        image.now
        verdict.now
        reply.old
        next.old
        result
        reply.new
        next.new }
{
    if let Err(status) = admit(message, image, verdict, reply.len(), next.len()) {
        return Answer::refusal(status);
    }
    let j = accept::judge(message, image, verdict);
    respond(message, j, image, reply, next)
}
