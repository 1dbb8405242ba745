// What an accepted message does to the store (01, After acceptance).
#![tactic(auto)]

ghost use Rattle.std.specs.Prelude.{◌≡◌, ◌≤◌, length};
ghost use Rattle.octets.specs.Limits.{max_updates};
ghost use Rattle.message.specs.Rows.{received};
ghost use Rattle.apply.specs.Contract.Effect.{Signing, Renumbered, Effected};

use accept::Signer;
use message::Request;
use octets::Status;
use syntax::TampType;

mod community;
mod scratch;
mod update;

// What an accepted message comes to: the status of the call, and the length of the next store.
#[derive(Clone, Copy)]
pub struct Done {
    pub status: Status,
    pub len: usize,
}

// An accepted message, and the image that the call was given. (No invariant: `Signing`, which the contracts ask, speaks of the next store's buffer too.)
#[derive(Clone, Copy)]
struct Accepted<'a> {
    message: &'a [u8],
    request: Request,
    signer: Signer,
    image: &'a [u8],
}

// "its number becomes the signer's": writes the image with it. Gives its length.
// Not given an `Accepted`: the check knows of a slice that is a parameter that its octets are below 256, and of one in a struct not.
fn renumber(q: Request, w: Signer, image: &[u8], next: &mut [u8]) -> usize
    requires { Signing q w image.now next.old }
    ensures { Renumbered q w image.now next.old result next.new }
{
    octets::copy_to(next, 0, image);
    let place = w.place;
    edit::set_number(next, place, q.number);
    image.len()
}

// Query and Adjust: the number, and nothing else.
fn move_number(m: &Accepted, next: &mut [u8], status: Status) -> Done
    requires { Signing m.now.request m.now.signer m.now.image.now next.old }
    ensures { (result.status ≡ status) × Renumbered m.now.request m.now.signer m.now.image.now next.old result.len next.new }
{
    Done {
        status: status,
        len: renumber(m.request, m.signer, m.image, next),
    }
}

// What an accepted message does: the status of the call, the next store, and a status octet for each entry of an Update (none where there are over 16).
// (Octets, and no statuses: reply's promise of the confirm, `put_update_confirm`, is of octets.)
pub fn effect(
    message: &[u8],
    q: Request,
    w: Signer,
    image: &[u8],
    next: &mut [u8],
    codes: &mut [u8],
) -> Done
    requires { Signing q w image.now next.old × (received message.now ≡ Ok q) × (max_updates ≤ length codes.old) }
    ensures { Effected message.now q w image.now next.old codes.old result next.new codes.new }
{
    let m = Accepted {
        message: message,
        request: q,
        signer: w,
        image: image,
    };
    match q.kind {
        TampType::StatusQuery => move_number(&m, next, Status::SUCCESS),
        TampType::Update => update::update(&m, next, codes),
        TampType::CommunityUpdate => community::community_update(&m, next),
        TampType::SeqNumAdjust => move_number(&m, next, Status::SUCCESS),
    }
}
