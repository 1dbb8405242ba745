// Update: its entries in order, then tampSeqNumbers, on a scratch image (01, After acceptance).
ghost use Rattle.std.specs.Prelude.{◌≡◌, map, ◌≤◌, length};
ghost use Rattle.octets.specs.Limits.{max_number, max_updates};
ghost use Rattle.rights.specs.Decision.{within};
ghost use Rattle.anchor.specs.Info.{rights_of, untagged};
ghost use Rattle.message.specs.Fields.{entry_of, seq_numbers_in};
ghost use Rattle.protocol.specs.Update.{added, removed, step as step_of, with_seq_number, with_seq_numbers};
ghost use Rattle.syntax.specs.declared.TampType.TheVariants.{Update};
ghost use Rattle.message.specs.Rows.{received};
ghost use Rattle.protocol.specs.Effect.{update_effect};
ghost use Rattle.accept.specs.Contract.Signer.{signer_rights};
ghost use Rattle.apply.specs.Contract.Scratch.{Scratch, ScratchBoth, info_at};
ghost use Rattle.apply.specs.Contract.Effect.{Signing, Effects, Codes};
ghost use Rattle.apply.specs.Contract.Edits.{Growable, Appends, CanRemove, RemovesAnchor, CanNumber, NumbersAt, Renumbers};
ghost use Rattle.apply.specs.Contract.Entry.{Applies, Enters, Conforming, Adding};
ghost use Rattle.apply.specs.Contract.Update.{Enterable, EntersAll, Numerable, UpdatedAs};

use crate::scratch::ScratchImage;
use crate::{Accepted, Done, move_number, renumber};
use der::{Element, Run};
use message::Entry;
use octets::Status;
use store::Sought;

// The TrustAnchorInfo at a position, as a part of the image.
fn info_at(image: &[u8], position: usize) -> &[u8]
    ensures { result.now ≡ info_at image.now position }
{
    store::info_of(store::record_at(image, store::record_place(image, position)))
}

// 01, After acceptance: "not within the signer", by the signer's rights in the image that the call was given. The apex authorises everything.
fn is_within_signer(m: &Accepted, t: &[u8]) -> bool
    ensures { result ≡ within (signer_rights m.now.image.now m.now.signer) (rights_of t.now) }
{
    if m.signer.position == 0 {
        return true;
    }
    rights::is_within(
        accept::constraints_of(m.image, m.signer),
        anchor::constraints_value(t),
    )
}

// Appends an anchor without a number.
fn append(work: &mut ScratchImage, t: &[u8])
    requires { Growable work.old.octets work.old.len t.now }
    ensures appends { Appends work.old.octets work.old.len t.now work.new.len work.new.octets }
    ensures former { work.new.former ≡ work.old.former }
{
    let count = store::anchor_place(work.image());
    let items = store::anchor_count(work.image()) + 1;
    let end = store::community_place(work.image());
    let mut head = [0u8; 11];
    octets::put_be(&mut head, 9, 2, t.len() as u64);
    work.len = edit::replace_items(
        &mut work.octets,
        work.len,
        count,
        items as u8,
        end,
        0,
        &head,
        t,
    );
}

// Removes the anchor at a position after the apex.
fn remove_anchor(work: &mut ScratchImage, position: usize)
    requires { CanRemove work.old.octets work.old.len position }
    ensures removes { RemovesAnchor work.old.octets work.old.len position work.new.len work.new.octets }
    ensures former { work.new.former ≡ work.old.former }
{
    let count = store::anchor_place(work.image());
    let items = store::anchor_count(work.image()) - 1;
    let at = store::record_place(work.image(), position);
    let end = store::record_end(work.image(), at);
    work.len = edit::replace_items(
        &mut work.octets,
        work.len,
        count,
        items as u8,
        at,
        end - at,
        b"",
        b"",
    );
}

// add: 34, 17 for size, 11, 0 if the same octets are stored, 20 if the public key is stored otherwise, 17 at 32 anchors, else appended.
fn add(m: &Accepted, work: &mut ScratchImage, t: &[u8]) -> Result<(), Status>
    requires { Scratch work.old.octets work.old.len × Conforming t.now }
    ensures { Applies
        (λ apex before new. added (signer_rights m.now.image.now m.now.signer) apex before new t.now)
        work.old
        result
        work.new }
{
    anchor::judge(t)?;
    if !is_within_signer(m, t) {
        return Err(Status::NOT_AUTHORIZED);
    }
    // no two public keys of a store are equal, so no other anchor can have the same octets
    if let Some(p) = store::find_anchor(work.image(), Sought::PublicKey, anchor::public_key(t)) {
        if octets::equal(info_at(work.image(), p), t) {
            return Ok(());
        }
        return Err(Status::IMPROPER_TA_ADDITION);
    }
    let is_full = octets::MAX_ANCHORS <= store::anchor_count(work.image());
    if is_full {
        return Err(Status::INSUFFICIENT_MEMORY);
    }
    append(work, t);
    Ok(())
}

// remove: 25 no such key; 19 the apex; 11 not within the signer; else 0. The key comes as the message tags it.
fn remove(m: &Accepted, work: &mut ScratchImage, key: &[u8]) -> Result<(), Status>
    requires { Scratch work.old.octets work.old.len }
    ensures { Applies
        (λ apex before new. removed (signer_rights m.now.image.now m.now.signer) apex before new (untagged key.now))
        work.old
        result
        work.new }
{
    let Some(p) = store::find_anchor(work.image(), Sought::TaggedPublicKey, key) else {
        return Err(Status::TRUST_ANCHOR_NOT_FOUND);
    };
    if p == 0 {
        return Err(Status::APEX_TAMP_ANCHOR);
    }
    if !is_within_signer(m, info_at(work.image(), p)) {
        return Err(Status::NOT_AUTHORIZED);
    }
    remove_anchor(work, p);
    if p <= work.former {
        work.former -= 1;
    }
    Ok(())
}

// An entry of the message: "a failed one changes nothing".
fn step(m: &Accepted, work: &mut ScratchImage, entry: Entry) -> Result<(), Status>
    requires { Scratch work.old.octets work.old.len × Adding m.now.message.now entry }
    ensures { Applies
        (λ apex before new. step_of m.now.message.now (signer_rights m.now.image.now m.now.signer) apex before new entry)
        work.old
        result
        work.new }
{
    match entry {
        Entry::Add(e) => add(m, work, der::encoding(m.message, e)),
        Entry::AddCertificate => Err(Status::UNSUPPORTED_TRUST_ANCHOR_FORMAT),
        Entry::Remove(e) => remove(m, work, der::encoding(m.message, e)),
        Entry::Change => Err(Status::IMPROPER_TA_CHANGE),
    }
}

// The octet for an entry of the message: success, or the status that the refusal gives.
fn enter(m: &Accepted, work: &mut ScratchImage, e: Element) -> u8
    requires { ScratchBoth work.old.octets work.old.len work.old.former × Adding m.now.message.now (entry_of m.now.message.now e) }
    ensures { Enters
        (λ apex before new. step_of m.now.message.now (signer_rights m.now.image.now m.now.signer) apex before new (entry_of m.now.message.now e))
        work.old
        result
        work.new }
{
    let Err(status) = step(m, work, message::entry_of(m.message, e)) else {
        return Status::SUCCESS.number;
    };
    status.number
}

// "They apply in order, each to what the former left": the entries in a list, with a status octet for each.
fn enter_all(m: &Accepted, work: &mut ScratchImage, codes: &mut [u8])
    requires { Enterable m.now.message.now m.now.request work.old.octets work.old.len codes.old }
    ensures { EntersAll
        m.now.message.now
        (signer_rights m.now.image.now m.now.signer)
        m.now.request
        work.old
        codes.old
        work.new
        codes.new }
{
    work.former = store::anchor_count(work.image()) - 1;
    for (n, e) in Run::inside(m.message, m.request.updates).enumerate() {
        codes[n] = enter(m, work, e);
    }
}

// Sets the number of the anchor whose record stands at place p, if it has the identifier.
fn number_at(work: &mut ScratchImage, p: usize, id: &[u8], n: u64)
    requires { CanNumber work.old.octets work.old.len p n }
    ensures numbers { NumbersAt work.old.octets work.old.len p id.now n work.new.octets }
    ensures marks { (work.new.len ≡ work.old.len) × (work.new.former ≡ work.old.former) }
{
    if !octets::equal(store::identifier_of(store::record_at(work.image(), p)), id) {
        return;
    }
    edit::set_number(&mut work.octets, p, n);
}

// An entry of tampSeqNumbers: the anchors after the former ones were appended by this message.
fn number_new(work: &mut ScratchImage, id: &[u8], n: u64)
    requires { ScratchBoth work.old.octets work.old.len work.old.former × (n ≤ max_number) }
    ensures numbers { Renumbers (map (with_seq_number (id.now, n))) work.old.octets work.old.len work.old.former work.new.octets }
    ensures marks { (work.new.len ≡ work.old.len) × (work.new.former ≡ work.old.former) }
{
    let count = store::anchor_count(work.image());
    let first = work.former + 1;
    // a place, and no iterator over records: the loop writes the image that it reads
    let mut p = store::record_place(work.image(), first);
    for _ in first..count {
        number_at(work, p, id, n);
        p = store::record_end(work.image(), p);
    }
}

// "Then tampSeqNumbers in order".
fn number_all(m: &Accepted, work: &mut ScratchImage)
    requires { Numerable m.now.message.now m.now.request work.old.octets work.old.len work.old.former }
    ensures numbers { Renumbers
        (with_seq_numbers (seq_numbers_in m.now.message.now m.now.request.numbers))
        work.old.octets
        work.old.len
        work.old.former
        work.new.octets }
    ensures marks { (work.new.len ≡ work.old.len) × (work.new.former ≡ work.old.former) }
{
    for e in Run::inside(m.message, m.request.numbers) {
        let id = der::contents(m.message, der::field(m.message, e, der::OCTET_STRING));
        let n = message::number_in(m.message, der::field(m.message, e, der::INTEGER));
        number_new(work, id, n);
    }
}

// The entries, then tampSeqNumbers, of an Update of at most 16 entries, on a scratch that holds the store with the signer's number.
fn update_scratch(m: &Accepted, work: &mut ScratchImage, codes: &mut [u8])
    requires { Enterable m.now.message.now m.now.request work.old.octets work.old.len codes.old }
    ensures { UpdatedAs
        m.now.message.now
        (signer_rights m.now.image.now m.now.signer)
        m.now.request
        work.old.octets
        work.old.len
        codes.old
        work.new.len
        work.new.octets
        codes.new }
{
    enter_all(m, work, codes);
    number_all(m, work);
}

// Update: over 16 entries 17 for the message as a whole, and the number still moves; else each entry in turn, by the signer's rights in the image as given, a status octet for each.
pub fn update(m: &Accepted, next: &mut [u8], codes: &mut [u8]) -> Done
    requires { Signing m.now.request m.now.signer m.now.image.now next.old
        × (received m.now.message.now ≡ Ok m.now.request)
        × (m.now.request.kind ≡ Update)
        × (max_updates ≤ length codes.old) }
    ensures { Effects
        (update_effect m.now.message.now m.now.request (signer_rights m.now.image.now m.now.signer))
        m.now.request
        m.now.signer
        m.now.image.now
        next.old
        result
        next.new
        × Codes
        m.now.message.now
        m.now.request
        (signer_rights m.now.image.now m.now.signer)
        m.now.signer
        m.now.image.now
        codes.old
        codes.new }
{
    let count = message::entry_count(m.message, m.request.updates);
    let is_over = octets::MAX_UPDATES < count;
    if is_over {
        return move_number(m, next, Status::INSUFFICIENT_MEMORY);
    }
    let mut work = ScratchImage {
        octets: [0u8; octets::IMAGE_ROOM],
        len: 0,
        former: 0,
    };
    work.len = renumber(m.request, m.signer, m.image, &mut work.octets);
    update_scratch(m, &mut work, codes);
    octets::copy_to(next, 0, work.image());
    Done {
        status: Status::SUCCESS,
        len: work.len,
    }
}
