// Community Update: removals, then additions, on a scratch image (01, After acceptance).
ghost use Rattle.std.specs.Prelude.{◌≡◌, not, ◌&&◌, [], ◌++◌, ◌≤◌, length, ltb, leb};
ghost use Rattle.protocol.specs.Community.{after_removals};
ghost use Rattle.der.specs.Element.{contents as contentsOf};
ghost use Rattle.octets.specs.Limits.{max_name_octets};
ghost use Rattle.octets.specs.Octets.{member, distinct};
ghost use Rattle.octets.specs.Lists.{any_of, filter};
ghost use Rattle.store.specs.Contract.Parts.{communities_of};
ghost use Rattle.syntax.specs.declared.TampType.TheVariants.{CommunityUpdate};
ghost use Rattle.message.specs.Rows.{received};
ghost use Rattle.protocol.specs.Effect.{community_effect};
ghost use Rattle.apply.specs.Contract.Effect.{Signing, Effects};
ghost use Rattle.apply.specs.Contract.Names.{oids_from, Section, Joinable, Joins, KeepsName, FewNames, Addable, AddsName, AddableAll, AddsAll};
ghost use Rattle.apply.specs.Contract.Community.{CanUpdate, UpdatesCommunities, CommunityReady, CommunityDone};

use crate::scratch::ScratchImage;
use crate::{Accepted, Done, renumber};
use der::{Compared, Element, Run};
use octets::Status;
use store::Names;

// The communities' section at its longest: the count, and 16 communities of 32 octets, each after its length.
const SECTION_ROOM: usize = 529;

// An OID is over 32 octets. (Anchor's test of a value is of another limit and of an element with its header: one over both is no plainer.)
fn is_long(s: &[u8], e: Element) -> bool
    ensures { result ≡ ltb max_name_octets (length (contentsOf s.now e)) }
{
    octets::MAX_NAME_OCTETS < der::contents(s, e).len()
}

// Some OID of the list is over 32 octets.
fn has_long(s: &[u8], list: Element) -> bool
    ensures { result ≡ any_of (λ c. ltb max_name_octets (length c)) (oids_from s.now list.stop list.start) }
{
    Run::inside(s, list).any(|e| is_long(s, e))
}

// A communities' section that is put together, in the first octets of a buffer. (A type beside `ScratchImage`, and none over the array's size for both, which is no
// plainer: that one counts the former anchors too, and lends its image at twenty places, this one at two.
// A buffer with a length and no Vec: the library has no heap.)
#[derive(Drop)]
struct NamesSection {
    octets: [u8; SECTION_ROOM],
    len: usize,
}

// Appends a name.
fn join(names: &mut NamesSection, name: &[u8])
    requires { Joinable names.old.octets names.old.len name.now }
    ensures { Joins names.old.octets names.old.len name.now names.new.len names.new.octets }
{
    let items = names.octets[0] + 1;
    let head = [name.len() as u8];
    let end = names.len;
    names.len = edit::replace_items(&mut names.octets, end, 0, items, end, 0, &head, name);
}

// Appends a community unless it is removed.
fn keep_name(message: &[u8], removals: Element, names: &mut NamesSection, name: &[u8])
    requires { Joinable names.old.octets names.old.len name.now }
    ensures { KeepsName
        (oids_from message.now removals.stop removals.start)
        names.old.octets
        names.old.len
        name.now
        names.new.len
        names.new.octets }
{
    if der::occurs(
        message,
        removals.start,
        removals.stop,
        Compared::Contents,
        name,
    ) {
        return;
    }
    join(names, name);
}

// Appends the communities of an image that are not removed.
fn keep_names(message: &[u8], removals: Element, image: &[u8], names: &mut NamesSection)
    requires { FewNames image.now × Section names.old.octets names.old.len [] }
    ensures { Section
        names.new.octets
        names.new.len
        (filter (λ c. not (member c (oids_from message.now removals.stop removals.start))) (communities_of image.now)) }
{
    for name in Names::of(image) {
        keep_name(message, removals, names, name);
    }
}

// A remove list that is present and empty: "all community identifiers MUST be removed" (RFC 5934, 4.7).
fn clears(removals: Element) -> bool
    ensures { result ≡ removals.valid && leb removals.stop removals.start }
{
    removals.valid && removals.stop <= removals.start
}

// The communities that the removals leave.
fn after_removals(message: &[u8], removals: Element, image: &[u8], names: &mut NamesSection)
    requires { FewNames image.now × (529 ≤ length names.old.octets) }
    ensures { Section
        names.new.octets
        names.new.len
        (after_removals
        removals.valid
        (oids_from message.now removals.stop removals.start)
        (communities_of image.now)) }
{
    names.octets[0] = 0;
    names.len = 1;
    if clears(removals) {
        return;
    }
    keep_names(message, removals, image, names);
}

// Appends a community unless it is one of the first `kept`, where there is room for it.
fn add_name(names: &mut NamesSection, kept: usize, name: &[u8]) -> Result<(), Status>
    requires { Addable names.old.octets names.old.len kept name.now }
    ensures { AddsName names.old.octets names.old.len kept name.now result names.new.len names.new.octets }
{
    if store::has_name(&names.octets[..names.len], 1, kept, name) {
        return Ok(());
    }
    let is_full = names.octets[0] == 16;
    if is_full {
        return Err(Status::INSUFFICIENT_MEMORY);
    }
    join(names, name);
    Ok(())
}

// Appends the additions: "present ones pass".
fn add_names(message: &[u8], additions: Element, names: &mut NamesSection) -> Result<(), Status>
    requires { AddableAll (oids_from message.now additions.stop additions.start) names.old.octets names.old.len }
    ensures { AddsAll
        (oids_from message.now additions.stop additions.start)
        names.old.octets
        names.old.len
        result
        names.new.len
        names.new.octets }
{
    let kept = usize::from(names.octets[0]);
    for e in Run::inside(message, additions) {
        add_name(names, kept, der::contents(message, e))?;
    }
    Ok(())
}

// 24: an OID occurs twice in the two lists.
fn has_repeat(s: &[u8], removals: Element, additions: Element) -> bool
    ensures { result ≡ not
        (distinct
        (oids_from s.now removals.stop removals.start
        ++ oids_from s.now additions.stop additions.start)) }
{
    !repeats::are_distinct(s, removals, additions, Compared::Contents)
}

// Removals, then additions, unless over 16 would remain.
fn update_communities(
    message: &[u8],
    removals: Element,
    additions: Element,
    work: &mut ScratchImage,
) -> Result<(), Status>
    requires { CanUpdate
        (oids_from message.now removals.stop removals.start)
        (oids_from message.now additions.stop additions.start)
        work.old.octets
        work.old.len }
    ensures { UpdatesCommunities
        removals.valid
        (oids_from message.now removals.stop removals.start)
        (oids_from message.now additions.stop additions.start)
        work.old
        result
        work.new }
{
    let mut names = NamesSection {
        octets: [0u8; SECTION_ROOM],
        len: 0,
    };
    after_removals(message, removals, work.image(), &mut names);
    add_names(message, additions, &mut names)?;
    let place = store::community_place(work.image());
    let old = store::community_octets(work.image()).len() + 1;
    work.len = edit::replace(
        &mut work.octets,
        work.len,
        place,
        old,
        b"",
        &names.octets[..names.len],
    );
    Ok(())
}

// A Community Update, on a scratch that holds the store with the signer's number.
fn community_scratch(m: &Accepted, work: &mut ScratchImage) -> Result<(), Status>
    requires { CommunityReady m.now.message.now m.now.request work.old.octets work.old.len }
    ensures { CommunityDone m.now.message.now m.now.request work.old result work.new }
{
    let updates = m.request.updates;
    let removals = der::field(m.message, updates, der::CONSTRUCTED_1);
    let additions = der::field(m.message, updates, der::CONSTRUCTED_2);
    if has_repeat(m.message, removals, additions) {
        return Err(Status::COMMUNITY_UPDATE_FAILED);
    }
    if has_long(m.message, removals) {
        return Err(Status::INSUFFICIENT_MEMORY);
    }
    if has_long(m.message, additions) {
        return Err(Status::INSUFFICIENT_MEMORY);
    }
    update_communities(m.message, removals, additions, work)
}

// Community Update.
pub fn community_update(m: &Accepted, next: &mut [u8]) -> Done
    requires { Signing m.now.request m.now.signer m.now.image.now next.old
        × (received m.now.message.now ≡ Ok m.now.request)
        × (m.now.request.kind ≡ CommunityUpdate) }
    ensures { Effects
        (community_effect m.now.message.now m.now.request)
        m.now.request
        m.now.signer
        m.now.image.now
        next.old
        result
        next.new }
{
    // (made here and for an Update alike: a function that gives it would move 33,717 octets)
    let mut work = ScratchImage {
        octets: [0u8; octets::IMAGE_ROOM],
        len: 0,
        former: 0,
    };
    work.len = renumber(m.request, m.signer, m.image, &mut work.octets);
    // (a `match`: `err().unwrap_or(..)` is no plainer)
    let status = match community_scratch(m, &mut work) {
        Ok(()) => Status::SUCCESS,
        Err(status) => status,
    };
    octets::copy_to(next, 0, work.image());
    Done {
        status: status,
        len: work.len,
    }
}
