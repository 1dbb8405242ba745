// The store: its image, the records in it, and its listing (01, The store image).
// Everything here takes any octets, an image or not; what it says of an image is in proofs/Parts.
#![tactic(auto)]

ghost use Rattle.std.specs.Prelude.{◌≡◌, ◌+◌, ◌<◌, min, ◌∷◌, map, length, drop, eqb};
ghost use Rattle.octets.specs.Octets.{octet, same, member};
ghost use Rattle.store.specs.Records.{records_of};
ghost use Rattle.store.specs.Signer.{signer};
ghost use Rattle.store.specs.Contract.Parts.{hw_type_in, serial_in, anchor_place, anchor_count, first_record, record_end, record_at, place_of, info_in, identifier_in};
ghost use Rattle.store.specs.Contract.Parts.{number_in, community_place, community_count, community_octets, name_end, name_at, names_from, names_size};
ghost use Rattle.store.specs.Contract.Parts.{is_sought, first_from, infos_from};

mod items;

pub use items::{Names, Records};

// Why there is no signer among the anchors (01, Answers).
#[derive(Clone, Copy)]
pub enum NoSigner {
    // none of those that have the identifier has verdict 1
    Unverified,
    // no anchor has the identifier
    Unknown,
}

// What an anchor is sought by. (An enum and no closure, which is no plainer: the specification's `is_sought` names the two.)
#[derive(Clone, Copy)]
pub enum Sought {
    PublicKey,
    // a public key as a message tags it: its first octet is read as 30
    TaggedPublicKey,
}

// The octet at a place, 0 after the end.
pub fn octet_at(s: &[u8], p: usize) -> usize
    ensures { (result ≡ octet s.now p) × (result < 256) }
{
    usize::from(s.get(p).copied().unwrap_or(0))
}

// The octets from place p on.
fn after(s: &[u8], p: usize) -> &[u8]
    ensures { result.now ≡ drop p s.now }
{
    s.get(p..).unwrap_or(&[])
}

pub fn hw_type(image: &[u8]) -> &[u8]
    ensures { result.now ≡ hw_type_in image.now }
{
    octets::slice(image, 2, 2 + octet_at(image, 1))
}

pub fn serial(image: &[u8]) -> &[u8]
    ensures { result.now ≡ serial_in image.now }
{
    let p = 2 + octet_at(image, 1);
    octets::slice(image, p + 1, p + 1 + octet_at(image, p))
}

// Where the anchors' count stands.
pub fn anchor_place(image: &[u8]) -> usize
    ensures { (result ≡ anchor_place image.now) × (result < 1024) }
{
    let p = 2 + octet_at(image, 1);
    p + 1 + octet_at(image, p)
}

pub fn anchor_count(image: &[u8]) -> usize
    ensures { result ≡ anchor_count image.now }
{
    octet_at(image, anchor_place(image))
}

// Where the first record stands.
pub fn first_record(image: &[u8]) -> usize
    ensures { result ≡ first_record image.now }
{
    anchor_place(image) + 1
}

// Where the record at place p ends, or the octets do.
pub fn record_end(s: &[u8], p: usize) -> usize
    ensures { result ≡ record_end s.now p }
{
    let n = s.len();
    if n <= p {
        return n;
    }
    let size = octets::get_be(s, p + 9, 2) as usize;
    n.min(p + 11 + size)
}

// The record at place p, as a part of the caller's slice.
pub fn record_at(s: &[u8], p: usize) -> &[u8]
    ensures { result.now ≡ record_at s.now p }
{
    octets::slice(s, p, record_end(s, p))
}

// Where the record with a position stands; after the last one, the communities' count. (`names_end` is this loop with another step: one for both is no plainer,
// nor is a `fold`.)
pub fn record_place(image: &[u8], position: usize) -> usize
    ensures { result ≡ place_of image.now position }
{
    let mut p = first_record(image);
    for _ in 0..position {
        p = record_end(image, p);
    }
    p
}

// The parts of a record, which is any octets: they are read with no fact about it, so a struct of it would only rename these three.
pub fn info_of(row: &[u8]) -> &[u8]
    ensures { result.now ≡ info_in row.now }
{
    after(row, 11)
}

pub fn identifier_of(row: &[u8]) -> &[u8]
    ensures { result.now ≡ identifier_in row.now }
{
    anchor::key_identifier(info_of(row))
}

pub fn number_of(row: &[u8]) -> Option<u64>
    ensures { result ≡ number_in row.now }
{
    if octet_at(row, 0) == 1 {
        return Some(octets::get_be(row, 1, 8));
    }
    None
}

// Where the communities' count stands, and the count.
pub fn community_place(image: &[u8]) -> usize
    ensures { result ≡ community_place image.now }
{
    record_place(image, anchor_count(image))
}

pub fn community_count(image: &[u8]) -> usize
    ensures { result ≡ community_count image.now }
{
    octet_at(image, community_place(image))
}

// The communities' octets, after their count and up to where the last one ends.
pub fn community_octets(image: &[u8]) -> &[u8]
    ensures { result.now ≡ community_octets image.now }
{
    let section = after(image, community_place(image));
    let names = after(section, 1);
    octets::slice(names, 0, names_end(names, octet_at(section, 0)))
}

// Where the name at place p ends, or the octets do.
pub fn name_end(s: &[u8], p: usize) -> usize
    ensures { result ≡ name_end s.now p }
{
    let n = s.len();
    if n <= p {
        return n;
    }
    n.min(p + 1 + octet_at(s, p))
}

// The name at place p, as a part of the caller's slice.
pub fn name_at(s: &[u8], p: usize) -> &[u8]
    ensures { result.now ≡ name_at s.now p }
{
    after(octets::slice(s, p, name_end(s, p)), 1)
}

// Where the n names at the head of octets end, or the octets do.
fn names_end(s: &[u8], n: usize) -> usize
    ensures { result ≡ min (names_size n s.now) (length s.now) }
{
    let mut p = 0;
    for _ in 0..n {
        p = name_end(s, p);
    }
    p
}

// Some of the n names from place p on is the one wanted.
pub fn has_name(s: &[u8], p: usize, n: usize, wanted: &[u8]) -> bool
    ensures { result ≡ member wanted.now (names_from n (drop p s.now)) }
{
    Names::new(s, p, n).any(|name| octets::equal(wanted, name))
}

// A TrustAnchorInfo is the one that is sought.
fn is_sought(info: &[u8], by: Sought, wanted: &[u8]) -> bool
    ensures { result ≡ is_sought by wanted.now info.now }
{
    match by {
        Sought::PublicKey => octets::equal(anchor::public_key(info), wanted),
        Sought::TaggedPublicKey => is_tagged(anchor::public_key(info), wanted),
    }
}

// The key is the one wanted, whose first octet is read as 30.
fn is_tagged(key: &[u8], wanted: &[u8]) -> bool
    ensures { result ≡ same key.now (0x30 ∷ drop 1 wanted.now) }
{
    if octet_at(key, 0) != 0x30 {
        return false;
    }
    octets::equal(after(key, 1), after(wanted, 1))
}

// The position of the first of the n records from place p on that is sought.
pub fn find_anchor_from(s: &[u8], p: usize, n: usize, by: Sought, wanted: &[u8]) -> Option<usize>
    ensures { result ≡ first_from 0 (is_sought by wanted.now) (infos_from n (drop p s.now)) }
{
    Records::new(s, p, n).position(|record| is_sought(info_of(record), by, wanted))
}

// The position of the anchor that is sought.
pub fn find_anchor(image: &[u8], by: Sought, wanted: &[u8]) -> Option<usize>
    ensures { result ≡ first_from 0 (is_sought by wanted.now) (map info_in (records_of image.now)) }
{
    find_anchor_from(image, first_record(image), anchor_count(image), by, wanted)
}

// The anchor's verdict is 1.
fn is_verified(verdict: &[u8], position: usize) -> bool
    ensures { result ≡ eqb (octet verdict.now position) 1 }
{
    octet_at(verdict, position) == 1
}

// The signer: the first anchor with the identifier and verdict 1. (01 asks for this form: a loop left by break, with the position found.)
pub fn find_signer(image: &[u8], verdict: &[u8], wanted: &[u8]) -> Result<usize, NoSigner>
    ensures { result ≡ signer (map identifier_in (records_of image.now)) verdict.now wanted.now }
{
    let mut missed = NoSigner::Unknown;
    let mut found = None;
    for (i, record) in Records::of(image).enumerate() {
        if octets::equal(identifier_of(record), wanted) {
            if is_verified(verdict, i) {
                found = Some(i);
                break;
            }
            missed = NoSigner::Unverified;
        }
    }
    found.ok_or(missed)
}
