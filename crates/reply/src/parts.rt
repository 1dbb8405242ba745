// The parts of a reply: each is written at a place, and the place after it is given.
// Buffer and place are two parameters here: 01 asks for "thin append calls over covered functions", and these are the covered ones under `Writer::append`.
ghost use Rattle.std.specs.Prelude.{◌≡◌, ◌++◌, ◌+◌, ◌^◌, ◌≤◌, ◌<◌, length};
ghost use Rattle.octets.specs.Octets.{placed};
ghost use Rattle.der.specs.Write.{element};
ghost use Rattle.reply.specs.Replies.{list_of};
ghost use Rattle.reply.specs.Contract.Parts.{status_codes, element_size, tag_of, rows_in, count_in, member_at, member_end, members_from, listed, part_octets};

use super::{Listed, Part};

fn put_octets(buf: &mut [u8], at: usize, s: &[u8]) -> usize
    requires { at + length s.now ≤ length buf.old }
    ensures { (result ≡ at + length s.now) × (buf.new ≡ placed buf.old at s.now) }
{
    octets::copy_to(buf, at, s);
    at + s.len()
}

// StatusCodeList: 0A 01 and the code, for each.
fn put_codes(buf: &mut [u8], at: usize, codes: &[u8]) -> usize
    requires { at + length (status_codes codes.now) ≤ length buf.old }
    ensures { (result ≡ at + length (status_codes codes.now)) × (buf.new ≡ placed buf.old at (status_codes codes.now)) }
{
    let mut p = at;
    for code in codes {
        p = put_octets(buf, p, &[der::ENUMERATED, 1, *code]);
    }
    p
}

// The octets of an element with n octets of contents.
pub fn element_size(n: usize) -> usize
    requires { n < 2 ^ 63 }
    ensures { (result ≡ element_size n) × (result ≤ n + 10) }
{
    der::header_size(n) + n
}

// The lists of an image. (Each a `match` of two arms, and no trait with two types, which is no plainer: contracts and parts name the list by its variant.)
impl Listed {
    // The octets in which the list's members stand.
    fn rows(self, image: &[u8]) -> &[u8]
        ensures { result.now ≡ rows_in self image.now }
    {
        match self {
            Listed::Identifiers => octets::slice(image, store::first_record(image), image.len()),
            Listed::Communities => store::community_octets(image),
        }
    }

    // How many there are.
    fn count(self, image: &[u8]) -> usize
        ensures { result ≡ count_in self image.now }
    {
        match self {
            Listed::Identifiers => store::anchor_count(image),
            Listed::Communities => store::community_count(image),
        }
    }

    // Their tag.
    fn tag(self) -> u8
        ensures { result ≡ tag_of self }
    {
        match self {
            Listed::Identifiers => der::OCTET_STRING,
            Listed::Communities => der::OBJECT_IDENTIFIER,
        }
    }

    // The member at a place of those octets.
    fn member(self, rows: &[u8], p: usize) -> &[u8]
        ensures { result.now ≡ member_at self rows.now p }
    {
        match self {
            Listed::Identifiers => store::identifier_of(store::record_at(rows, p)),
            Listed::Communities => store::name_at(rows, p),
        }
    }

    // Where it ends.
    fn member_end(self, rows: &[u8], p: usize) -> usize
        ensures { result ≡ member_end self rows.now p }
    {
        match self {
            Listed::Identifiers => store::record_end(rows, p),
            Listed::Communities => store::name_end(rows, p),
        }
    }
}

// An element with these contents.
fn put_element(buf: &mut [u8], at: usize, tag: u8, contents: &[u8]) -> usize
    requires { at + length (element tag contents.now) ≤ length buf.old }
    ensures { (result ≡ at + length (element tag contents.now)) × (buf.new ≡ placed buf.old at (element tag contents.now)) }
{
    let p = der::put_header(buf, at, tag, contents.len());
    put_octets(buf, p, contents)
}

// The octets that the first n members take. (By their places, here and below: over store's Records and Names the one loop would be two, and so no plainer.)
fn members_size(by: Listed, rows: &[u8], n: usize) -> usize
    requires { length (members_from by n rows.now) < 2 ^ 63 }
    ensures { result ≡ length (members_from by n rows.now) }
{
    let mut size = 0;
    let mut p = 0;
    for _ in 0..n {
        size += element_size(by.member(rows, p).len());
        p = by.member_end(rows, p);
    }
    size
}

// The first n members, each in its tag.
fn put_members(buf: &mut [u8], at: usize, by: Listed, rows: &[u8], n: usize) -> usize
    requires { at + length (members_from by n rows.now) ≤ length buf.old }
    ensures { (result ≡ at + length (members_from by n rows.now))
        × (buf.new ≡ placed buf.old at (members_from by n rows.now)) }
{
    let tag = by.tag();
    let mut to = at;
    let mut p = 0;
    for _ in 0..n {
        to = put_element(buf, to, tag, by.member(rows, p));
        p = by.member_end(rows, p);
    }
    to
}

// A list; nothing where there are no members.
pub fn list_size(by: Listed, image: &[u8]) -> usize
    requires { length (list_of (tag_of by) (listed by image.now)) < 2 ^ 63 }
    ensures { result ≡ length (list_of (tag_of by) (listed by image.now)) }
{
    let n = by.count(image);
    if n == 0 {
        return 0;
    }
    element_size(members_size(by, by.rows(image), n))
}

fn put_list(buf: &mut [u8], at: usize, by: Listed, image: &[u8]) -> usize
    requires { at + length (list_of (tag_of by) (listed by image.now)) ≤ length buf.old }
    ensures { (result ≡ at + length (list_of (tag_of by) (listed by image.now)))
        × (buf.new ≡ placed buf.old at (list_of (tag_of by) (listed by image.now))) }
{
    let n = by.count(image);
    if n == 0 {
        return at;
    }
    let rows = by.rows(image);
    let p = der::put_header(buf, at, der::SEQUENCE, members_size(by, rows, n));
    put_members(buf, p, by, rows, n)
}

pub fn put_part(buf: &mut [u8], at: usize, part: Part) -> usize
    requires { at + length (part_octets part) ≤ length buf.old }
    ensures { (result ≡ at + length (part_octets part.entry)) × (buf.new ≡ placed buf.old at (part_octets part.entry)) }
{
    match part {
        Part::Octets(s) => put_octets(buf, at, s),
        Part::Header(tag, n) => der::put_header(buf, at, tag, n),
        Part::Codes(codes) => put_codes(buf, at, codes),
        Part::List(by, image) => put_list(buf, at, by, image),
    }
}
