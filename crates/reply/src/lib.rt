// The replies of 01: TAMP content in terse form, unsigned (RFC 5934). Built by one writer that keeps the lent reply buffer and its place in it.
#![tactic(auto)]

ghost use Rattle.std.specs.Prelude.{◌≡◌, List, [], ◌∷◌, ◌++◌, map, ◌+◌, ◌^◌, ◌≤◌, ◌<◌, length};
ghost use Rattle.octets.specs.Octets.{placed};
ghost use Rattle.octets.specs.declared.Status.{Status};
ghost use Rattle.octets.specs.Limits.{max_message};
ghost use Rattle.der.specs.Write.{element};
ghost use Rattle.reply.specs.Replies.{tamp_error, update_confirm, community_confirm, adjust_confirm};
ghost use Rattle.reply.specs.Contract.Parts.{status_numbered, reply_size, part_octets, wrote, octets_of, terse_size, response_of};

use octets::Status;

mod parts;

// The writer.
#[derive(Drop)]
pub struct Writer<'a> {
    pub buf: &'a mut [u8],
    pub at: usize,
}

// What a reply lists of an image.
#[derive(Clone, Copy)]
pub enum Listed {
    Identifiers,
    Communities,
}

// A part of a reply.
#[derive(Clone, Copy)]
pub enum Part<'b> {
    // octets
    Octets(&'b [u8]),
    // the header of an element by its tag and the size of its contents
    Header(u8, usize),
    // a status code for each of the octets
    Codes(&'b [u8]),
    // a list of the image that the octets are
    List(Listed, &'b [u8]),
}

impl<'a> Writer<'a> {
    fn append(&mut self, part: Part)
        requires { self.old.at + length (part_octets part) ≤ length self.old.buf.now }
        ensures same_reference { self.new.buf.ghost_name ≡ self.old.buf.ghost_name }
        ensures written { self.new ≡ wrote self.old (part_octets part.entry) }
    {
        self.at = parts::put_part(&mut *self.buf, self.at, part);
    }
}

// The parts of a reply, one after the other.
fn put_parts(buf: &mut [u8], parts: &[Part]) -> usize
    requires { length (octets_of parts.now) ≤ length buf.old }
    ensures { (result ≡ length (octets_of parts.now)) × (buf.new ≡ placed buf.old 0 (octets_of parts.now)) }
{
    let mut w = Writer { buf: buf, at: 0 };
    for part in parts {
        w.append(*part);
    }
    w.at
}

// How many octets a reply takes, before anything is written. What they are made of are parts of a message, of at most 8,192 octets.
fn reply_size(lead: usize, m: usize, after: usize) -> usize
    requires { lead + m + after + 10 < 2 ^ 63 }
    ensures { result ≡ reply_size lead m after }
{
    parts::element_size(lead + parts::element_size(m) + after)
}

pub fn error_size(msgtype: &[u8], msgref: &[u8]) -> usize
    requires { (length msgtype.now ≤ max_message) × (length msgref.now ≤ max_message) }
    ensures { (status : Status) → result ≡ length (tamp_error msgtype.now status msgref.now) }
{
    reply_size(0, msgtype.len(), 3 + msgref.len())
}

// Of a confirm of `count` entries.
pub fn update_size(msgref: &[u8], count: usize) -> usize
    requires { (length msgref.now ≤ max_message) × (count ≤ max_message) }
    ensures { (l : List Status) → length l ≡ count → result ≡ length (update_confirm msgref.now l) }
{
    reply_size(msgref.len(), 3 * count, 0)
}

// Of the confirms of Community Update and Adjust, which have one status.
pub fn confirm_size(msgref: &[u8]) -> usize
    requires { length msgref.now ≤ max_message }
    ensures { ((status : Status) → result ≡ length (community_confirm msgref.now status))
        × (result ≡ length (adjust_confirm msgref.now)) }
{
    reply_size(msgref.len(), 1, 0)
}

// Of the terse response, in its tag.
fn terse_size(image: &[u8]) -> usize
    requires { length image.now < 2 ^ 32 }
    ensures { (result ≡ terse_size image.now) × (result < 2 ^ 62) }
{
    parts::list_size(Listed::Identifiers, image) + parts::list_size(Listed::Communities, image)
}

// Of a status response of the store with this image.
pub fn response_size(msgref: &[u8], image: &[u8]) -> usize
    requires { (length msgref.now ≤ max_message) × (length image.now < 2 ^ 32) }
    ensures { result ≡ length (response_of msgref.now image.now) }
{
    reply_size(msgref.len(), terse_size(image), 0)
}

// The replies of 01.

// TAMPError
pub fn put_error<'b>(buf: &mut [u8], msgtype: &'b [u8], status: Status, msgref: &'b [u8]) -> usize
    requires { length (tamp_error msgtype.now status msgref.now) ≤ length buf.old }
    ensures { (result ≡ length (tamp_error msgtype.now status msgref.now))
        × (buf.new ≡ placed buf.old 0 (tamp_error msgtype.now status msgref.now)) }
{
    let code = [status.number];
    let n = parts::element_size(msgtype.len()) + 3 + msgref.len();
    let parts = [
        Part::Header(der::SEQUENCE, n),
        Part::Header(der::OBJECT_IDENTIFIER, msgtype.len()),
        Part::Octets(msgtype),
        Part::Codes(&code),
        Part::Octets(msgref),
    ];
    put_parts(buf, &parts)
}

// TAMPUpdateConfirm, of the entries' statuses as octets
pub fn put_update_confirm<'b>(buf: &mut [u8], msgref: &'b [u8], codes: &'b [u8]) -> usize
    requires { length (update_confirm msgref.now (map status_numbered codes.now)) ≤ length buf.old }
    ensures { (result ≡ length (update_confirm msgref.now (map status_numbered codes.now)))
        × (buf.new ≡ placed buf.old 0 (update_confirm msgref.now (map status_numbered codes.now))) }
{
    let m = 3 * codes.len();
    let parts = [
        Part::Header(der::SEQUENCE, msgref.len() + parts::element_size(m)),
        Part::Octets(msgref),
        Part::Header(der::CONSTRUCTED_0, m),
        Part::Codes(codes),
    ];
    put_parts(buf, &parts)
}

// A confirm with one status, by the tag that it has.
fn put_code_confirm(buf: &mut [u8], msgref: &[u8], tag: u8, status: Status) -> usize
    requires { length (element 0x30 (msgref.now ++ element tag (status.number ∷ []))) ≤ length buf.old }
    ensures { (result ≡ length (element 0x30 (msgref.now ++ element tag (status.number ∷ []))))
        × (buf.new ≡ placed buf.old 0 (element 0x30 (msgref.now ++ element tag (status.number ∷ [])))) }
{
    let contents = [status.number];
    let parts = [
        Part::Header(der::SEQUENCE, msgref.len() + parts::element_size(1)),
        Part::Octets(msgref),
        Part::Header(tag, 1),
        Part::Octets(&contents),
    ];
    put_parts(buf, &parts)
}

// TAMPCommunityUpdateConfirm
pub fn put_community_confirm(buf: &mut [u8], msgref: &[u8], status: Status) -> usize
    requires { length (community_confirm msgref.now status) ≤ length buf.old }
    ensures { (result ≡ length (community_confirm msgref.now status))
        × (buf.new ≡ placed buf.old 0 (community_confirm msgref.now status)) }
{
    put_code_confirm(buf, msgref, der::CONTEXT_0, status)
}

// SequenceNumberAdjustConfirm
pub fn put_adjust_confirm(buf: &mut [u8], msgref: &[u8]) -> usize
    requires { length (adjust_confirm msgref.now) ≤ length buf.old }
    ensures { (result ≡ length (adjust_confirm msgref.now))
        × (buf.new ≡ placed buf.old 0 (adjust_confirm msgref.now)) }
{
    put_code_confirm(buf, msgref, der::ENUMERATED, Status::SUCCESS)
}

// TAMPStatusResponse, of the store with this image
pub fn put_status_response<'b>(buf: &mut [u8], msgref: &'b [u8], image: &'b [u8]) -> usize
    requires { (length image.now < 2 ^ 32) × (length (response_of msgref.now image.now) ≤ length buf.old) }
    ensures { (result ≡ length (response_of msgref.now image.now))
        × (buf.new ≡ placed buf.old 0 (response_of msgref.now image.now)) }
{
    let m = terse_size(image);
    let parts = [
        Part::Header(der::SEQUENCE, msgref.len() + parts::element_size(m)),
        Part::Octets(msgref),
        Part::Header(der::CONSTRUCTED_0, m),
        Part::List(Listed::Identifiers, image),
        Part::List(Listed::Communities, image),
    ];
    put_parts(buf, &parts)
}
