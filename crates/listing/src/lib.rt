// The listing of a store image (01, Checked examples). Each method of `Text` writes its part of the text.
#![tactic(auto)]

ghost use Rattle.std.specs.Prelude.{◌≡◌, ◌<◌, [], ◌∷◌, length, drop};
ghost use Rattle.octets.specs.Octets.{written};
ghost use Rattle.store.specs.Listing.{hex_digit, hex, decimal, count_line, listing};
ghost use Rattle.listing.specs.Contract.Texts.{HasRoom, Writes, hex_within, hex_line, decimal_digits, decimal_line, number_line, role_field, key_line, record_line, record_lines, name_lines};
ghost use Rattle.listing.specs.Contract.Texts.{device_line, anchors_text, communities_text, image_text};

use anchor::AnchorRole;
use store::{Names, Records};

const BLANK: u8 = 32;

const NEWLINE: u8 = 10;

// (No `{:X}`, of which no clause says what it writes.)
fn hex_digit(n: u8) -> u8
    requires { n < 16 }
    ensures { result ≡ hex_digit n }
{
    if n < 10 {
        return 48 + n;
    }
    55 + n
}

// A text as it is written: the lent buffer, and the place where the text goes on. (Reply's `Writer` is a type of its own: 01 asks for its form, and its one method takes
// parts of a reply. `same_reference` stands in each clause: a type's invariant says nothing of what a method leaves as it was.)
#[derive(Drop)]
struct Text<'a> {
    buf: &'a mut [u8],
    at: usize,
}

impl<'a> Text<'a> {
    fn put_octet(&mut self, x: u8)
        requires { HasRoom self.old (x ∷ []) }
        ensures same_reference { self.new.buf.ghost_name ≡ self.old.buf.ghost_name }
        ensures written { Writes self.old (x ∷ []) self.new }
    {
        self.buf[self.at] = x;
        self.at += 1;
    }

    fn put_word(&mut self, word: &[u8])
        requires { HasRoom self.old word.now }
        ensures same_reference { self.new.buf.ghost_name ≡ self.old.buf.ghost_name }
        ensures written { Writes self.old word.now self.new }
    {
        octets::copy_to(&mut *self.buf, self.at, word);
        self.at += word.len();
    }

    // Octets in hex, two digits each.
    fn put_hex(&mut self, s: &[u8])
        requires { HasRoom self.old (hex s.now) }
        ensures same_reference { self.new.buf.ghost_name ≡ self.old.buf.ghost_name }
        ensures written { Writes self.old (hex s.now) self.new }
    {
        for x in s {
            self.put_octet(hex_digit(*x / 16));
            self.put_octet(hex_digit(*x % 16));
        }
    }

    // Octets in hex at the end of a line.
    fn put_hex_line(&mut self, s: &[u8])
        requires { HasRoom self.old (hex_line s.now) }
        ensures same_reference { self.new.buf.ghost_name ≡ self.old.buf.ghost_name }
        ensures written { Writes self.old (hex_line s.now) self.new }
    {
        self.put_hex(s);
        self.put_octet(NEWLINE);
    }

    // The decimal digits of n, at most k, none for 0.
    fn put_digits(&mut self, k: usize, n: u64)
        requires { HasRoom self.old (decimal_digits k n) }
        ensures same_reference { self.new.buf.ghost_name ≡ self.old.buf.ghost_name }
        ensures written { Writes self.old (decimal_digits k n) self.new }
    {
        if k == 0 {
            return;
        }
        if n == 0 {
            return;
        }
        self.put_digits(k - 1, n / 10);
        self.put_octet(48 + (n % 10) as u8);
    }

    // A number in decimal; not by `write!`, since `fmt::Write` names no case in which a write is Ok, and `list` has no error to give.
    fn put_decimal(&mut self, n: u64)
        requires { HasRoom self.old (decimal n) }
        ensures same_reference { self.new.buf.ghost_name ≡ self.old.buf.ghost_name }
        ensures written { Writes self.old (decimal n) self.new }
    {
        if n == 0 {
            self.put_octet(48);
            return;
        }
        self.put_digits(20, n);
    }

    // A number in decimal at the end of a line.
    fn put_decimal_line(&mut self, n: u64)
        requires { HasRoom self.old (decimal_line n) }
        ensures same_reference { self.new.buf.ghost_name ≡ self.old.buf.ghost_name }
        ensures written { Writes self.old (decimal_line n) self.new }
    {
        self.put_decimal(n);
        self.put_octet(NEWLINE);
    }

    // A line of a word and a count.
    fn put_count(&mut self, word: &[u8], n: usize)
        requires { HasRoom self.old (count_line word.now n) }
        ensures same_reference { self.new.buf.ghost_name ≡ self.old.buf.ghost_name }
        ensures written { Writes self.old (count_line word.now n) self.new }
    {
        self.put_word(word);
        self.put_decimal_line(n as u64);
    }

    // An anchor's number, or -, at the end of a line.
    fn put_number(&mut self, n: Option<u64>)
        requires { HasRoom self.old (number_line n) }
        ensures same_reference { self.new.buf.ghost_name ≡ self.old.buf.ghost_name }
        ensures written { Writes self.old (number_line n) self.new }
    {
        match n {
            None => self.put_word(b"-\n"),
            Some(x) => self.put_decimal_line(x),
        }
    }

    // A role, and a blank. (No `Display`: as with `put_decimal`.)
    fn put_role(&mut self, role: AnchorRole)
        requires { HasRoom self.old (role_field role) }
        ensures same_reference { self.new.buf.ghost_name ≡ self.old.buf.ghost_name }
        ensures written { Writes self.old (role_field role) self.new }
    {
        match role {
            AnchorRole::Apex => self.put_word(b"apex "),
            AnchorRole::Management => self.put_word(b"management "),
            AnchorRole::Identity => self.put_word(b"identity "),
        }
    }

    // Key identifier and number of an anchor's record, at the end of a line.
    fn put_key(&mut self, row: &[u8])
        requires { HasRoom self.old (key_line row.now) }
        ensures same_reference { self.new.buf.ghost_name ≡ self.old.buf.ghost_name }
        ensures written { Writes self.old (key_line row.now) self.new }
    {
        self.put_hex(store::identifier_of(row));
        self.put_octet(BLANK);
        self.put_number(store::number_of(row));
    }

    // The line of the record with a position.
    fn put_record(&mut self, position: usize, row: &[u8])
        requires { HasRoom self.old (record_line position row.now) }
        ensures same_reference { self.new.buf.ghost_name ≡ self.old.buf.ghost_name }
        ensures written { Writes self.old (record_line position row.now) self.new }
    {
        self.put_decimal(position as u64);
        self.put_octet(BLANK);
        self.put_role(anchor::role(position, store::info_of(row)));
        self.put_key(row);
    }

    // The lines of the n records from place p on.
    fn put_records(&mut self, image: &[u8], p: usize, n: usize)
        requires { HasRoom self.old (record_lines 0 n (drop p image.now)) }
        ensures same_reference { self.new.buf.ghost_name ≡ self.old.buf.ghost_name }
        ensures written { Writes self.old (record_lines 0 n (drop p image.now)) self.new }
    {
        for (i, record) in Records::new(image, p, n).enumerate() {
            self.put_record(i, record);
        }
    }

    // A line for each of the n names.
    fn put_names(&mut self, names: &[u8], n: usize)
        requires { HasRoom self.old (name_lines n names.now) }
        ensures same_reference { self.new.buf.ghost_name ≡ self.old.buf.ghost_name }
        ensures written { Writes self.old (name_lines n names.now) self.new }
    {
        for name in Names::new(names, 0, n) {
            self.put_hex_line(name);
        }
    }

    // hwType and serial.
    fn put_device(&mut self, image: &[u8])
        requires { HasRoom self.old (device_line image.now) }
        ensures same_reference { self.new.buf.ghost_name ≡ self.old.buf.ghost_name }
        ensures written { Writes self.old (device_line image.now) self.new }
    {
        self.put_word(b"device ");
        self.put_hex(store::hw_type(image));
        self.put_octet(BLANK);
        self.put_hex_line(store::serial(image));
    }

    // Count, and a line for each anchor.
    fn put_anchors(&mut self, image: &[u8])
        requires { HasRoom self.old (anchors_text image.now) }
        ensures same_reference { self.new.buf.ghost_name ≡ self.old.buf.ghost_name }
        ensures written { Writes self.old (anchors_text image.now) self.new }
    {
        let n = store::anchor_count(image);
        self.put_count(b"anchors ", n);
        self.put_records(image, store::first_record(image), n);
    }

    // Count, and a line for each community.
    fn put_communities(&mut self, image: &[u8])
        requires { HasRoom self.old (communities_text image.now) }
        ensures same_reference { self.new.buf.ghost_name ≡ self.old.buf.ghost_name }
        ensures written { Writes self.old (communities_text image.now) self.new }
    {
        let n = store::community_count(image);
        self.put_count(b"communities ", n);
        self.put_names(store::community_octets(image), n);
    }

    // The text of an image.
    fn put_image(&mut self, image: &[u8])
        requires { HasRoom self.old (image_text image.now) }
        ensures same_reference { self.new.buf.ghost_name ≡ self.old.buf.ghost_name }
        ensures written { Writes self.old (image_text image.now) self.new }
    {
        self.put_device(image);
        self.put_anchors(image);
        self.put_communities(image);
    }
}

// Octets in hex, as many of them as there is room for: how long the text is, and the text in the lent buffer, of which nothing else changes.
pub fn hex_text(out: &mut [u8], s: &[u8]) -> usize
    ensures { (result ≡ length (hex_within (length out.old) s.now))
        × (out.new ≡ written out.old (hex_within (length out.old) s.now)) }
{
    let n = out.len() / 2;
    let mut text = Text { buf: out, at: 0 };
    text.put_hex(octets::slice(s, 0, n));
    text.at
}

// The listing of any octets: how long the text is, and the text in the lent buffer, of which nothing else changes.
pub fn list(image: &[u8], out: &mut [u8; 8192]) -> usize
    ensures { (result ≡ length (listing image.now)) × (out.new ≡ written out.old (listing image.now)) }
{
    let mut text = Text { buf: out, at: 0 };
    if image::is_image(image) {
        text.put_image(image);
    } else {
        text.put_word(b"refused 201\n");
    }
    text.at
}
