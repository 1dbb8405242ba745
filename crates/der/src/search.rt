// Search in a run: the first element with a tag, and the first with a key.
ghost use Rattle.std.specs.Prelude.{◌≡◌};
ghost use Rattle.octets.specs.Octets.{member};
ghost use Rattle.der.specs.Element.{elements, with_tag, field as field_of, field_after};
ghost use Rattle.der.specs.Keys.{type_of, key_of, keys_from, first_with};

use crate::read::{Run, contents, encoding, no_element};
use crate::{Compared, Element, OBJECT_IDENTIFIER};

// The first element with the tag in the run from at up to stop. One whose header breaks a rule is the last, and has the tag 0.
fn with_tag(s: &[u8], at: usize, stop: usize, tag: u8) -> Element
    ensures { result ≡ with_tag tag (elements s.now at stop) }
{
    Run::new(s, at, stop)
        .find(|e| e.tag == tag)
        .unwrap_or(no_element(0))
}

// The first field with the tag in the element e, and the first after its field f.
pub fn field(s: &[u8], e: Element, tag: u8) -> Element
    ensures { result ≡ field_of tag s.now e }
{
    with_tag(s, e.start, e.stop, tag)
}

pub fn field_after(s: &[u8], e: Element, f: Element, tag: u8) -> Element
    ensures { result ≡ field_after tag s.now e f }
{
    with_tag(s, f.stop, e.stop, tag)
}

// The type that stands in an element: the contents of its OID.
pub fn type_of(s: &[u8], e: Element) -> &[u8]
    ensures { result.now ≡ type_of s.now e }
{
    contents(s, field(s, e, OBJECT_IDENTIFIER))
}

// What a member of a run is compared by.
pub fn key(s: &[u8], e: Element, by: Compared) -> &[u8]
    ensures { result.now ≡ key_of by s.now e }
{
    match by {
        Compared::Types => type_of(s, e),
        Compared::Contents => contents(s, e),
        Compared::Encodings => encoding(s, e),
    }
}

// The first member of the run from at up to stop that has the key k. (Octets and two places, here and in check and read, and no `Run`, which is
// no plainer: keys and windows are read from the octets too.)
pub fn first_with(s: &[u8], at: usize, stop: usize, by: Compared, k: &[u8]) -> Option<Element>
    ensures { result ≡ first_with by s.now k.now (elements s.now at stop) }
{
    Run::new(s, at, stop).find(|e| octets::equal(k, key(s, *e, by)))
}

// Whether one has it.
pub fn occurs(s: &[u8], at: usize, stop: usize, by: Compared, k: &[u8]) -> bool
    ensures { result ≡ member k.now (keys_from by s.now at stop) }
{
    first_with(s, at, stop, by, k).is_some()
}
