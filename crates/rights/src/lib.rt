// Rights: what an anchor's content constraints authorise (RFC 6010, 01 "Rights"). They are read in place and never copied: the octets of a
// CMSContentConstraints value stand for the rights that they give. An identity anchor has no octets.
// Here the entries and constraints are found, for both questions: whether a content is authorised, and whether an anchor is within a signer.
#![tactic(auto)]

ghost use Rattle.std.specs.Prelude.{◌≡◌};
ghost use Rattle.octets.specs.Octets.{member};
ghost use Rattle.rights.specs.Contract.Places.{constraint_for, values_under, entry_for, any_entry, governing_entry, rights_entry};

use der::{Compared, Element};

mod content;
mod decision;

pub use content::{authorises, carries};
pub use decision::is_within;

// RFC 6010: id-ct-anyContentType, 1.2.840.113549.1.9.16.1.0.
pub const ANY_CONTENT_TYPE: [u8; 11] = [
    0x2A, 0x86, 0x48, 0x86, 0xF7, 0x0D, 0x01, 0x09, 0x10, 0x01, 0x00,
];

// The entry of a type.
fn entry_for(v: &[u8], key: &[u8]) -> Option<Element>
    ensures { result ≡ entry_for v.now key.now }
{
    let list = der::root(v);
    der::first_with(v, list.start, list.stop, Compared::Types, key)
}

// The anyContentType entry.
fn any_entry(v: &[u8]) -> Option<Element>
    ensures { result ≡ any_entry v.now }
{
    entry_for(v, &ANY_CONTENT_TYPE)
}

// 01: the entry that governs a type is the one for it, else the anyContentType entry.
fn governing(v: &[u8], key: &[u8]) -> Option<Element>
    ensures { result ≡ governing_entry v.now key.now }
{
    entry_for(v, key).or_else(|| any_entry(v))
}

// Whether an entry is canSource. (An entry is passed as the octets and its element, as der passes an element: a struct of the two would be taken apart at each
// call of der.)
fn is_source(v: &[u8], e: Element) -> bool
    ensures { result ≡ (rights_entry v.now e).can_source }
{
    let f = der::field(v, e, der::ENUMERATED);
    !f.valid
}

// The constraint of an attribute type in an entry.
fn constraint_for(v: &[u8], entry: Element, key: &[u8]) -> Option<Element>
    ensures { result ≡ constraint_for v.now entry key.now }
{
    let list = der::field(v, entry, der::SEQUENCE);
    der::first_with(v, list.start, list.stop, Compared::Types, key)
}

// Whether an attribute constraint lists the value: one that is equal in all its octets.
fn lists(v: &[u8], constraint: Element, value: &[u8]) -> bool
    ensures { result ≡ member value.now (values_under v.now constraint) }
{
    let values = der::field(v, constraint, der::SET);
    der::occurs(v, values.start, values.stop, Compared::Encodings, value)
}
