// Whether an anchor is within a signer (01, Rights); if not, a content that it authorises and the signer does not.
ghost use Rattle.std.specs.Prelude.{◌≡◌, ◌<◌, ◌≤◌, ℕ, true, false, not, ◌&&◌, option_map};
ghost use Rattle.octets.specs.Octets.{member};
ghost use Rattle.der.specs.Element.{encoding as encodingOf};
ghost use Rattle.rights.specs.Rights.{Key};
ghost use Rattle.rights.specs.Decision.{oid, integer, fresh, keys, find_some, unlisted, attribute_outside, pair_outside, one_pair, entry_outside};
ghost use Rattle.rights.specs.Decision.{type_outside, listed_types, outside as outsideOf, within as withinOf};
ghost use Rattle.rights.specs.Constraints.{constraints_rights};
ghost use Rattle.rights.specs.Contract.Places.{values_under, rights_entry};
ghost use Rattle.rights.specs.Contract.RightsAnswer.{judged_content, picked_content, content_of};

use crate::{any_entry, constraint_for, governing, is_source, lists};
use der::{Compared, Element, Run};

// How a content of one type lies outside the signer's rights.
#[derive(Clone, Copy)]
enum Excess {
    // as a carrier's: no entry of the signer governs the type
    Carried,
    // as a source's: the signer's entry is not canSource
    Sourced,
    // by a value that the new anchor lists: the signer's attribute constraint, and the value
    Listed(Element, Element),
    // by a value that the signer does not list: its attribute constraint, and n of INTEGER n
    Unlisted(Element, usize),
}

// Who lists a type: the new anchor or the signer, in this entry, or neither, and then it is 1.2.n.
#[derive(Clone, Copy)]
enum Lister {
    New(Element),
    Signer(Element),
    Nobody(usize),
}

// The smallest n that is not taken. It is at most 256: n is written in one octet.
fn smallest<F: Fn(u8) -> bool>(is_taken: F) -> usize
    requires { F.IsAlwaysCallable is_taken }
    ensures bounded { result ≤ 256 }
    ensures least { (i : ℕ) → i < result → F.post is_taken i true }
    ensures free { result < 256 → F.post is_taken result false }
{
    for n in 0..256 {
        if !is_taken(n as u8) {
            return n;
        }
    }
    256
}

// The smallest n such that an attribute constraint does not list INTEGER n.
fn fresh_value(v: &[u8], constraint: Element) -> usize
    ensures { result ≡ fresh integer (values_under v.now constraint) }
{
    smallest(|n| lists(v, constraint, &[2, 1, n]))
}

// Whether an entry has the type.
fn lists_type(v: &[u8], key: &[u8]) -> bool
    ensures { result ≡ member key.now (keys (constraints_rights v.now)) }
{
    let list = der::root(v);
    der::occurs(v, list.start, list.stop, Compared::Types, key)
}

// The smallest n such that neither the signer nor the new anchor lists 1.2.n. (Of slices, and no method of Anchors: of the
// fields of a struct the goal stayed open that each member is below 256.)
fn fresh_type(signer: &[u8], new: &[u8]) -> usize
    ensures { result ≡ fresh oid (listed_types (constraints_rights signer.now) (constraints_rights new.now)) }
{
    smallest(|n| lists_type(new, &[0x2A, n]) || lists_type(signer, &[0x2A, n]))
}

// The constraints of the signer and of the new anchor.
#[derive(Clone, Copy)]
struct Anchors<'a> {
    signer: &'a [u8],
    new: &'a [u8],
}

impl<'a> Anchors<'a> {
    // The first value that the new anchor's attribute constraint b lists and the signer's a does not.
    fn unlisted_value(&self, a: Element, b: Element) -> Option<Element>
        ensures { option_map (encodingOf self.now.new.now) result ≡ find_some
            (unlisted (values_under self.now.signer.now a))
            (values_under self.now.new.now b) }
    {
        let values = der::field(self.new, b, der::SET);
        Run::inside(self.new, values).find(|e| !lists(self.signer, a, der::encoding(self.new, *e)))
    }

    // A value of one attribute type that the new anchor's entry n allows and the signer's entry s does not.
    fn attribute_outside(&self, s: Element, n: Element, key: &[u8]) -> Option<Excess>
        ensures { (type : Key)
            → judged_content self.now.signer.now self.now.new.now type result
            ≡ option_map
            (one_pair type)
            (attribute_outside
            (rights_entry self.now.signer.now s).constraints
            (rights_entry self.now.new.now n).constraints
            key.now) }
    {
        let a = constraint_for(self.signer, s, key)?;
        let Some(b) = constraint_for(self.new, n, key) else {
            return Some(Excess::Unlisted(a, fresh_value(self.signer, a)));
        };
        let w = self.unlisted_value(a, b)?;
        Some(Excess::Listed(a, w))
    }

    // Such a value of any attribute type that the signer's entry constrains.
    fn pair_outside(&self, s: Element, n: Element) -> Option<Excess>
        ensures { (type : Key)
            → judged_content self.now.signer.now self.now.new.now type result
            ≡ option_map
            (one_pair type)
            (pair_outside
            (rights_entry self.now.signer.now s).constraints
            (rights_entry self.now.new.now n).constraints) }
    {
        let list = der::field(self.signer, s, der::SEQUENCE);
        Run::inside(self.signer, list).find_map(|e| {
            let key = der::type_of(self.signer, e);
            self.attribute_outside(s, n, key)
        })
    }

    // The new anchor's entry n may source and the signer's entry s may not.
    fn only_new_sources(&self, s: Element, n: Element) -> bool
        ensures { result
            ≡ (rights_entry self.now.new.now n).can_source
            && not (rights_entry self.now.signer.now s).can_source }
    {
        is_source(self.new, n) && !is_source(self.signer, s)
    }

    // A content of one type that lies outside, by the entries that govern it.
    fn entry_outside(&self, a: Option<Element>, b: Option<Element>) -> Option<Excess>
        ensures { (type : Key)
            → judged_content self.now.signer.now self.now.new.now type result
            ≡ entry_outside
            type
            (option_map (rights_entry self.now.signer.now) a)
            (option_map (rights_entry self.now.new.now) b) }
    {
        let n = b?;
        let Some(s) = a else {
            return Some(Excess::Carried);
        };
        if self.only_new_sources(s, n) {
            return Some(Excess::Sourced);
        }
        self.pair_outside(s, n)
    }

    // The same by the type.
    fn type_outside(&self, key: &[u8]) -> Option<Excess>
        ensures { judged_content self.now.signer.now self.now.new.now key.now result ≡ type_outside
            (constraints_rights self.now.signer.now)
            (constraints_rights self.now.new.now)
            key.now }
    {
        self.entry_outside(governing(self.signer, key), governing(self.new, key))
    }

    // The first entry of v whose type has a content outside.
    fn among(&self, v: &[u8]) -> Option<(Element, Excess)>
        ensures { picked_content self.now.signer.now self.now.new.now v.now result ≡ find_some
            (type_outside (constraints_rights self.now.signer.now) (constraints_rights self.now.new.now))
            (keys (constraints_rights v.now)) }
    {
        Run::inside(v, der::root(v)).find_map(|e| {
            let x = self.type_outside(der::type_of(v, e))?;
            Some((e, x))
        })
    }

    // 01: the new anchor is within the signer; if not, a content that it authorises and the signer does not. A type that neither lists comes first, then
    // those that the new anchor lists, then the signer's.
    fn content_outside(&self) -> Option<(Lister, Excess)>
        ensures { content_of self.now.signer.now self.now.new.now result ≡ outsideOf
            (constraints_rights self.now.signer.now)
            (constraints_rights self.now.new.now) }
    {
        if let Some(x) = self.entry_outside(any_entry(self.signer), any_entry(self.new)) {
            return Some((Lister::Nobody(fresh_type(self.signer, self.new)), x));
        }
        if let Some((e, x)) = self.among(self.new) {
            return Some((Lister::New(e), x));
        }
        if let Some((e, x)) = self.among(self.signer) {
            return Some((Lister::Signer(e), x));
        }
        None
    }
}

// 01: the new anchor is within the signer.
pub fn is_within(signer: &[u8], new: &[u8]) -> bool
    ensures { result ≡ withinOf (constraints_rights signer.now) (constraints_rights new.now) }
{
    let anchors = Anchors {
        signer: signer,
        new: new,
    };
    anchors.content_outside().is_none()
}
