// What content constraints break, of the rules that are not syntax (34, 17).
ghost use Rattle.std.specs.Prelude.{◌≡◌, map, length, ltb};
ghost use Rattle.octets.specs.Lists.{any_of};
ghost use Rattle.octets.specs.Octets.{distinct};
ghost use Rattle.der.specs.declared.Compared.TheVariants.{Encodings};
ghost use Rattle.der.specs.Element.{inside};
ghost use Rattle.der.specs.Keys.{keys_in};
ghost use Rattle.rights.specs.Constraints.{attr_constraint, content_type_constraint, constraints_rights};
ghost use Rattle.anchor.specs.Contract.Faults.{is_long, together, attribute_faults, is_unlike, entry_faults, rights_faults};

use der::{Compared, Element, Run};
use std::ops::BitOr;

// What content constraints break: a repeated type or value, an anyContentType entry unlike Rights, and the limits of Rights.
#[derive(Clone, Copy, Default)]
pub struct Faults {
    pub repeated: bool,
    pub unlike: bool,
    pub entries: bool,
    pub attributes: bool,
    pub values: bool,
    pub octets: bool,
}

// More than n members stand in the element `outer`.
fn more_than(s: &[u8], outer: Element, n: usize) -> bool
    ensures { result ≡ ltb n (length (inside s.now outer)) }
{
    Run::inside(s, outer).nth(n).is_some()
}

fn is_long(s: &[u8], e: Element) -> bool
    ensures { result ≡ is_long s.now e }
{
    octets::MAX_VALUE_OCTETS < der::encoding(s, e).len()
}

// Some member of the element `outer` is over 01's limit for a value.
fn has_long(s: &[u8], outer: Element) -> bool
    ensures { result ≡ any_of (is_long s.now) (inside s.now outer) }
{
    Run::inside(s, outer).any(|e| is_long(s, e))
}

// The faults of two parts together.
impl BitOr for Faults {
    type Output = Faults;

    ghost bitor_gives = { λ a b r. r ≡ together a b };

    #[tactic(auto, unfolding(crate::specs::Contract::Faults::together))]
    fn bitor(self, b: Faults) -> Faults {
        Faults {
            repeated: self.repeated | b.repeated,
            unlike: self.unlike | b.unlike,
            entries: self.entries | b.entries,
            attributes: self.attributes | b.attributes,
            values: self.values | b.values,
            octets: self.octets | b.octets,
        }
    }
}

// No two values of a set are equal: where each stands after the one before it, as DER has them, its neighbour tells; else all are compared.
fn are_distinct(v: &[u8], set: Element) -> bool
    ensures { result ≡ distinct (keys_in Encodings v.now set) }
{
    let mut former = der::no_element(set.start);
    for e in Run::inside(v, set) {
        if octets::in_order(der::encoding(v, e), der::encoding(v, former)) {
            return repeats::is_distinct(v, set, Compared::Encodings);
        }
        former = e;
    }
    true
}

// The faults of an AttrConstraint.
fn attribute_faults(v: &[u8], a: Element) -> Faults
    ensures { result ≡ attribute_faults (attr_constraint v.now a) }
{
    let values = der::field(v, a, der::SET);
    Faults {
        repeated: !are_distinct(v, values),
        values: more_than(v, values, octets::MAX_VALUES),
        octets: has_long(v, values),
        ..Faults::default()
    }
}

// An anyContentType entry that is not canSource or has constraints.
fn is_unlike(v: &[u8], e: Element) -> bool
    ensures { result ≡ is_unlike (content_type_constraint v.now e) }
{
    octets::equal(der::type_of(v, e), &rights::ANY_CONTENT_TYPE)
        && (der::field(v, e, der::ENUMERATED).valid
            || more_than(v, der::field(v, e, der::SEQUENCE), 0))
}

// The faults of a ContentTypeConstraint.
fn entry_faults(v: &[u8], e: Element) -> Faults
    ensures { result ≡ entry_faults (content_type_constraint v.now e) }
{
    let list = der::field(v, e, der::SEQUENCE);
    let own = Faults {
        repeated: !repeats::is_distinct(v, list, Compared::Types),
        unlike: is_unlike(v, e),
        attributes: more_than(v, list, octets::MAX_ATTRIBUTES),
        ..Faults::default()
    };
    Run::inside(v, list).fold(own, |found, a| found | attribute_faults(v, a))
}

// The faults of a CMSContentConstraints value.
pub fn rights_faults(v: &[u8]) -> Faults
    ensures { result ≡ rights_faults (constraints_rights v.now) }
{
    let list = der::root(v);
    let own = Faults {
        repeated: !repeats::is_distinct(v, list, Compared::Types),
        entries: more_than(v, list, octets::MAX_ENTRIES),
        ..Faults::default()
    };
    Run::inside(v, list).fold(own, |found, e| found | entry_faults(v, e))
}
