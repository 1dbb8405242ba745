// Whether an anchor authorises a content (01, Rights): the type of a message with its signed attributes.
ghost use Rattle.std.specs.Prelude.{◌≡◌};
ghost use Rattle.octets.specs.Lists.{all_of};
ghost use Rattle.der.specs.Element.{encoding as encodingOf, inside};
ghost use Rattle.rights.specs.Rights.{source, carrier, authorises as authorisesOf};
ghost use Rattle.rights.specs.Constraints.{constraints_rights};
ghost use Rattle.rights.specs.Attributes.{attr_value, is_other_attribute, pairs};
ghost use Rattle.rights.specs.Contract.Places.{rights_entry, attribute_meets};

use crate::{constraint_for, governing, is_source, lists};
use der::{Element, Run};

// A signed attribute is weighed unless it is content-type or message-digest.
fn is_other_attribute(s: &[u8], e: Element) -> bool
    ensures { result ≡ is_other_attribute s.now e }
{
    let key = der::type_of(s, e);
    !octets::equal(key, &syntax::ID_CONTENT_TYPE) && !octets::equal(key, &syntax::ID_MESSAGE_DIGEST)
}

// The first value of a signed attribute.
fn value_in(s: &[u8], e: Element) -> &[u8]
    ensures { result.now ≡ encodingOf s.now (attr_value s.now e) }
{
    let values = der::field(s, e, der::SET);
    der::encoding(s, der::element_at(s, values.start, values.stop))
}

// A signed attribute of s has a listed value, where the entry of v constrains its type.
fn attribute_meets(v: &[u8], entry: Element, s: &[u8], e: Element) -> bool
    ensures { result ≡ attribute_meets (rights_entry v.now entry) s.now e }
{
    if !is_other_attribute(s, e) {
        return true;
    }
    let Some(a) = constraint_for(v, entry, der::type_of(s, e)) else {
        return true; // any value, where the type is not constrained
    };
    lists(v, a, value_in(s, e))
}

// Each of the signed attributes of s has.
fn attributes_meet(v: &[u8], entry: Element, s: &[u8], attributes: Element) -> bool
    ensures { result ≡ all_of (attribute_meets (rights_entry v.now entry) s.now) (inside s.now attributes) }
{
    Run::inside(s, attributes).all(|e| attribute_meets(v, entry, s, e))
}

// 01, status 11: the anchor authorises the message's type as source with the signed attributes of s.
pub fn authorises(v: &[u8], key: &[u8], s: &[u8], attributes: Element) -> bool
    ensures { result ≡ authorisesOf
        (constraints_rights v.now)
        (record { type = key.now; role = source; attributes = pairs s.now attributes }) }
{
    governing(v, key).is_some_and(|e| is_source(v, e) && attributes_meet(v, e, s, attributes))
}

// The same content in the role of a carrier. (One function of the role would be no plainer: all that the two share is one line.)
pub fn carries(v: &[u8], key: &[u8], s: &[u8], attributes: Element) -> bool
    ensures { result ≡ authorisesOf
        (constraints_rights v.now)
        (record { type = key.now; role = carrier; attributes = pairs s.now attributes }) }
{
    governing(v, key).is_some_and(|e| attributes_meet(v, e, s, attributes))
}
