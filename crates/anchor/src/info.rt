// The parts of a TrustAnchorInfo (RFC 5914), and its role. It is passed as its octets: six crates lend these, and a struct around the one slice, made at each
// call to read one part, says no more than the clauses, which hold of any octets.
ghost use Rattle.std.specs.Prelude.{◌≡◌};
ghost use Rattle.der.specs.Element.{inside};
ghost use Rattle.anchor.specs.Info.{public_key, key_id_field, key_identifier, extn_value, is_constraints, constraints_in, constraints_extension};
ghost use Rattle.anchor.specs.Info.{has_constraints, constraints_value};
ghost use Rattle.anchor.specs.Role.{extension_list, role_of};

use crate::AnchorRole;
use der::{Compared, Element};

// RFC 6010: id-pe-cmsContentConstraints, 1.3.6.1.5.5.7.1.18.
const ID_PE_CMS_CONTENT_CONSTRAINTS: [u8; 8] = [0x2B, 0x06, 0x01, 0x05, 0x05, 0x07, 0x01, 0x12];

// The SubjectPublicKeyInfo's octets.
#[tactic(auto, unfolding(crate::specs::Info::public_key))]
pub fn public_key(t: &[u8]) -> &[u8]
    ensures { result.now ≡ public_key t.now }
{
    der::encoding(t, der::field(t, der::root(t), der::SEQUENCE))
}

#[tactic(auto, unfolding(crate::specs::Info::key_id_field))]
fn key_id_field(t: &[u8]) -> Element
    ensures { result ≡ key_id_field t.now }
{
    der::field(t, der::root(t), der::OCTET_STRING)
}

pub fn key_identifier(t: &[u8]) -> &[u8]
    ensures { result.now ≡ key_identifier t.now }
{
    der::contents(t, key_id_field(t))
}

// Extensions, in its explicit tag.
fn extension_list(t: &[u8]) -> Element
    ensures { result ≡ extension_list t.now }
{
    der::field(
        t,
        der::field(t, der::root(t), der::CONSTRUCTED_1),
        der::SEQUENCE,
    )
}

#[tactic(auto, unfolding(der::specs::Oid::oid, der::specs::Oid::arc, der::specs::Oid::arcs, octets::specs::Number::digits))]
pub fn is_constraints(t: &[u8], e: Element) -> bool
    ensures { result ≡ is_constraints t.now e }
{
    octets::equal(der::type_of(t, e), &ID_PE_CMS_CONTENT_CONSTRAINTS)
}

// The first content constraints extension in a list.
#[tactic(auto, using(crate::proofs::Rights::constraints_found))]
pub fn constraints_in(t: &[u8], list: Element) -> Element
    ensures { result ≡ constraints_in t.now (inside t.now list) }
{
    der::first_with(
        t,
        list.start,
        list.stop,
        Compared::Types,
        &ID_PE_CMS_CONTENT_CONSTRAINTS,
    )
    .unwrap_or(der::no_element(0))
}

// The content constraints extension.
#[tactic(auto, unfolding(crate::specs::Info::constraints_extension, crate::specs::Info::extensions))]
pub fn constraints_extension(t: &[u8]) -> Element
    ensures { result ≡ constraints_extension t.now }
{
    constraints_in(t, extension_list(t))
}

fn has_constraints(t: &[u8]) -> bool
    ensures { result ≡ has_constraints t.now }
{
    constraints_extension(t).valid
}

// The role of the anchor at a position of the store.
#[tactic(auto, unfolding(crate::specs::Role::role_of))]
pub fn role(position: usize, t: &[u8]) -> AnchorRole
    ensures { result ≡ role_of position t.now }
{
    if position == 0 {
        return AnchorRole::Apex;
    }
    if has_constraints(t) {
        return AnchorRole::Management;
    }
    AnchorRole::Identity
}

pub fn extn_value(t: &[u8], e: Element) -> &[u8]
    ensures { result.now ≡ extn_value t.now e }
{
    der::contents(t, der::field(t, e, der::OCTET_STRING))
}

// CMSContentConstraints as octets by itself, none where there is no extension. It stands for the anchor's rights (proofs/Rights, value_rights).
pub fn constraints_value(t: &[u8]) -> &[u8]
    ensures { result.now ≡ constraints_value t.now }
{
    extn_value(t, constraints_extension(t))
}
