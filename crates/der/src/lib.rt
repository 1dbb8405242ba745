// DER as 01 profiles it (X.690): the types of all that reads it, and the identifier octets.
#![tactic(auto)]

mod check;
mod read;
mod search;
mod write;

pub use check::{check_element, check_run, is_integer, is_oid, spans};
pub use read::{Run, contents, element_at, encoding, is_constructed, no_element, root};
pub use search::{field, field_after, first_with, key, occurs, type_of};
pub use write::{header_size, integer_size, put_header, put_integer};

// An element: its identifier octet, where it begins, and its contents, from start up to stop.
// Where no element stands at a place, valid is false, the tag is 0 and nothing is inside. (A flag, no Option, which is no plainer: `field(s, field(s, e, t), u)` reads
// on through what is absent, and a break is charged to the place of an element that is not there.)
#[derive(Clone, Copy)]
pub struct Element {
    pub valid: bool,
    pub tag: u8,
    pub at: usize,
    pub start: usize,
    pub stop: usize,
}

// Whether octets keep a rule; if not, the offset of the element that breaks it.
pub type Fit = Result<(), usize>;

// What the members of a run are compared by: the type that stands in them, their contents, or all their octets. (An enum and no closure, which is no plainer: the
// rule book's `key_of` names the three.)
#[derive(Clone, Copy)]
pub enum Compared {
    Types,
    Contents,
    Encodings,
}

// Identifier octets (X.690, 8.1.2): the universal types, and context-specific tags, [n] primitive and [n] constructed. (Octets, no enum, which is no plainer: they are
// compared with octets of a message, which may be any, and written as they are.)
pub const BOOLEAN: u8 = 0x01;

pub const INTEGER: u8 = 0x02;

pub const OCTET_STRING: u8 = 0x04;

pub const NULL: u8 = 0x05;

pub const OBJECT_IDENTIFIER: u8 = 0x06;

pub const ENUMERATED: u8 = 0x0A;

pub const SEQUENCE: u8 = 0x30;

pub const SET: u8 = 0x31;

pub const CONTEXT_0: u8 = 0x80;

pub const CONTEXT_1: u8 = 0x81;

pub const CONTEXT_3: u8 = 0x83;

pub const CONTEXT_4: u8 = 0x84;

pub const CONSTRUCTED_0: u8 = 0xA0;

pub const CONSTRUCTED_1: u8 = 0xA1;

pub const CONSTRUCTED_2: u8 = 0xA2;

pub const CONSTRUCTED_5: u8 = 0xA5;
