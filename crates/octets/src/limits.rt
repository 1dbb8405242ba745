// The limits of 01 (specs/Limits), each under one name.

// The store image: anchors, communities, octets of a name (hwType, serial, a community) and of a TrustAnchorInfo, a sequence number.
pub const MAX_ANCHORS: usize = 32;

pub const MAX_COMMUNITIES: usize = 16;

pub const MAX_NAME_OCTETS: usize = 32;

pub const MAX_ANCHOR_OCTETS: usize = 1024;

pub const MAX_NUMBER: u64 = 9223372036854775807;

// Octets of a key identifier.
pub const MAX_KEY_IDENTIFIER: usize = 32;

// DER.
pub const MAX_DEPTH: usize = 16;

// Rights: entries, attribute constraints of an entry, values of an attribute constraint, octets of a value.
pub const MAX_ENTRIES: usize = 16;

pub const MAX_ATTRIBUTES: usize = 4;

pub const MAX_VALUES: usize = 4;

pub const MAX_VALUE_OCTETS: usize = 64;

// Entries of an Update.
pub const MAX_UPDATES: usize = 16;

// Answers: the rooms of 203, the reply of 205, the message of 204.
pub const REPLY_ROOM: usize = 10240;

pub const IMAGE_ROOM: usize = 33717;

pub const MAX_MESSAGE: usize = 8192;
