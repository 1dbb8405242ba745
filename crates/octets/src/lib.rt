// Octets: strings of them, numbers in them, the limits of 01 on them; and the one status type of the project.
#![tactic(auto)]

ghost use Rattle.std.specs.Prelude.{◌≡◌};
ghost use Rattle.octets.specs.First.{given_if};

mod limits;
mod numbers;
mod strings;

pub use limits::{
    IMAGE_ROOM, MAX_ANCHOR_OCTETS, MAX_ANCHORS, MAX_ATTRIBUTES, MAX_COMMUNITIES, MAX_DEPTH,
    MAX_ENTRIES, MAX_KEY_IDENTIFIER, MAX_MESSAGE, MAX_NAME_OCTETS, MAX_NUMBER, MAX_UPDATES,
    MAX_VALUE_OCTETS, MAX_VALUES, REPLY_ROOM,
};
pub use numbers::{digit_count, get_be, put_be};
pub use strings::{copy_to, equal, in_order, shift, slice};

// A number of 01, "Answers": a TAMP status (RFC 5934, section 5) or a house refusal.
// Its numbers are associated constants and not variants: 01 asks for that form (docs/DECISIONS.md).
#[derive(Clone, Copy, Debug, PartialEq, Eq)]
pub struct Status {
    pub number: u8,
}

impl Status {
    // RFC 5934, StatusCode: those that 01 gives.
    pub const SUCCESS: Status = Status { number: 0 };

    pub const DECODE_FAILURE: Status = Status { number: 1 };

    pub const BAD_CONTENT_INFO: Status = Status { number: 2 };

    pub const BAD_SIGNED_DATA: Status = Status { number: 3 };

    pub const BAD_ENCAP_CONTENT: Status = Status { number: 4 };

    pub const BAD_CERTIFICATE: Status = Status { number: 5 };

    pub const BAD_SIGNER_INFO: Status = Status { number: 6 };

    pub const BAD_SIGNED_ATTRS: Status = Status { number: 7 };

    pub const BAD_UNSIGNED_ATTRS: Status = Status { number: 8 };

    pub const MISSING_CONTENT: Status = Status { number: 9 };

    pub const NO_TRUST_ANCHOR: Status = Status { number: 10 };

    pub const NOT_AUTHORIZED: Status = Status { number: 11 };

    pub const SIGNATURE_FAILURE: Status = Status { number: 16 };

    pub const INSUFFICIENT_MEMORY: Status = Status { number: 17 };

    pub const UNSUPPORTED_TAMP_MSG_TYPE: Status = Status { number: 18 };

    pub const APEX_TAMP_ANCHOR: Status = Status { number: 19 };

    pub const IMPROPER_TA_ADDITION: Status = Status { number: 20 };

    pub const SEQ_NUM_FAILURE: Status = Status { number: 21 };

    pub const INCORRECT_TARGET: Status = Status { number: 23 };

    pub const COMMUNITY_UPDATE_FAILED: Status = Status { number: 24 };

    pub const TRUST_ANCHOR_NOT_FOUND: Status = Status { number: 25 };

    pub const MISSING_SIGNATURE: Status = Status { number: 29 };

    pub const VERSION_NUMBER_MISMATCH: Status = Status { number: 31 };

    pub const UNSUPPORTED_TRUST_ANCHOR_FORMAT: Status = Status { number: 34 };

    pub const IMPROPER_TA_CHANGE: Status = Status { number: 35 };

    pub const MALFORMED: Status = Status { number: 36 };

    pub const UNSUPPORTED_TARGET_IDENTIFIER: Status = Status { number: 38 };

    pub const OTHER: Status = Status { number: 127 };

    // 01, Answers: the house refusals.
    pub const BAD_IMAGE: Status = Status { number: 201 };

    pub const BAD_VERDICT: Status = Status { number: 202 };

    pub const SMALL_BUFFER: Status = Status { number: 203 };

    pub const LONG_MESSAGE: Status = Status { number: 204 };

    pub const LONG_REPLY: Status = Status { number: 205 };

    // "The first that applies is given", with `?` at each row: this one, where its row applies.
    #[tactic(auto, unfolding(crate::specs::First::given_if))]
    pub fn given_if(self, applies: bool) -> Result<(), Status>
        ensures { result ≡ given_if applies (Err self) (Ok tt) }
    {
        if applies { Err(self) } else { Ok(()) }
    }
}
