// The ASN.1 of RFC 5652, 5934, 5914, 5280 and 6010 as data, and matching against it: the types that readers ask with, and the four TAMP types.
#![tactic(auto)]

ghost use Rattle.std.specs.Prelude.{◌≡◌};
ghost use Rattle.std.specs.List.{find};
ghost use Rattle.std.specs.Option.{option_map};
ghost use Rattle.octets.specs.Octets.{same};
ghost use Rattle.syntax.specs.Types.{recognised};

mod matcher;
mod row;
mod table;
mod walk;

pub use matcher::{attribute_fits, fits};
pub use walk::conforms;

// The four messages of 01.
#[derive(Clone, Copy)]
pub enum TampType {
    StatusQuery,
    Update,
    CommunityUpdate,
    SeqNumAdjust,
}

// What a reader asks the matcher for.
#[derive(Clone, Copy)]
pub enum Form {
    ContentInfo,
    ContentInfoSignedData,
    SignedData,
    EncapsulatedContentInfo,
    OneSignerInfo,
    StoredTrustAnchorInfo,
    CMSContentConstraints,
    Message(TampType),
}

// An Attribute, by its type.
#[derive(Clone, Copy)]
pub enum AttributeForm {
    ContentType,
    MessageDigest,
    Other,
}

// RFC 5652: the attribute types id-contentType and id-messageDigest, 1.2.840.113549.1.9.3 and .4; id-signedData, 1.2.840.113549.1.7.2.
pub const ID_CONTENT_TYPE: [u8; 9] = [0x2A, 0x86, 0x48, 0x86, 0xF7, 0x0D, 0x01, 0x09, 0x03];

pub const ID_MESSAGE_DIGEST: [u8; 9] = [0x2A, 0x86, 0x48, 0x86, 0xF7, 0x0D, 0x01, 0x09, 0x04];

const ID_SIGNED_DATA: [u8; 9] = [0x2A, 0x86, 0x48, 0x86, 0xF7, 0x0D, 0x01, 0x07, 0x02];

// RFC 5934: the four TAMP types, each with the contents of its OID.
const TYPES: [([u8; 10], TampType); 4] = [
    // id-ct-TAMP-statusQuery
    (
        [0x60, 0x86, 0x48, 0x01, 0x65, 0x02, 0x01, 0x02, 0x4D, 0x01],
        TampType::StatusQuery,
    ),
    // id-ct-TAMP-update
    (
        [0x60, 0x86, 0x48, 0x01, 0x65, 0x02, 0x01, 0x02, 0x4D, 0x03],
        TampType::Update,
    ),
    // id-ct-TAMP-communityUpdate
    (
        [0x60, 0x86, 0x48, 0x01, 0x65, 0x02, 0x01, 0x02, 0x4D, 0x07],
        TampType::CommunityUpdate,
    ),
    // id-ct-TAMP-seqNumAdjust
    (
        [0x60, 0x86, 0x48, 0x01, 0x65, 0x02, 0x01, 0x02, 0x4D, 0x0A],
        TampType::SeqNumAdjust,
    ),
];

// The type whose octets these are.
fn find_type(types: &[([u8; 10], TampType)], o: &[u8]) -> Option<TampType>
    ensures { result ≡ option_map (λ row. row.1) (find (λ row. same o.now row.0) types.now) }
{
    types
        .iter()
        .find(|row| octets::equal(o, &row.0))
        .map(|row| row.1)
}

// Whether the octets, the contents of an OID, are one of the four TAMP types, and which.
pub fn recognise(o: &[u8]) -> Option<TampType>
    ensures { result ≡ recognised o.now }
{
    find_type(&TYPES, o)
}
