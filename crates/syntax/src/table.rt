// Made by tools/table.py from specs/Asn.antt and specs/Contract/Forms.antt: change those, not this file.
use crate::row::{Kind, Row, Rule};

// specs/Contract/Rows.antt says what a row stands for.
pub type Table = [Row; 142];

pub static ROWS: Table = [
    // 0: free
    Row::Free,
    // 1: end
    Row::End,
    // 2: any_optional in AlgorithmIdentifier.parameters
    Row::Field(Kind::AnyOptional, 0x00, 0, 1),
    // 3: required in AlgorithmIdentifier.algorithm
    Row::Field(Kind::Required, 0x06, 0, 2),
    // 4: required in SubjectPublicKeyInfo.subjectPublicKey
    Row::Field(Kind::Required, 0x03, 0, 1),
    // 5: required in SubjectPublicKeyInfo.algorithm
    Row::Field(Kind::Required, 0x30, 3, 4),
    // 6: equals in Extension.critical
    Row::Obeys(Rule::Equals(0xFF), 0),
    // 7: required in Extension.extnValue, EncapsulatedContentInfo.eContent, HardwareSerialEntry.block
    Row::Field(Kind::Required, 0x04, 0, 1),
    // 8: optional in Extension.critical
    Row::Field(Kind::Optional, 0x01, 6, 7),
    // 9: required in Extension.extnID
    Row::Field(Kind::Required, 0x06, 0, 8),
    // 10: optional in Extensions, TrustAnchorInfo.exts, TrustAnchorChangeInfo.exts
    Row::Field(Kind::Optional, 0x30, 9, 1),
    // 11: many in Extensions, TrustAnchorInfo.exts, TrustAnchorChangeInfo.exts
    Row::Many(10),
    // 12: not_empty in Extensions, TrustAnchorInfo.exts, TrustAnchorChangeInfo.exts
    Row::Obeys(Rule::NotEmpty, 11),
    // 13: one in ContentInfo.content, ContentInfoSignedData.content, AnotherName.value, Attribute.attrValues
    Row::Field(Kind::One, 0x00, 0, 1),
    // 14: required in ContentInfo.content, ContentInfoSignedData.content, AnotherName.value
    Row::Field(Kind::Required, 0xA0, 13, 1),
    // 15: required in ContentInfo.contentType, AnotherName.type-id
    Row::Field(Kind::Required, 0x06, 0, 14),
    // 16: required in ContentInfo
    Row::Field(Kind::Required, 0x30, 15, 1),
    // 17: equals given in ContentInfoSignedData.contentType, Attribute.attrValues
    Row::Obeys(Rule::EqualsGiven, 0),
    // 18: required in ContentInfoSignedData.contentType
    Row::Field(Kind::Required, 0x06, 17, 14),
    // 19: required in ContentInfoSignedData
    Row::Field(Kind::Required, 0x30, 18, 1),
    // 20: equals in SignedData.version, SignerInfo.version
    Row::Obeys(Rule::Equals(0x03), 0),
    // 21: optional in SignedData.digestAlgorithms
    Row::Field(Kind::Optional, 0x30, 3, 1),
    // 22: many in SignedData.digestAlgorithms
    Row::Many(21),
    // 23: required in SignedData.signerInfos
    Row::Field(Kind::Required, 0x31, 0, 1),
    // 24: optional in SignedData.crls
    Row::Field(Kind::Optional, 0xA1, 0, 23),
    // 25: optional in SignedData.certificates
    Row::Field(Kind::Optional, 0xA0, 0, 24),
    // 26: required in SignedData.encapContentInfo
    Row::Field(Kind::Required, 0x30, 0, 25),
    // 27: required in SignedData.digestAlgorithms
    Row::Field(Kind::Required, 0x31, 22, 26),
    // 28: required in SignedData.version
    Row::Field(Kind::Required, 0x02, 20, 27),
    // 29: optional in EncapsulatedContentInfo.eContent
    Row::Field(Kind::Optional, 0xA0, 7, 1),
    // 30: required in EncapsulatedContentInfo.eContentType
    Row::Field(Kind::Required, 0x06, 0, 29),
    // 31: optional in SignerInfo.unsignedAttrs
    Row::Field(Kind::Optional, 0xA1, 0, 1),
    // 32: required in SignerInfo.signature
    Row::Field(Kind::Required, 0x04, 0, 31),
    // 33: required in SignerInfo.signatureAlgorithm
    Row::Field(Kind::Required, 0x30, 3, 32),
    // 34: optional in SignerInfo.signedAttrs
    Row::Field(Kind::Optional, 0xA0, 0, 33),
    // 35: required in SignerInfo.digestAlgorithm
    Row::Field(Kind::Required, 0x30, 3, 34),
    // 36: required in SignerInfo.sid
    Row::Field(Kind::Required, 0x80, 0, 35),
    // 37: required in SignerInfo.version
    Row::Field(Kind::Required, 0x02, 20, 36),
    // 38: required in OneSignerInfo
    Row::Field(Kind::Required, 0x30, 37, 1),
    // 39: integer_but in TrustAnchorInfo.version
    Row::Obeys(Rule::IntegerBut(1), 0),
    // 40: size_to in TrustAnchorInfo.taTitle, TrustAnchorChangeInfo.taTitle
    Row::Obeys(Rule::SizeTo(64), 0),
    // 41: required in TrustAnchorInfo.exts
    Row::Field(Kind::Required, 0x30, 12, 1),
    // 42: optional in TrustAnchorInfo.taTitleLangTag
    Row::Field(Kind::Optional, 0x82, 0, 1),
    // 43: optional in TrustAnchorInfo.exts
    Row::Field(Kind::Optional, 0xA1, 41, 42),
    // 44: optional in TrustAnchorInfo.certPath
    Row::Field(Kind::Optional, 0x30, 0, 43),
    // 45: optional in TrustAnchorInfo.taTitle
    Row::Field(Kind::Optional, 0x0C, 40, 44),
    // 46: required in TrustAnchorInfo.keyId
    Row::Field(Kind::Required, 0x04, 0, 45),
    // 47: required in TrustAnchorInfo.pubKey
    Row::Field(Kind::Required, 0x30, 5, 46),
    // 48: optional in TrustAnchorInfo.version
    Row::Field(Kind::Optional, 0x02, 39, 47),
    // 49: required in StoredTrustAnchorInfo, TrustAnchorChoice.taInfo
    Row::Field(Kind::Required, 0x30, 48, 1),
    // 50: optional in TrustAnchorChoice.taInfo
    Row::Field(Kind::Optional, 0xA2, 49, 1),
    // 51: optional in TrustAnchorChoice.tbsCert
    Row::Field(Kind::Optional, 0xA1, 0, 50),
    // 52: optional in TrustAnchorChoice.certificate
    Row::Field(Kind::Optional, 0x30, 0, 51),
    // 53: optional in CommunityIdentifierList, TargetIdentifier.communities, CommunityUpdates.remove, CommunityUpdates.add
    Row::Field(Kind::Optional, 0x06, 0, 1),
    // 54: many in CommunityIdentifierList, TargetIdentifier.communities, CommunityUpdates.remove, CommunityUpdates.add
    Row::Many(53),
    // 55: empty in HardwareSerialEntry.all, TargetIdentifier.allModules
    Row::Obeys(Rule::Empty, 0),
    // 56: required in HardwareSerialEntry.block
    Row::Field(Kind::Required, 0x04, 0, 7),
    // 57: optional in HardwareSerialEntry.block
    Row::Field(Kind::Optional, 0x30, 56, 1),
    // 58: optional in HardwareSerialEntry.single
    Row::Field(Kind::Optional, 0x04, 0, 57),
    // 59: optional in HardwareSerialEntry.all
    Row::Field(Kind::Optional, 0x05, 55, 58),
    // 60: many in HardwareModules.hwSerialEntries
    Row::Many(59),
    // 61: not_empty in HardwareModules.hwSerialEntries
    Row::Obeys(Rule::NotEmpty, 60),
    // 62: required in HardwareModules.hwSerialEntries
    Row::Field(Kind::Required, 0x30, 61, 1),
    // 63: required in HardwareModules.hwType
    Row::Field(Kind::Required, 0x06, 0, 62),
    // 64: optional in TargetIdentifier.hwModules
    Row::Field(Kind::Optional, 0x30, 63, 1),
    // 65: many in TargetIdentifier.hwModules
    Row::Many(64),
    // 66: not_empty in TargetIdentifier.hwModules
    Row::Obeys(Rule::NotEmpty, 65),
    // 67: optional in TargetIdentifier.otherName
    Row::Field(Kind::Optional, 0xA5, 15, 1),
    // 68: optional in TargetIdentifier.uri
    Row::Field(Kind::Optional, 0x84, 0, 67),
    // 69: optional in TargetIdentifier.allModules
    Row::Field(Kind::Optional, 0x83, 55, 68),
    // 70: optional in TargetIdentifier.communities
    Row::Field(Kind::Optional, 0xA2, 54, 69),
    // 71: optional in TargetIdentifier.hwModules
    Row::Field(Kind::Optional, 0xA1, 66, 70),
    // 72: seq_number in TAMPMsgRef.seqNum, TAMPSequenceNumber.seqNumber
    Row::Obeys(Rule::SeqNumber, 0),
    // 73: required in TAMPMsgRef.seqNum, TAMPSequenceNumber.seqNumber
    Row::Field(Kind::Required, 0x02, 72, 1),
    // 74: one in TAMPMsgRef.target
    Row::Field(Kind::One, 0x00, 71, 73),
    // 75: integer_but in TAMPStatusQuery.version, TAMPUpdate.version, TAMPCommunityUpdate.version, SequenceNumberAdjust.version
    Row::Obeys(Rule::IntegerBut(2), 0),
    // 76: equals in TAMPStatusQuery.terse, TAMPUpdate.terse, TAMPCommunityUpdate.terse, ContentTypeConstraint.canSource
    Row::Obeys(Rule::Equals(0x01), 0),
    // 77: required in TAMPStatusQuery.query, SequenceNumberAdjust.msgRef
    Row::Field(Kind::Required, 0x30, 74, 1),
    // 78: optional in TAMPStatusQuery.terse
    Row::Field(Kind::Optional, 0x81, 76, 77),
    // 79: optional in TAMPStatusQuery.version
    Row::Field(Kind::Optional, 0x80, 75, 78),
    // 80: required in TAMPStatusQuery
    Row::Field(Kind::Required, 0x30, 79, 1),
    // 81: optional in TrustAnchorChangeInfo.exts
    Row::Field(Kind::Optional, 0xA1, 12, 1),
    // 82: optional in TrustAnchorChangeInfo.certPath
    Row::Field(Kind::Optional, 0x30, 0, 81),
    // 83: optional in TrustAnchorChangeInfo.taTitle
    Row::Field(Kind::Optional, 0x0C, 40, 82),
    // 84: optional in TrustAnchorChangeInfo.keyId
    Row::Field(Kind::Optional, 0x04, 0, 83),
    // 85: required in TrustAnchorChangeInfo.pubKey
    Row::Field(Kind::Required, 0x30, 5, 84),
    // 86: optional in TrustAnchorChangeInfoChoice.taChange
    Row::Field(Kind::Optional, 0xA1, 85, 1),
    // 87: optional in TrustAnchorChangeInfoChoice.tbsCertChange
    Row::Field(Kind::Optional, 0xA0, 0, 86),
    // 88: one in TrustAnchorUpdate.add
    Row::Field(Kind::One, 0x00, 52, 1),
    // 89: one in TrustAnchorUpdate.change
    Row::Field(Kind::One, 0x00, 87, 1),
    // 90: optional in TrustAnchorUpdate.change
    Row::Field(Kind::Optional, 0xA3, 89, 1),
    // 91: optional in TrustAnchorUpdate.remove
    Row::Field(Kind::Optional, 0xA2, 5, 90),
    // 92: optional in TrustAnchorUpdate.add
    Row::Field(Kind::Optional, 0xA1, 88, 91),
    // 93: required in TAMPSequenceNumber.keyId
    Row::Field(Kind::Required, 0x04, 0, 73),
    // 94: optional in TAMPSequenceNumbers, TAMPUpdate.tampSeqNumbers
    Row::Field(Kind::Optional, 0x30, 93, 1),
    // 95: many in TAMPSequenceNumbers, TAMPUpdate.tampSeqNumbers
    Row::Many(94),
    // 96: not_empty in TAMPSequenceNumbers, TAMPUpdate.tampSeqNumbers
    Row::Obeys(Rule::NotEmpty, 95),
    // 97: many in TAMPUpdate.updates
    Row::Many(92),
    // 98: not_empty in TAMPUpdate.updates
    Row::Obeys(Rule::NotEmpty, 97),
    // 99: optional in TAMPUpdate.tampSeqNumbers
    Row::Field(Kind::Optional, 0xA2, 96, 1),
    // 100: required in TAMPUpdate.updates
    Row::Field(Kind::Required, 0x30, 98, 99),
    // 101: required in TAMPUpdate.msgRef
    Row::Field(Kind::Required, 0x30, 74, 100),
    // 102: optional in TAMPUpdate.terse
    Row::Field(Kind::Optional, 0x81, 76, 101),
    // 103: optional in TAMPUpdate.version
    Row::Field(Kind::Optional, 0x80, 75, 102),
    // 104: required in TAMPUpdate
    Row::Field(Kind::Required, 0x30, 103, 1),
    // 105: optional in CommunityUpdates.add
    Row::Field(Kind::Optional, 0xA2, 54, 1),
    // 106: optional in CommunityUpdates.remove
    Row::Field(Kind::Optional, 0xA1, 54, 105),
    // 107: not_empty in CommunityUpdates
    Row::Obeys(Rule::NotEmpty, 106),
    // 108: required in TAMPCommunityUpdate.updates
    Row::Field(Kind::Required, 0x30, 107, 1),
    // 109: required in TAMPCommunityUpdate.msgRef
    Row::Field(Kind::Required, 0x30, 74, 108),
    // 110: optional in TAMPCommunityUpdate.terse
    Row::Field(Kind::Optional, 0x81, 76, 109),
    // 111: optional in TAMPCommunityUpdate.version
    Row::Field(Kind::Optional, 0x80, 75, 110),
    // 112: required in TAMPCommunityUpdate
    Row::Field(Kind::Required, 0x30, 111, 1),
    // 113: optional in SequenceNumberAdjust.version
    Row::Field(Kind::Optional, 0x80, 75, 77),
    // 114: required in SequenceNumberAdjust
    Row::Field(Kind::Required, 0x30, 113, 1),
    // 115: not_empty in AttrConstraint.attrValues
    Row::Obeys(Rule::NotEmpty, 0),
    // 116: required in AttrConstraint.attrValues
    Row::Field(Kind::Required, 0x31, 115, 1),
    // 117: required in AttrConstraint.attrType
    Row::Field(Kind::Required, 0x06, 0, 116),
    // 118: optional in AttrConstraintList, ContentTypeConstraint.attrConstraints
    Row::Field(Kind::Optional, 0x30, 117, 1),
    // 119: many in AttrConstraintList, ContentTypeConstraint.attrConstraints
    Row::Many(118),
    // 120: not_empty in AttrConstraintList, ContentTypeConstraint.attrConstraints
    Row::Obeys(Rule::NotEmpty, 119),
    // 121: optional in ContentTypeConstraint.attrConstraints
    Row::Field(Kind::Optional, 0x30, 120, 1),
    // 122: optional in ContentTypeConstraint.canSource
    Row::Field(Kind::Optional, 0x0A, 76, 121),
    // 123: required in ContentTypeConstraint.contentType
    Row::Field(Kind::Required, 0x06, 0, 122),
    // 124: optional in CMSContentConstraints
    Row::Field(Kind::Optional, 0x30, 123, 1),
    // 125: many in CMSContentConstraints
    Row::Many(124),
    // 126: not_empty in CMSContentConstraints
    Row::Obeys(Rule::NotEmpty, 125),
    // 127: required in CMSContentConstraints
    Row::Field(Kind::Required, 0x30, 126, 1),
    // 128: required in OneSignedData
    Row::Field(Kind::Required, 0x30, 28, 1),
    // 129: optional in Attribute.attrValues
    Row::Field(Kind::Optional, 0x06, 17, 1),
    // 130: one in Attribute.attrValues
    Row::Field(Kind::One, 0x00, 129, 1),
    // 131: required in Attribute.attrValues
    Row::Field(Kind::Required, 0x31, 130, 1),
    // 132: required in Attribute.attrType
    Row::Field(Kind::Required, 0x06, 0, 131),
    // 133: optional in ContentType attribute
    Row::Field(Kind::Optional, 0x30, 132, 1),
    // 134: optional in Attribute.attrValues
    Row::Field(Kind::Optional, 0x04, 0, 1),
    // 135: one in Attribute.attrValues
    Row::Field(Kind::One, 0x00, 134, 1),
    // 136: required in Attribute.attrValues
    Row::Field(Kind::Required, 0x31, 135, 1),
    // 137: required in Attribute.attrType
    Row::Field(Kind::Required, 0x06, 0, 136),
    // 138: optional in MessageDigest attribute
    Row::Field(Kind::Optional, 0x30, 137, 1),
    // 139: required in Attribute.attrValues
    Row::Field(Kind::Required, 0x31, 13, 1),
    // 140: required in Attribute.attrType
    Row::Field(Kind::Required, 0x06, 0, 139),
    // 141: optional in Other attribute
    Row::Field(Kind::Optional, 0x30, 140, 1),
];

// The row of each form.
pub const CONTENT_INFO: u8 = 16;

pub const CONTENT_INFO_SIGNED_DATA: u8 = 19;

pub const SIGNED_DATA: u8 = 128;

pub const ENCAPSULATED_CONTENT_INFO: u8 = 30;

pub const ONE_SIGNER_INFO: u8 = 38;

pub const STORED_TRUST_ANCHOR_INFO: u8 = 49;

pub const CMS_CONTENT_CONSTRAINTS: u8 = 127;

pub const STATUS_QUERY: u8 = 80;

pub const UPDATE: u8 = 104;

pub const COMMUNITY_UPDATE: u8 = 112;

pub const SEQ_NUM_ADJUST: u8 = 114;

pub const CONTENT_TYPE_ATTRIBUTE: u8 = 133;

pub const MESSAGE_DIGEST_ATTRIBUTE: u8 = 138;

pub const OTHER_ATTRIBUTE: u8 = 141;
