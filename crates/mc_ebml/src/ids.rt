//! The IDs of the elements that are read or written, with their marker bits (RFC 8794, section 5),
//! each under its name in RFC 8794 or RFC 9559.

/// EBML, the header with which a film begins (RFC 8794, section 11.2).
pub const EBML_HEADER: u32 = 0x1A45_DFA3;

/// EBMLReadVersion, of the header.
pub const EBML_READ_VERSION: u32 = 0x42F7;

/// EBMLMaxIDLength, of the header.
pub const EBML_MAX_ID_LENGTH: u32 = 0x42F2;

/// EBMLMaxSizeLength, of the header.
pub const EBML_MAX_SIZE_LENGTH: u32 = 0x42F3;

/// DocType, of the header.
pub const DOC_TYPE: u32 = 0x4282;

/// DocTypeReadVersion, of the header.
pub const DOC_TYPE_READ_VERSION: u32 = 0x4285;

/// Segment, which holds all that follows (RFC 9559, section 5.1).
pub const SEGMENT: u32 = 0x1853_8067;

/// SeekHead, of the Segment.
pub const SEEK_HEAD: u32 = 0x114D_9B74;

/// Info, of the Segment.
pub const INFO: u32 = 0x1549_A966;

/// Tracks, of the Segment.
pub const TRACKS: u32 = 0x1654_AE6B;

/// Cluster, of the Segment.
pub const CLUSTER: u32 = 0x1F43_B675;

/// Cues, of the Segment.
pub const CUES: u32 = 0x1C53_BB6B;

/// Chapters, of the Segment.
pub const CHAPTERS: u32 = 0x1043_A770;

/// Tags, of the Segment.
pub const TAGS: u32 = 0x1254_C367;

/// Attachments, of the Segment.
pub const ATTACHMENTS: u32 = 0x1941_A469;

/// TimestampScale, of Info.
pub const TIMESTAMP_SCALE: u32 = 0x2A_D7B1;

/// TrackEntry, of Tracks.
pub const TRACK_ENTRY: u32 = 0xAE;

/// TrackNumber, of a TrackEntry.
pub const TRACK_NUMBER: u32 = 0xD7;

/// TrackUID, of a TrackEntry.
pub const TRACK_UID: u32 = 0x73C5;

/// TrackType, of a TrackEntry.
pub const TRACK_TYPE: u32 = 0x83;

/// CodecID, of a TrackEntry.
pub const CODEC_ID: u32 = 0x86;

/// Name, of a TrackEntry.
pub const NAME: u32 = 0x536E;

/// Language, of a TrackEntry.
pub const LANGUAGE: u32 = 0x22_B59C;

/// FlagDefault, of a TrackEntry.
pub const FLAG_DEFAULT: u32 = 0x88;

/// DefaultDuration, of a TrackEntry.
pub const DEFAULT_DURATION: u32 = 0x23_E383;

/// ContentEncodings, of a TrackEntry.
pub const CONTENT_ENCODINGS: u32 = 0x6D80;

/// Timestamp, of a Cluster.
pub const TIMESTAMP: u32 = 0xE7;

/// SimpleBlock, of a Cluster.
pub const SIMPLE_BLOCK: u32 = 0xA3;

/// BlockGroup, of a Cluster.
pub const BLOCK_GROUP: u32 = 0xA0;

/// Block, of a BlockGroup.
pub const BLOCK: u32 = 0xA1;

/// ReferenceBlock, of a BlockGroup.
pub const REFERENCE_BLOCK: u32 = 0xFB;
