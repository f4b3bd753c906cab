ghost use Rattle.std.specs.Prelude.{◌≡◌};

use bytes::Bytes;
use mc_packet::TrackNo;
use sqlite_items::Items;

/// What a block's packets need to know of its film.
#[derive(Clone, Copy, Debug, PartialEq, Eq)]
pub struct Place {
    /// The offset of its element, in octets from the file's start.
    pub pos: u64,
    /// The Timestamp of its Cluster, in units of `scale` (RFC 9559, section 5.1.3.1).
    pub cluster_time: u64,
    /// The TimestampScale: nanoseconds in a unit of time (RFC 9559, section 5.1.2.9).
    pub scale: u64,
    /// The DefaultDuration of its track in nanoseconds, if it has one (RFC 9559, section
    /// 5.1.4.1.13).
    pub duration: Option<u64>,
}

/// What stands before a block's frames (RFC 9559, section 10.1).
#[derive(Clone, Copy, Debug, PartialEq, Eq)]
pub struct BlockHead {
    /// The TrackNumber of its track, below 2^56.
    pub track: TrackNo,
    /// Its time relative to its Cluster, in units of the film's scale.
    pub relative: i16,
    /// Its flags: bit 7 marks the keyframe of a SimpleBlock, bits 1 and 2 tell the lace.
    pub flags: u8,
    /// The offset in the block's octets at which its frames or their lace begin.
    pub at: usize,
}

/// The block of an element, before it is taken apart.
#[derive(Debug, Drop)]
pub struct BlockBody {
    /// Its octets, from its track number on.
    pub octets: Bytes,
    /// Whether the Block of a BlockGroup is a keyframe; a SimpleBlock says so in its flags, and has
    /// `None` here.
    pub keyframe: Option<bool>,
}

/// The frames of a block, in order: where each begins and ends in what stands behind the flags.
pub type FrameSpans = Items<(usize, usize)>;
