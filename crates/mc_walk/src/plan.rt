use bytes::Bytes;
use mc_packet::{Ending, Level, Packets};
use mc_tracks::TrackList;

/// What a walk goes over, and what stays the same in it.
#[derive(Drop)]
pub struct Plan {
    /// The film's octets.
    pub octets: Bytes,
    /// The offset of the Segment's first child.
    pub opening: u64,
    /// The offset at which the Segment ends, where its size is known; it may be past the film.
    pub segment_end: Option<u64>,
    /// Nanoseconds in a unit of time, at least 1.
    pub scale: u64,
    /// The tracks that the film lists.
    pub tracks: TrackList,
}

/// What one step of the walk comes to.
#[derive(Drop)]
pub enum Step {
    /// The film ends here.
    End(Ending),
    /// The walk goes on at another place; behind a block element with that block's packets.
    On {
        /// The offset of that place.
        to: u64,
        /// The level there.
        level: Level,
        /// The packets, where a block element was passed; none of a track that is not known.
        block: Option<Packets>,
    },
}

/// The Segment of a film (RFC 9559, section 5.1).
#[derive(Clone, Copy, Debug, PartialEq, Eq)]
pub struct Segment {
    /// The offset of its first child.
    pub opening: u64,
    /// The offset at which it ends, where its size is known; it may be past the film.
    pub end: Option<u64>,
}

/// What a film's Info and Tracks say (RFC 9559, sections 5.1.2 and 5.1.4).
#[derive(Drop)]
pub struct Header {
    /// The TimestampScale: nanoseconds in a unit of time, at least 1.
    pub scale: u64,
    /// The tracks that are listed.
    pub tracks: TrackList,
}
