ghost use Rattle.std.specs.Prelude.{◌≡◌, IfOk};

use crate::packet::{NoMemory, Packets, copy_packets};
use std::alloc::Global;

/// What is wrong at a damaged place of a film.
#[derive(Clone, Copy, Debug, PartialEq, Eq)]
pub enum Fault {
    /// An ID whose first octet has no marker bit among its first four.
    BadId,
    /// A size whose first octet is 0.
    BadSize,
    /// An unknown size where only a known one may stand.
    NoSize,
    /// An element that runs past the end of its Cluster or of the Segment.
    Overrun,
    /// A block of more than 67,108,864 octets.
    TooLarge,
    /// An unsigned integer of more than 8 octets.
    BadUint,
    /// A block before the first Timestamp of its Cluster.
    NoTime,
    /// A block whose head does not stand whole.
    ShortBlock,
    /// A lace that cannot be taken apart.
    BadLace,
    /// A frame's time outside plus or minus 2^62 nanoseconds.
    TimeRange,
    /// A BlockGroup whose children do not stand whole.
    BadGroup,
}

/// How a film ends. Offsets are in octets from the file's start.
#[derive(Clone, Copy, Debug, PartialEq, Eq)]
pub enum Ending {
    /// At the end of its Segment.
    Clean,
    /// The file ends within the element at this offset, or at it where more was announced.
    Cut(u64),
    /// The element at this offset cannot be read, and nothing behind it is.
    Damaged(u64, Fault),
}

/// Where a place of a film stands: among the Segment's children, or in a Cluster whose time
/// (in units of the film's scale) and end may be known.
#[derive(Clone, Copy, Debug, PartialEq, Eq)]
pub enum Level {
    /// Among the children of the Segment.
    Segment,
    /// Among the children of a Cluster.
    Cluster {
        /// The Cluster's Timestamp, in units of the film's scale, once it was read
        /// (RFC 9559, section 5.1.3.1).
        time: Option<u64>,
        /// The offset just past the Cluster, where its size is known.
        end: Option<u64>,
    },
}

/// A place from which a film can be read on. The one at offset 0 is the opening mark and stands
/// for the Segment's first child.
#[derive(Clone, Copy, Debug, PartialEq, Eq)]
pub struct Mark {
    /// The offset of an element, in octets from the file's start.
    pub pos: u64,
    /// Where that element stands.
    pub level: Level,
}

/// A part of a film from one mark to the next: up to just past a block element, or to the
/// film's ending.
#[derive(Debug, Drop)]
pub struct Chunk {
    /// The mark at which the part begins.
    pub from: Mark,
    /// The mark at which the next part begins.
    pub to: Mark,
    /// The packets of the block element that was read, none if it has none that count.
    pub packets: Packets,
    /// How the film ends, where the part reaches its ending.
    pub ending: Option<Ending>,
}

impl Chunk {
    /// An equal chunk, whose payloads are shared.
    pub fn copy(&self, alloc: Global) -> Result<Chunk, NoMemory>
        ensures { IfOk result (λ c. c ≡ self.now) }
    {
        Ok(Chunk {
            from: self.from,
            to: self.to,
            packets: copy_packets(alloc, self.packets.as_slice())?,
            ending: self.ending,
        })
    }
}
