ghost use Rattle.std.specs.Prelude.{◌≡◌, ◌↔◌, ◌+◌, IsTrue, length, IfOk};
ghost use Rattle.mc_packet.specs.Shape.{IsPosBefore};

use crate::choice::TrackNo;
use bytes::Bytes;
use sqlite_items::Items;
use std::alloc::{AllocError, Global};

/// A call wanted memory that was not there.
pub type NoMemory = AllocError;

/// The place of a packet: the offset of its block element in the film, and its frame in the
/// block, counted from 0. Places are ordered by block, then by frame.
#[derive(Clone, Copy, Debug, PartialEq, Eq, PartialOrd, Ord)]
pub struct Pos {
    /// The offset of the block element's ID, in octets from the file's start.
    pub block: u64,
    /// The number of the frame in its block, below 256.
    pub lane: u16,
}

impl Pos {
    /// Whether this place stands before another: the derived order is by block, and then by lane.
    pub fn is_before(self, other: Pos) -> bool
        ensures { IsTrue result ↔ IsPosBefore self other }
    {
        self < other
    }
}

/// One frame of a track.
#[derive(Debug, Drop)]
pub struct Packet {
    /// The TrackNumber of its track (RFC 9559, section 5.1.4.1.1).
    pub track: TrackNo,
    /// Where in the film it stands.
    pub pos: Pos,
    /// Its time in nanoseconds from the film's start, which may be negative.
    pub time: i64,
    /// Whether decoding can start here: it is frame 0 of a keyframe block.
    pub sync: bool,
    /// Whether its block is marked as a keyframe.
    pub key: bool,
    /// Its payload, shared and never copied.
    pub body: Bytes,
}

impl Packet {
    /// An equal packet, whose payload is shared.
    pub fn copy(&self) -> Result<Packet, NoMemory>
        ensures { IfOk result (λ p. p ≡ self.now) }
    {
        Ok(Packet {
            track: self.track,
            pos: self.pos,
            time: self.time,
            sync: self.sync,
            key: self.key,
            body: self.body.clone()?,
        })
    }

    /// The octets of its payload.
    pub fn octets(&self) -> &[u8]
        ensures { result.now ≡ self.now.body }
    {
        self.body.as_slice()
    }
}

/// A list of packets.
pub type Packets = Items<Packet>;

/// Equal packets, in the same order.
pub(crate) fn copy_packets(alloc: Global, packets: &[Packet]) -> Result<Packets, NoMemory>
    ensures { IfOk result (λ ps. ps ≡ packets.now) }
{
    let mut copied = Packets::new(alloc);
    for packet in packets {
        copied.push(packet.copy()?)?;
    }
    Ok(copied)
}

/// What a packet counts for in a cache, in octets: its payload and 64 more.
pub fn weight(p: &Packet) -> u64
    ensures { result ≡ length p.now.body + 64 }
{
    p.body.len() as u64 + 64
}
