ghost use Rattle.std.specs.Prelude.{◌≡◌, ◌<◌, ◌^◌, [], ◌∷◌, IfOk, IsTrue};
ghost use Rattle.mc_packet.specs.Shape.{HasShape, is_near};
ghost use Rattle.mc_queue.specs.Places.{weights};
ghost use Rattle.cache_bench.specs.Film.{IsOfFilm};

use bytes::Bytes;
use mc_packet::{
    Choice, Chunk, Heads, Level, Mark, NoMemory, Packet, Packets, Pos, Starts, TrackNo,
};
use std::alloc::Global;

/// The video track.
pub const VIDEO: TrackNo = 1;

const AUDIO: TrackNo = 2;

/// Octets from one block to the next.
const STRIDE: u64 = 512;

/// Nanoseconds from one packet of a track to the next.
const SPACING: u64 = 40_000_000;

/// How many packets there are from one keyframe of the video track to the next, of both tracks.
const KEY_EACH: u32 = 50;

const PAYLOAD: [u8; 256] = [7; 256];

/// Behind the place of each block that is made.
pub const LAST: u64 = 0x4000_0000_0000_0000;

// The place of the first block of a second range.
const FAR: u64 = 0x2000_0000_0000_0000;

/// Both tracks.
pub const TRACKS: Choice = Choice {
    video: Some(VIDEO),
    audio: Some(AUDIO),
    sub: None,
};

const BEGINNING: Pos = Pos { block: 0, lane: 0 };

/// Readers at the film's beginning.
pub const OPENING: Heads = Heads {
    video: Some(BEGINNING),
    audio: Some(BEGINNING),
    sub: None,
};

/// The first block of each track.
pub const STARTS: Starts = Starts {
    video: Some(0),
    audio: Some(STRIDE),
    sub: None,
    mark: Mark {
        pos: 0,
        level: Level::Segment,
    },
};

/// Where a second range begins, far behind the first.
pub const FAR_STARTS: Starts = Starts {
    video: Some(FAR),
    audio: Some(FAR + STRIDE),
    sub: None,
    mark: Mark {
        pos: FAR,
        level: Level::Segment,
    },
};

/// The time in nanoseconds of the packet with this number, counted from 0 over both tracks.
#[tactic(auto, using(crate::proofs::Parts::near))]
pub fn time_of(number: u32) -> i64
    ensures near { IsTrue (is_near result) }
{
    ((number / 2) as u64 * SPACING) as i64
}

// A packet of the video track at even numbers, of the audio track at odd ones.
fn packet(alloc: Global, number: u32, block: u64) -> Result<Packet, NoMemory>
    ensures value { IfOk result (IsOfFilm block) }
{
    let is_video = number % 2 == 0;
    let key = !is_video || number % KEY_EACH == 0;
    Ok(Packet {
        track: if is_video { VIDEO } else { AUDIO },
        pos: Pos { block, lane: 0 },
        time: time_of(number),
        sync: key,
        key,
        body: Bytes::copy_from_slice(alloc, &PAYLOAD)?,
    })
}

fn single(alloc: Global, packet: Packet) -> Result<Packets, NoMemory>
    ensures value { IfOk result (λ ps. ps ≡ packet ∷ []) }
{
    let mut packets = Packets::new(alloc);
    packets.push(packet)?;
    Ok(packets)
}

/// The part of the film from a mark on, which holds the one packet with this number.
#[tactic(auto, using(crate::proofs::Parts::one_shape))]
pub fn part(alloc: Global, from: Mark, number: u32) -> Result<Chunk, NoMemory>
    requires before { from.pos < 2 ^ 63 }
    ensures shape { IfOk result HasShape }
    ensures light { IfOk result (λ c. weights c.packets < 1000) }
    ensures from { IfOk result (λ c. c.from ≡ from) }
{
    let packets = single(alloc, packet(alloc, number, from.pos)?)?;
    Ok(Chunk {
        from,
        to: Mark {
            pos: from.pos + STRIDE,
            level: Level::Segment,
        },
        packets,
        ending: None,
    })
}
