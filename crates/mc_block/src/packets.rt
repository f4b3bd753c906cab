ghost use Rattle.std.specs.Prelude.{◌≡◌, ◌+◌, ◌<◌, ◌≤◌, ◌∷◌, ◌++◌, [], length, drop, Ok, Err, IfOk, All, ◌&&◌, ◌==◌};
ghost use Rattle.mc_block.specs.Frames.{LiesIn};
ghost use Rattle.mc_block.specs.Block.{Gives, is_key, packet_of, packets_from, packets_behind, packets_of, block_of, group_of, AreOfBlock};

use crate::body::{block_head, simple_body};
use crate::error::BlockError;
use crate::group::group_body;
use crate::lace::{frames, is_laced};
use crate::parts::{BlockBody, BlockHead, Place};
use crate::times::frame_time;
use bytes::Bytes;
use mc_packet::{Packet, Packets, Pos};
use std::alloc::Global;

/// Whether a block is a keyframe: the highest bit of its flags tells, unless its group does
/// (RFC 9559, section 10.2).
pub fn is_key(keyframe: Option<bool>, flags: u8) -> bool
    ensures { result ≡ is_key keyframe flags }
{
    keyframe.unwrap_or(flags >= 0x80)
}

// Whether decoding can start at a frame.
fn is_sync(key: bool, lane: u16) -> bool
    ensures { result ≡ key && lane == 0 }
{
    key && lane == 0
}

// The packet of a frame, which begins and ends at these places behind the head.
fn packet(
    place: &Place,
    head: BlockHead,
    key: bool,
    rest: &Bytes,
    lane: u16,
    span: (usize, usize),
) -> Result<Packet, BlockError>
    requires { LiesIn (length rest.now) span }
    ensures { Gives result (packet_of place.now head key rest.now lane span) }
{
    let Some(time) = frame_time(place, head, lane) else {
        return Err(BlockError::TimeRange);
    };
    let (begin, end) = span;
    Ok(Packet {
        track: head.track,
        pos: Pos {
            block: place.pos,
            lane,
        },
        time,
        sync: is_sync(key, lane),
        key,
        body: rest.slice(begin..end)?,
    })
}

// The packets of frames.
fn cut_packets(
    alloc: Global,
    place: &Place,
    head: BlockHead,
    key: bool,
    rest: &Bytes,
    spans: &[(usize, usize)],
) -> Result<Packets, BlockError>
    requires lie { All (LiesIn (length rest.now)) spans.now }
    requires few { length spans.now ≤ 256 }
    ensures value { Gives result (packets_from place.now head key rest.now 0 spans.now) }
    ensures count { IfOk result (λ packets. length packets ≡ length spans.now) }
{
    let mut packets = Packets::new(alloc);
    for (lane, span) in spans.iter().enumerate() {
        packets.push(packet(place, head, key, rest, lane as u16, *span)?)?;
    }
    Ok(packets)
}

/// The packets of a block, one for each frame, in order; payloads are shared with the block. There
/// are at most 256, all of the block's track and at its place, with lanes from 0 on and times in
/// range.
///
/// The first that holds is the fault: `ShortBlock` where its head does not stand whole, `BadLace`
/// where its lace cannot be taken apart, and `TimeRange` where some frame's time lies outside plus
/// or minus 2^62 nanoseconds. It may give `NoMemory`.
pub fn block_packets(alloc: Global, body: &BlockBody, place: Place) -> Result<Packets, BlockError>
    ensures value { Gives result (packets_of place body.now) }
    ensures few { IfOk result (λ packets. length packets ≤ 256) }
    ensures law { IfOk result (AreOfBlock place body.now.octets) }
{
    read_packets(alloc, body, &place)
}

#[tactic(auto, unfolding(crate::specs::Block::packets_of))]
fn read_packets(alloc: Global, body: &BlockBody, place: &Place) -> Result<Packets, BlockError>
    ensures value { Gives result (packets_of place.now body.now) }
    ensures few { IfOk result (λ packets. length packets ≤ 256) }
{
    let head = block_head(body.octets.as_slice())?;
    let rest = body.octets.slice(head.at..)?;
    let key = is_key(body.keyframe, head.flags);
    packets_behind(alloc, place, head, key, &rest)
}

// The packets of what stands behind a head; without a lace it is one frame, which needs no list.
#[tactic(auto, using(crate::proofs::Laces::single_frame))]
fn packets_behind(
    alloc: Global,
    place: &Place,
    head: BlockHead,
    key: bool,
    rest: &Bytes,
) -> Result<Packets, BlockError>
    ensures value { Gives result (packets_behind place.now head key rest.now) }
    ensures few { IfOk result (λ packets. length packets ≤ 256) }
{
    if !is_laced(head.flags) {
        return cut_packets(alloc, place, head, key, rest, &[(0, rest.len())]);
    }
    let spans = frames(alloc, head.flags, rest.as_slice())?;
    cut_packets(alloc, place, head, key, rest, spans.as_slice())
}

/// The packets of a SimpleBlock (RFC 9559, section 5.1.3.4) with that body: those of `simple_body`.
#[tactic(auto, unfolding(crate::specs::Block::block_of))]
pub fn parse_block(alloc: Global, body: &Bytes, place: Place) -> Result<Packets, BlockError>
    ensures { Gives result (block_of place body.now) }
{
    let block = simple_body(body)?;
    block_packets(alloc, &block, place)
}

/// The packets of a BlockGroup (RFC 9559, section 5.1.3.5) with that body: those of the first Block
/// in it, and none where it has no Block.
#[tactic(auto, unfolding(crate::specs::Block::group_of))]
pub fn parse_group(alloc: Global, body: &Bytes, place: Place) -> Result<Packets, BlockError>
    ensures { Gives result (group_of place body.now) }
{
    let Some(block) = group_body(body)? else {
        return Ok(Packets::new(alloc));
    };
    block_packets(alloc, &block, place)
}
