ghost use Rattle.std.specs.Prelude.{◌≡◌, ◌↔◌, ◌^◌, ◌<◌, ◌≤◌, All, IsTrue, length, sum_by};
ghost use Rattle.std.specs.List.{AllByRecursion};
ghost use Rattle.mc_packet.specs.declared.packet.Packet.{Packet};
ghost use Rattle.mc_packet.specs.Shape.{AreOfOneTrack, InOrder, IsBeforeFirst, HasShape, is_near};

use crate::choice::TrackNo;
use crate::limits::LARGEST_BLOCK;
use crate::packet::{Packet, Pos};
use crate::walk::Chunk;

// The most frames that a block holds.
const MOST_FRAMES: usize = 256;

// The most nanoseconds that a time lies before or behind the film's start.
const FARTHEST: i64 = 1 << 62;

impl Chunk {
    /// Whether the chunk is as one that was read from a film: at most 256 packets of one track, in
    /// order of their places and between the chunk's marks, with times within 2^62 nanoseconds and
    /// with payloads of at most 67,108,864 octets together.
    pub fn has_shape(&self) -> bool
        ensures { IsTrue result ↔ HasShape self.now }
    {
        let packets = self.packets.as_slice();
        packets.len() <= MOST_FRAMES
            && are_of_one_track(packets)
            && are_in_order(packets)
            && are_between(self.from.pos, self.to.pos, packets)
            && have_lanes(packets)
            && have_times(packets)
            && are_small(packets)
    }
}

fn are_of_one_track(packets: &[Packet]) -> bool
    ensures { IsTrue result ↔ AreOfOneTrack packets.now }
{
    match packets.split_first() {
        Some((first, rest)) => is_number(first.track) && are_of(first.track, rest),
        None => true,
    }
}

// A TrackNumber is not 0, and is coded in at most 8 octets.
fn is_number(track: TrackNo) -> bool
    ensures { IsTrue result ↔ ((0 < track) × (track < 2 ^ 56)) }
{
    0 < track && track < 1 << 56
}

fn are_of(track: TrackNo, packets: &[Packet]) -> bool
    ensures { IsTrue result ↔ AllByRecursion (λ (q : Packet). q.track ≡ track) packets.now }
{
    packets.iter().all(|packet| packet.track == track)
}

#[tactic(auto, using(crate::proofs::Orders::order_on, crate::proofs::Orders::order_first))]
fn are_in_order(packets: &[Packet]) -> bool
    ensures { IsTrue result ↔ InOrder packets.now }
{
    let mut rest = packets;
    while let Some((first, more)) = rest.split_first() {
        if !is_before_first(first.pos, more) {
            return false;
        }
        rest = more;
    }
    true
}

fn is_before_first(pos: Pos, packets: &[Packet]) -> bool
    ensures { IsTrue result ↔ IsBeforeFirst pos packets.now }
{
    match packets {
        [first, ..] => pos.is_before(first.pos),
        [] => true,
    }
}

fn are_between(from: u64, to: u64, packets: &[Packet]) -> bool
    ensures { IsTrue result ↔
        All (λ (p : Packet). (from ≤ p.pos.block) × (p.pos.block < to)) packets.now }
{
    packets
        .iter()
        .all(|packet| from <= packet.pos.block && packet.pos.block < to)
}

fn have_lanes(packets: &[Packet]) -> bool
    ensures { IsTrue result ↔ All (λ (p : Packet). p.pos.lane < 256) packets.now }
{
    packets.iter().all(|packet| packet.pos.lane < 256)
}

fn have_times(packets: &[Packet]) -> bool
    ensures { IsTrue result ↔ All (λ (p : Packet). IsTrue (is_near p.time)) packets.now }
{
    packets.iter().all(|packet| -FARTHEST <= packet.time && packet.time <= FARTHEST)
}

fn are_small(packets: &[Packet]) -> bool
    ensures { IsTrue result ↔ (sum_by (λ (p : Packet). length p.body) packets.now ≤ 67108864) }
{
    let mut left = LARGEST_BLOCK;
    for packet in packets {
        let size = packet.body.len() as u64;
        if size > left {
            return false;
        }
        left -= size;
    }
    true
}
