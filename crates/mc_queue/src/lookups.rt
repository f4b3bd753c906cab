ghost use Rattle.std.specs.Prelude.{◌≡◌, ◌+◌, ◌-◌, ◌/◌, ◌≤◌, ◌<◌, length, min};
ghost use Rattle.std.specs.List.{find};
ghost use Rattle.std.specs.List.Sorted.{IsPartitionedBy};
ghost use Rattle.std.specs.Option.{option_copied};
ghost use Rattle.mc_journal.specs.Films.{rank};
ghost use Rattle.mc_queue.specs.Places.{IsIndexAt, is_before, is_from};
ghost use Rattle.mc_queue.specs.Queue.{place_or};
ghost use Rattle.mc_queue.specs.Blocks.{bound, halving_bound};

use crate::blocks::Blocks;
use crate::place::is_before;
use crate::steps::Steps;
use mc_packet::{Packet, Pos};
use std::sync::ledger::{Blank, Ledger};

/// How many packets at the end are looked at one by one, before a place is found by halving.
const NEAR: usize = 4;

/// Where the next packet is looked at: near the end, or half way.
fn probe(low: usize, high: usize, near: usize) -> usize
    requires order { low < high }
    ensures within { (low ≤ result) × (result < high) }
    ensures half { near ≡ 0 → result ≡ low + (high - low) / 2 }
{
    if near > 0 {
        high - 1
    } else {
        low + (high - low) / 2
    }
}

/// The index from which on packets stand at a place or behind it. The last packets are tried first,
/// since a reader that reads what was just fed is there; then it is found by halving.
pub(crate) fn index_at<L: Ledger>(blocks: &Blocks, head: Pos, steps: &mut Steps<L>) -> usize
    requires parted { IsPartitionedBy (is_before (rank head)) blocks.now.packets }
    ensures value { IsIndexAt (rank head) result blocks.now.packets }
    ensures within { result ≤ length blocks.now.packets }
    ensures cost { steps.new ≤ steps.old + halving_bound (length blocks.now.packets) }
{
    let (mut low, mut high) = (0, blocks.len());
    let mut near = NEAR;
    while low < high {
        let mid = probe(low, high, near);
        near = near.saturating_sub(1);
        if is_before(blocks.packet_at(mid, steps).pos, head) {
            low = mid + 1;
        } else {
            high = mid;
        }
    }
    low
}

/// The first packet at or behind a place.
pub(crate) fn find_first<'a, L: Ledger>(
    blocks: &'a Blocks,
    head: Pos,
    steps: &mut Steps<L>,
) -> Option<&'a Packet>
    requires parted { IsPartitionedBy (is_before (rank head)) blocks.now.packets }
    ensures value { option_copied result ≡ find (is_from (rank head)) blocks.now.packets }
    ensures cost { steps.new ≤ steps.old + bound (length blocks.now.packets) }
{
    let at = index_at(blocks, head, steps);
    if at < blocks.len() {
        Some(blocks.packet_at(at, steps))
    } else {
        None
    }
}

/// The same, with a count that begins here and is let go.
pub(crate) fn first_at<L: Ledger>(blocks: &Blocks, head: Pos, blank: Blank) -> Option<&Packet>
    requires parted { IsPartitionedBy (is_before (rank head)) blocks.now.packets }
    requires name { blank.name ≡ L.name }
    requires parts { blank.parts ≡ L.parts }
    requires some { 0 < L.parts }
    ensures { option_copied result ≡ find (is_from (rank head)) blocks.now.packets }
{
    find_first(blocks, head, &mut Steps::<L>::new(blank))
}

pub(crate) fn place_or(end: Pos, place: Option<Pos>) -> Pos
    ensures { result ≡ place_or end place }
{
    match place {
        Some(place) => place,
        None => end,
    }
}
