ghost use Rattle.std.specs.Prelude.{◌≡◌, ◌+◌, ◌-◌, ◌<◌, ◌≤◌, ◌^◌, nat_le, if◌then◌else◌, drop, length};
ghost use Rattle.std.specs.List.Sorted.{IsPartitionedBy};
ghost use Rattle.mc_journal.specs.Films.{rank};
ghost use Rattle.mc_journal.specs.Views.{from_place};
ghost use Rattle.mc_queue.specs.Places.{is_before, weights};

use crate::blocks::Blocks;
use crate::lookups::index_at;
use crate::place::{is_at, is_before};
use crate::steps::Steps;
use mc_packet::Pos;
use std::sync::ledger::{Blank, Ledger};

/// The index from which on packets stand at a place or behind it.
#[tactic(auto, using(crate::proofs::Rests::rest_is))]
fn rest_at<L: Ledger>(blocks: &Blocks, head: Pos, steps: &mut Steps<L>) -> usize
    requires parted { IsPartitionedBy (is_before (rank head)) blocks.now.packets }
    ensures value { drop result blocks.now.packets ≡ from_place (rank head) blocks.now.packets }
    ensures within { result ≤ length blocks.now.packets }
{
    index_at(blocks, head, steps)
}

/// The weight of the packets from one index up to another: block by block where whole ones stand
/// between them.
#[tactic(auto, using(crate::proofs::Rests::rest_within))]
fn weight_between<L: Ledger>(blocks: &Blocks, from: usize, to: usize, steps: &mut Steps<L>) -> u64
    requires order { from ≤ to }
    requires within { to ≤ length blocks.now.packets }
    requires fits { weights blocks.now.packets < 2 ^ 64 }
    ensures { result + weights (drop to blocks.now.packets)
        ≡ weights (drop from blocks.now.packets) }
{
    let mut weight = 0;
    let mut at = from;
    while at < to {
        let (more, next) = blocks.stride(at, to, steps);
        weight += more;
        at = next;
    }
    weight
}

/// The weight of the packets at a place or behind it, by whole blocks but for the one with the
/// place.
pub(crate) fn weight_behind<L: Ledger>(blocks: &Blocks, head: Pos, blank: Blank) -> u64
    requires parted { IsPartitionedBy (is_before (rank head)) blocks.now.packets }
    requires fits { weights blocks.now.packets < 2 ^ 64 }
    requires name { blank.name ≡ L.name }
    requires parts { blank.parts ≡ L.parts }
    requires some { 0 < L.parts }
    ensures { result ≡ weights (from_place (rank head) blocks.now.packets) }
{
    let mut steps = Steps::<L>::new(blank);
    let at = rest_at(blocks, head, &mut steps);
    weight_between(blocks, at, blocks.len(), &mut steps)
}

/// What the packets from a place on weigh, where those from another on weigh `ahead`. Of those
/// between the two whole blocks are not walked.
#[tactic(auto, using(crate::proofs::Rests::rest_within))]
pub(crate) fn weight_moved<L: Ledger>(
    blocks: &Blocks,
    from: Pos,
    ahead: u64,
    head: Pos,
    blank: Blank,
) -> u64
    requires parted { IsPartitionedBy (is_before (rank from)) blocks.now.packets }
    requires head_parted { IsPartitionedBy (is_before (rank head)) blocks.now.packets }
    requires fits { weights blocks.now.packets < 2 ^ 64 }
    requires ahead { ahead ≡ weights (from_place (rank from) blocks.now.packets) }
    requires name { blank.name ≡ L.name }
    requires parts { blank.parts ≡ L.parts }
    requires some { 0 < L.parts }
    ensures { result ≡ weights (from_place (rank head) blocks.now.packets) }
{
    let mut steps = Steps::<L>::new(blank);
    let old = rest_at(blocks, from, &mut steps);
    let new = rest_at(blocks, head, &mut steps);
    if new <= old {
        ahead + weight_between(blocks, new, old, &mut steps)
    } else {
        ahead - weight_between(blocks, old, new, &mut steps)
    }
}

/// What the packets from a place on weigh when those before a cut are dropped and the others, of
/// this weight, are looked at from the cut at the earliest.
pub(crate) fn ahead_after(look: Pos, ahead: u64, cut: Pos, weight: u64) -> u64
    ensures { result ≡ (if nat_le (rank look) (rank cut) then weight else ahead) }
{
    if is_before(cut, look) { ahead } else { weight }
}
