ghost use Rattle.std.specs.Prelude.{◌≡◌, ◌+◌, ◌-◌, ◌*◌, ◌<◌, ◌≤◌, ◌^◌, ◌++◌, ◌∷◌, List, [], drop, false, length, slice_index_or, take, IfSome, OnErr, OnOk};
ghost use Rattle.std.specs.Option.{option_copied};
ghost use Rattle.std.specs.VecDeque.{deque_capacity, deque_len};
ghost use Rattle.mc_journal.specs.Films.{rank};
ghost use Rattle.mc_queue.specs.Places.{DropsFirst, behind, outside, weight_of, weight_outside, weights};
ghost use Rattle.mc_queue.specs.Union.{joined};
ghost use Rattle.mc_queue.specs.Queue.{first_of};
ghost use Rattle.mc_queue.specs.Differences.{differ_from};
ghost use Rattle.mc_queue.specs.declared.kept.Kept.{Kept};
ghost use Rattle.mc_queue.specs.Blocks.{AreBlocks, FitsIn, IsAdded, Stands, block_at, is_open, stand_before};

use crate::block::Block;
use crate::differences::{Difference, compare};
use crate::kept::{Kept, grown, of_one, without};
use crate::merging::{count_outside, merge, weight_outside};
use crate::parts::add_behind;
use crate::place::{is_before, weight_of};
use crate::steps::Steps;
use mc_packet::{NoMemory, Packet, Packets, Pos};
use std::alloc::Global;
use std::collections::VecDeque;
use std::marker::Model;
use std::sync::ledger::Ledger;

/// How many packets a block has that is neither the first nor the last.
const FULL: u32 = 256;

/// Packets in blocks: in one ring in file order, and beside it what is kept of each block. Each
/// block but the first and the last has exactly 256 packets, and no block is empty.
#[derive(Drop)]
pub(crate) struct Blocks {
    // Written by whatever adds or drops packets, both together.
    packets: VecDeque<Packet>,
    kept: VecDeque<Kept>,
    // How many packets both have room for, written by `reserve`.
    room: usize,
}

impl Model for Blocks {
    ghost use Rattle.std.specs.Prelude.{◌-◌};
    ghost use Rattle.std.specs.VecDeque.{deque_capacity, deque_len};
    ghost use Rattle.mc_queue.specs.Blocks.{BlocksState, HasRoom, Stands, parts};

    ghost Value = { BlocksState };

    ghost view = { λ b. record {
      packets = b.packets.items;
      blocks = parts b.kept.items b.packets.items;
      spare = b.room - deque_len b.packets;
    } };

    ghost invariant = { λ b. Stands b.kept.items b.packets.items
        × HasRoom b.room (deque_len b.packets) (deque_capacity b.packets) (deque_capacity b.kept) };
}

/// Lets the last block take a packet that was put behind the others, or begins a block with it.
#[tactic(auto, using(crate::proofs::Filling::open_last))]
fn add_to(kept: &mut VecDeque<Kept>, packet: &Packet)
    requires fits { FitsIn packet.now kept.old.items }
    requires room { is_open kept.old.items ≡ false → deque_len kept.old < deque_capacity kept.old }
    ensures items { IsAdded packet.now kept.old.items kept.new.items }
    ensures capacity { deque_capacity kept.new ≡ deque_capacity kept.old }
{
    match kept.pop_back() {
        Some(last) if last.count < FULL => kept.push_back_reserved(grown(packet, last)),
        Some(last) => {
            kept.push_back_reserved(last);
            kept.push_back_reserved(of_one(packet));
        }
        None => kept.push_back_reserved(of_one(packet)),
    }
}

/// Packs the packets from an index on into blocks, behind those in front of it.
#[tactic(auto, using(crate::proofs::Packing::packed_on, crate::proofs::Packing::room_on, crate::proofs::Packing::fits_on))]
fn pack(kept: &mut VecDeque<Kept>, packets: &VecDeque<Packet>, from: usize)
    requires stands { Stands kept.old.items (take from packets.now.items) }
    requires within { from ≤ length packets.now.items }
    requires fits { weights packets.now.items < 2 ^ 64 }
    requires room { length packets.now.items ≤ 256 * (deque_capacity kept.old - 2) }
    ensures stands { Stands kept.new.items packets.now.items }
    ensures capacity { deque_capacity kept.new ≡ deque_capacity kept.old }
{
    for i in from..packets.len() {
        add_to(kept, &packets[i]);
    }
}

/// Takes what is kept of the first packet, which went, from the first block.
#[tactic(auto, using(crate::proofs::Filling::front_is, crate::proofs::Filling::stays, crate::proofs::Filling::goes))]
fn drop_from(kept: &mut VecDeque<Kept>, gone: &Packet, left: &VecDeque<Packet>)
    requires stands { Stands kept.old.items (gone.now ∷ left.now.items) }
    ensures stands { Stands kept.new.items left.now.items }
    ensures capacity { deque_capacity kept.new ≡ deque_capacity kept.old }
{
    if let Some(first) = kept.pop_front() {
        if first.count > 1 {
            kept.push_front_reserved(without(first, gone, left, first.count - 1));
        }
    }
}

/// How many packets stand in front of a block.
#[tactic(auto, using(crate::proofs::Packing::begins))]
fn begin(kept: &VecDeque<Kept>, packets: &VecDeque<Packet>, at: usize) -> usize
    requires stands { Stands kept.now.items packets.now.items }
    requires within { at < length kept.now.items }
    ensures { result ≡ stand_before at kept.now.items }
{
    if at == 0 {
        0
    } else {
        kept[0].count as usize + FULL as usize * (at - 1)
    }
}

/// The block that begins at an index, if one does.
fn block_from(kept: &VecDeque<Kept>, packets: &VecDeque<Packet>, index: usize) -> Option<usize>
    requires stands { Stands kept.now.items packets.now.items }
    ensures { IfSome result (λ at.
        (at < length kept.now.items) × (stand_before at kept.now.items ≡ index)) }
{
    let first = kept.front()?.count as usize;
    let at = if index < first {
        0
    } else {
        (index - first) / FULL as usize + 1
    };
    if at < kept.len() && begin(kept, packets, at) == index {
        Some(at)
    } else {
        None
    }
}

impl Blocks {
    /// No packets.
    pub(crate) fn new(alloc: Global) -> Blocks
        ensures { result.packets ≡ [] }
    {
        Blocks {
            packets: VecDeque::new(alloc),
            kept: VecDeque::new(alloc),
            room: 0,
        }
    }

    /// The number of packets.
    pub(crate) fn len(&self) -> usize
        ensures { result ≡ length self.now.packets }
    {
        self.packets.len()
    }

    /// The number of blocks.
    pub(crate) fn count(&self) -> usize
        ensures value { result ≡ length self.now.blocks }
        ensures blocks { AreBlocks self.now }
    {
        self.kept.len()
    }

    /// A block.
    pub(crate) fn block(&self, at: usize) -> Block<'_>
        requires { at < length self.now.blocks }
        ensures { result ≡ block_at at self.now.blocks }
    {
        let start = begin(&self.kept, &self.packets, at);
        Block::new(&self.kept[at], &self.packets, start)
    }

    /// The first packet.
    pub(crate) fn first(&self) -> Option<&Packet>
        ensures { option_copied result ≡ first_of self.now.packets }
    {
        self.packets.front()
    }

    /// The packet at an index among all. One step.
    pub(crate) fn packet_at<L: Ledger>(&self, at: usize, steps: &mut Steps<L>) -> &Packet
        requires { at < length self.now.packets }
        ensures value { result.now ≡ slice_index_or self.now.packets at result.now }
        ensures cost { steps.new ≡ steps.old + 1 }
    {
        steps.tick();
        &self.packets[at]
    }

    /// The weight of the packets from one index up to another, which is given too: of a whole block
    /// where one begins there and ends at `to` or in front of it, else of one packet. One step.
    pub(crate) fn stride<L: Ledger>(
        &self,
        at: usize,
        to: usize,
        steps: &mut Steps<L>,
    ) -> (u64, usize)
        requires order { at < to }
        requires within { to ≤ length self.now.packets }
        ensures on { (at < result.1) × (result.1 ≤ to) }
        ensures value { result.0 + weights (drop result.1 self.now.packets)
            ≡ weights (drop at self.now.packets) }
        ensures cost { steps.new ≡ steps.old + 1 }
    {
        steps.tick();
        if let Some(block) = block_from(&self.kept, &self.packets, at) {
            let kept = &self.kept[block];
            if kept.count as usize <= to - at {
                return (kept.weight, at + kept.count as usize);
            }
        }
        (weight_of(&self.packets[at]), at + 1)
    }

    /// Makes room for so many more packets, and at least for as many again as there are where there
    /// is too little, so that a queue that grows step by step is seldom moved. `NoMemory` comes only
    /// where there was too little room, and nothing is then changed.
    pub(crate) fn reserve(&mut self, more: usize) -> Result<(), NoMemory>
        ensures packets { self.new.packets ≡ self.old.packets }
        ensures ok { OnOk result (more ≤ self.new.spare) }
        ensures err { OnErr result ((self.new ≡ self.old) × (self.old.spare < more)) }
        ensures roomier { self.old.spare ≤ self.new.spare }
    {
        let len = self.packets.len();
        if more <= self.room - len {
            return Ok(());
        }
        let added = if more < len { len } else { more };
        let blocks = len / FULL as usize + added / FULL as usize + 4;
        self.kept
            .reserve_exact(blocks.saturating_sub(self.kept.len()))?;
        self.packets.reserve_exact(added)?;
        self.room = len + added;
        Ok(())
    }

    /// Puts packets behind the others. `NoMemory` comes only where there was less room than packets,
    /// and nothing is then changed.
    pub(crate) fn append(&mut self, packets: Packets) -> Result<(), NoMemory>
        requires fits { weights self.old.packets + weights packets < 2 ^ 64 }
        ensures ok { OnOk result (self.new.packets ≡ self.old.packets ++ packets) }
        ensures room_used { OnOk result (self.old.spare ≤ self.new.spare + length packets) }
        ensures err { OnErr result ((self.new ≡ self.old) × (self.old.spare < length packets)) }
    {
        self.reserve(packets.len())?;
        let from = self.packets.len();
        add_behind(&mut self.packets, packets);
        pack(&mut self.kept, &self.packets, from);
        Ok(())
    }

    /// Drops the first packet if it stands before the place, and gives its weight.
    pub(crate) fn drop_first(&mut self, cut: Pos) -> Option<u64>
        ensures value { DropsFirst (rank cut) self.old.packets self.new.packets result }
        ensures roomier { self.old.spare ≤ self.new.spare }
    {
        if !is_before(self.packets.front()?.pos, cut) {
            return None;
        }
        let gone = self.packets.pop_front()?;
        drop_from(&mut self.kept, &gone, &self.packets);
        Some(weight_of(&gone))
    }

    // ---- with another list

    /// Where two lists first differ between two places.
    pub(crate) fn compare(&self, other: &Blocks, from: Pos, to: Pos) -> Option<Difference>
        ensures { result ≡ differ_from (rank from) (rank to) self.now.packets other.now.packets }
    {
        compare(&self.packets, &other.packets, from, to)
    }

    /// How many packets stand before one place, or at another or behind it.
    pub(crate) fn count_outside(&self, from: Pos, to: Pos) -> usize
        requires order { rank from ≤ rank to }
        ensures { result ≡ outside (rank from) (rank to) self.now.packets }
    {
        count_outside(&self.packets, from, to)
    }

    /// What they weigh.
    pub(crate) fn weight_outside(&self, from: Pos, to: Pos) -> u64
        requires order { rank from ≤ rank to }
        requires fits { weights self.now.packets < 2 ^ 64 }
        ensures { result ≡ weight_outside (rank from) (rank to) self.now.packets }
    {
        weight_outside(&self.packets, from, to)
    }

    /// Moves another list's packets before one place in front of these, and those at another place
    /// or behind it behind these, into the room that there is, and packs all anew. The other's go.
    pub(crate) fn absorb(&mut self, other: &mut Blocks, from: Pos, to: Pos)
        requires order { rank from ≤ rank to }
        requires room { outside (rank from) (rank to) other.old.packets ≤ self.old.spare }
        requires fits { weights (joined (rank from) (rank to) self.old.packets other.old.packets)
            < 2 ^ 64 }
        ensures items { self.new.packets
            ≡ joined (rank from) (rank to) self.old.packets other.old.packets }
        ensures room_used { self.old.spare
            ≤ self.new.spare + outside (rank from) (rank to) other.old.packets }
        ensures none_left { other.new.packets ≡ [] }
    {
        merge(&mut self.packets, &mut other.packets, from, to);
        other.kept.clear();
        self.kept.clear();
        pack(&mut self.kept, &self.packets, 0);
    }
}

/// Drops the packets in front that stand before a place, and gives their weight.
pub(crate) fn drop_before(blocks: &mut Blocks, cut: Pos) -> u64
    requires fits { weights blocks.old.packets < 2 ^ 64 }
    ensures items { blocks.new.packets ≡ behind (rank cut) blocks.old.packets }
    ensures weight { result + weights blocks.new.packets ≡ weights blocks.old.packets }
    ensures roomier { blocks.old.spare ≤ blocks.new.spare }
{
    let mut dropped = 0;
    while let Some(weight) = blocks.drop_first(cut) {
        dropped += weight;
    }
    dropped
}
