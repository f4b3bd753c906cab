ghost use Rattle.std.specs.Prelude.{◌≡◌, ◌+◌, ◌<◌, ◌≤◌, drop, length, slice_index_or, take};
ghost use Rattle.mc_packet.specs.declared.choice.Dir.TheVariants.{Back};
ghost use Rattle.mc_queue.specs.Blocks.{IsOf, any_packet, extreme, summary_of};

use crate::kept::{Kept, Summary};
use crate::steps::Steps;
use mc_packet::Packet;
use std::collections::VecDeque;
use std::marker::Model;
use std::sync::ledger::Ledger;

/// A block of a queue: 256 of its packets, or fewer where it is the first or the last, and what is
/// kept of them. It is a view of the queue's; contracts see it as its list of packets. The readings
/// below are the only ways to it, and each adds one step.
#[derive(Drop)]
pub struct Block<'a> {
    // What is kept of it; all packets of the queue; and how many of these stand in front of it.
    // They are written where the view is made.
    kept: &'a Kept,
    packets: &'a VecDeque<Packet>,
    start: usize,
}

impl<'a> Model for Block<'a> {
    ghost use Rattle.std.specs.Prelude.{◌≤◌, List, take, drop, length};
    ghost use Rattle.mc_packet.specs.declared.packet.Packet.{Packet};
    ghost use Rattle.mc_queue.specs.Blocks.{IsOf};

    ghost Value = { List Packet };

    ghost view = { λ b. take b.kept.now.count (drop b.start b.packets.now.items) };

    ghost invariant = { λ b. IsOf b.kept.now
        (take b.kept.now.count (drop b.start b.packets.now.items))
        × (b.kept.now.count ≤ 256) };
}

impl<'a> Block<'a> {
    /// The block of so many packets as are kept of, behind others.
    pub(crate) fn new(kept: &'a Kept, packets: &'a VecDeque<Packet>, start: usize) -> Block<'a>
        requires is { IsOf kept.now (take kept.now.count (drop start packets.now.items)) }
        requires few { kept.now.count ≤ 256 }
        ensures { result ≡ take kept.now.count (drop start packets.now.items) }
    {
        Block {
            kept,
            packets,
            start,
        }
    }

    /// What it tells of its packets. One step.
    pub fn summary<L: Ledger>(&self, steps: &mut Steps<L>) -> Summary
        ensures value { result ≡ summary_of self.now }
        ensures cost { steps.new ≡ steps.old + 1 }
        ensures few { length self.now ≤ 256 }
    {
        steps.tick();
        Summary {
            weight: self.kept.weight,
            least: self.kept.least,
            most: self.kept.most,
            count: self.kept.count,
        }
    }

    /// The greatest time of its packets, in nanoseconds. One step.
    pub fn greatest<L: Ledger>(&self, steps: &mut Steps<L>) -> Option<i64>
        ensures value { result ≡ extreme Back any_packet self.now }
        ensures cost { steps.new ≡ steps.old + 1 }
    {
        steps.tick();
        self.kept.greatest
    }

    /// One of its packets. One step.
    #[tactic(auto, using(crate::proofs::Packing::index_in, crate::proofs::Packing::packet_in))]
    pub fn packet<L: Ledger>(&self, i: u32, steps: &mut Steps<L>) -> &Packet
        requires { i < length self.now }
        ensures value { result.now ≡ slice_index_or self.now i result.now }
        ensures cost { steps.new ≡ steps.old + 1 }
    {
        steps.tick();
        &self.packets[self.start + i as usize]
    }
}
