ghost use Rattle.std.specs.Prelude.{◌≡◌, ◌+◌, ◌≤◌, ◌<◌, drop, length};
ghost use Rattle.std.specs.List.{list_any};
ghost use Rattle.mc_queue.specs.Queue.{first_that, is_sync, last_that};
ghost use Rattle.mc_queue.specs.Blocks.{AreBlocks, block_at, bound, flat};
ghost use Rattle.mc_queue.specs.Wants.{has_wanted, wanted};

use crate::block::Block;
use crate::blocks::Blocks;
use crate::kept::Summary;
use crate::steps::Steps;
use mc_packet::{Packet, Pos};
use std::sync::ledger::{Blank, Ledger};

/// Which sync points a look-up asks for, by their time in nanoseconds.
#[derive(Clone, Copy, Debug, PartialEq, Eq)]
pub(crate) enum Want {
    /// Any.
    Any,
    /// Those with a time of at most this one.
    Upto(i64),
    /// Those with a time of at least this one.
    From(i64),
    /// Those with a time below this one.
    Before(i64),
}

fn wanted(want: Want, packet: &Packet) -> bool
    ensures { result ≡ wanted want packet.now }
{
    match want {
        Want::Any => packet.sync,
        Want::Upto(t) => packet.sync && packet.time <= t,
        Want::From(t) => packet.sync && t <= packet.time,
        Want::Before(t) => packet.sync && packet.time < t,
    }
}

/// Whether a block has one, by its summary.
fn has_wanted(want: Want, summary: Summary) -> bool
    ensures { result ≡ has_wanted want summary }
{
    match (want, summary.least, summary.most) {
        (Want::Any, Some(_), _) => true,
        (Want::Upto(t), Some(least), _) => least <= t,
        (Want::From(t), _, Some(most)) => t <= most,
        (Want::Before(t), Some(least), _) => least < t,
        _ => false,
    }
}

/// The last such sync point of a block.
fn last_in<L: Ledger>(
    block: &Block<'_>,
    count: u32,
    want: Want,
    steps: &mut Steps<L>,
) -> Option<Pos>
    requires { count ≡ length block.now }
    ensures value { result ≡ last_that (wanted want) block.now }
    ensures cost { steps.new ≤ steps.old + length block.now }
{
    let mut at = count;
    while at > 0 {
        at -= 1;
        let packet = block.packet(at, steps);
        if wanted(want, packet) {
            return Some(packet.pos);
        }
    }
    None
}

/// The first such sync point of a block from an index on.
fn first_in<L: Ledger>(
    block: &Block<'_>,
    from: u32,
    count: u32,
    want: Want,
    steps: &mut Steps<L>,
) -> Option<Pos>
    requires count { count ≡ length block.now }
    requires within { from ≤ count }
    ensures value { result ≡ first_that (wanted want) (drop from block.now) }
    ensures cost { steps.new ≤ steps.old + length block.now }
{
    for at in from..count {
        let packet = block.packet(at, steps);
        if wanted(want, packet) {
            return Some(packet.pos);
        }
    }
    None
}

/// The last such sync point. Blocks are asked by their summaries, the last first.
pub(crate) fn last_of<L: Ledger>(blocks: &Blocks, want: Want, steps: &mut Steps<L>) -> Option<Pos>
    ensures value { result ≡ last_that (wanted want) blocks.now.packets }
    ensures cost { steps.new ≤ steps.old + bound (length blocks.now.packets) }
{
    let mut at = blocks.count();
    while at > 0 {
        at -= 1;
        let last = blocks.block(at);
        let summary = last.summary(steps);
        if has_wanted(want, summary) {
            return last_in(&last, summary.count, want, steps);
        }
    }
    None
}

/// The first such sync point from a block on.
fn first_from<L: Ledger>(
    blocks: &Blocks,
    from: usize,
    want: Want,
    steps: &mut Steps<L>,
) -> Option<Pos>
    ensures value { result ≡ first_that (wanted want) (flat (drop from blocks.now.blocks)) }
    ensures blocks { AreBlocks blocks.now }
    ensures cost { steps.new ≤ steps.old + bound (length blocks.now.packets) }
{
    for at in from..blocks.count() {
        let block = blocks.block(at);
        let summary = block.summary(steps);
        if has_wanted(want, summary) {
            return first_in(&block, 0, summary.count, want, steps);
        }
    }
    None
}

/// The first such sync point.
pub(crate) fn first_of<L: Ledger>(blocks: &Blocks, want: Want, steps: &mut Steps<L>) -> Option<Pos>
    ensures value { result ≡ first_that (wanted want) blocks.now.packets }
    ensures cost { steps.new ≤ steps.old + bound (length blocks.now.packets) }
{
    first_from(blocks, 0, want, steps)
}

/// Whether there is such a sync point. Summaries alone are read, the last first.
pub(crate) fn any_of<L: Ledger>(blocks: &Blocks, want: Want, steps: &mut Steps<L>) -> bool
    ensures value { result ≡ list_any (wanted want) blocks.now.packets }
    ensures cost { steps.new ≤ steps.old + bound (length blocks.now.packets) }
{
    let mut at = blocks.count();
    while at > 0 {
        at -= 1;
        if has_wanted(want, blocks.block(at).summary(steps)) {
            return true;
        }
    }
    false
}

/// The first sync point behind the first packet.
pub(crate) fn next_sync<L: Ledger>(blocks: &Blocks, steps: &mut Steps<L>) -> Option<Pos>
    ensures { result ≡ first_that is_sync (drop 1 blocks.now.packets) }
{
    if blocks.count() == 0 {
        return None;
    }
    let first = blocks.block(0);
    let count = first.summary(steps).count;
    match first_in(&first, 1, count, Want::Any, steps) {
        Some(place) => Some(place),
        None => first_from(blocks, 1, Want::Any, steps),
    }
}

// ---- with no count

/// The last such sync point, with a count that begins here and is let go.
pub(crate) fn last_wanted<L: Ledger>(blocks: &Blocks, want: Want, blank: Blank) -> Option<Pos>
    requires name { blank.name ≡ L.name }
    requires parts { blank.parts ≡ L.parts }
    requires some { 0 < L.parts }
    ensures { result ≡ last_that (wanted want) blocks.now.packets }
{
    last_of(blocks, want, &mut Steps::<L>::new(blank))
}

/// The first such sync point, so too.
pub(crate) fn first_wanted<L: Ledger>(blocks: &Blocks, want: Want, blank: Blank) -> Option<Pos>
    requires name { blank.name ≡ L.name }
    requires parts { blank.parts ≡ L.parts }
    requires some { 0 < L.parts }
    ensures { result ≡ first_that (wanted want) blocks.now.packets }
{
    first_of(blocks, want, &mut Steps::<L>::new(blank))
}

/// Whether there is such a sync point, so too.
pub(crate) fn is_any_wanted<L: Ledger>(blocks: &Blocks, want: Want, blank: Blank) -> bool
    requires name { blank.name ≡ L.name }
    requires parts { blank.parts ≡ L.parts }
    requires some { 0 < L.parts }
    ensures { result ≡ list_any (wanted want) blocks.now.packets }
{
    any_of(blocks, want, &mut Steps::<L>::new(blank))
}

/// The first sync point behind the first packet, so too.
pub(crate) fn next_wanted<L: Ledger>(blocks: &Blocks, blank: Blank) -> Option<Pos>
    requires name { blank.name ≡ L.name }
    requires parts { blank.parts ≡ L.parts }
    requires some { 0 < L.parts }
    ensures { result ≡ first_that is_sync (drop 1 blocks.now.packets) }
{
    next_sync(blocks, &mut Steps::<L>::new(blank))
}
