ghost use Rattle.std.specs.Prelude.{◌≡◌, ◌+◌, ◌<◌, ◌≤◌, false, true, None, length};
ghost use Rattle.mc_packet.specs.declared.choice.Dir.TheVariants.{Back};
ghost use Rattle.mc_queue.specs.Queue.{is_sync};
ghost use Rattle.mc_queue.specs.Times.{IsNearest, comes_first, is_past, is_wanted};
ghost use Rattle.mc_queue.specs.Blocks.{any_packet, extreme, farthest, foremost, passes};

use crate::block::Block;
use crate::blocks::Blocks;
use crate::kept::{Summary, first_two, time_if};
use crate::steps::Steps;
use mc_packet::{Dir, Packet};
use std::sync::ledger::{Blank, Ledger};

pub(crate) fn comes_first(dir: Dir, a: i64, b: i64) -> bool
    ensures { result ≡ comes_first dir a b }
{
    match dir {
        Dir::Forward => a <= b,
        Dir::Back => b <= a,
    }
}

fn is_past(dir: Dir, past: Option<i64>, time: i64) -> bool
    ensures { result ≡ is_past dir past time }
{
    match past {
        Some(t) => !comes_first(dir, time, t),
        None => true,
    }
}

/// Whether there is a time, and it lies past another.
fn lies_past(dir: Dir, past: Option<i64>, time: Option<i64>) -> bool
    ensures { result ≡ passes (is_past dir past) time }
{
    match time {
        Some(time) => is_past(dir, past, time),
        None => false,
    }
}

fn is_wanted(dir: Dir, past: Option<i64>, packet: &Packet) -> bool
    ensures { result ≡ is_wanted dir false past packet.now }
{
    packet.sync && is_past(dir, past, packet.time)
}

/// Of a block's sync points the time that comes first on the way.
fn foremost(dir: Dir, summary: Summary) -> Option<i64>
    ensures { result ≡ foremost dir summary }
{
    match dir {
        Dir::Forward => summary.least,
        Dir::Back => summary.most,
    }
}

/// And the one that comes last.
fn farthest(dir: Dir, summary: Summary) -> Option<i64>
    ensures { result ≡ farthest dir summary }
{
    match dir {
        Dir::Forward => summary.most,
        Dir::Back => summary.least,
    }
}

/// The time of a block's sync points past another that comes first on the way. All are walked.
#[tactic(auto, using(crate::proofs::Extremes::one_more))]
fn nearest_walked<L: Ledger>(
    block: &Block<'_>,
    count: u32,
    dir: Dir,
    past: Option<i64>,
    steps: &mut Steps<L>,
) -> Option<i64>
    requires { count ≡ length block.now }
    ensures { result ≡ extreme dir (is_wanted dir false past) block.now }
{
    let mut best = None;
    for i in 0..count {
        let packet = block.packet(i, steps);
        let time = time_if(is_wanted(dir, past, packet), packet);
        best = first_two(dir, best, time);
    }
    best
}

/// The same, by the block's summary where the times of its sync points lie all past the other, or
/// none does.
#[tactic(auto, using(crate::proofs::Nearest::all_past, crate::proofs::Nearest::none_past))]
fn nearest_in<L: Ledger>(
    block: &Block<'_>,
    dir: Dir,
    past: Option<i64>,
    steps: &mut Steps<L>,
) -> Option<i64>
    ensures { result ≡ extreme dir (is_wanted dir false past) block.now }
{
    let summary = block.summary(steps);
    let first = foremost(dir, summary);
    if lies_past(dir, past, first) {
        first
    } else if lies_past(dir, past, farthest(dir, summary)) {
        nearest_walked(block, summary.count, dir, past, steps)
    } else {
        None
    }
}

/// The time of the sync points past another that comes first on the way.
#[tactic(auto, using(crate::proofs::Nearest::block_more, crate::proofs::Nearest::nearest_is))]
pub(crate) fn nearest<L: Ledger>(
    blocks: &Blocks,
    dir: Dir,
    past: Option<i64>,
    blank: Blank,
) -> Option<i64>
    requires name { blank.name ≡ L.name }
    requires parts { blank.parts ≡ L.parts }
    requires some { 0 < L.parts }
    ensures { IsNearest dir (is_wanted dir false past) blocks.now.packets result }
{
    let mut steps = Steps::<L>::new(blank);
    let mut best = None;
    for at in 0..blocks.count() {
        best = first_two(
            dir,
            best,
            nearest_in(&blocks.block(at), dir, past, &mut steps),
        );
    }
    best
}

/// The greatest time of all packets.
#[tactic(auto, using(crate::proofs::Nearest::block_more, crate::proofs::Nearest::greatest_is))]
pub(crate) fn greatest<L: Ledger>(blocks: &Blocks, blank: Blank) -> Option<i64>
    requires name { blank.name ≡ L.name }
    requires parts { blank.parts ≡ L.parts }
    requires some { 0 < L.parts }
    ensures { IsNearest Back (is_wanted Back true None) blocks.now.packets result }
{
    let mut steps = Steps::<L>::new(blank);
    let mut best = None;
    for at in 0..blocks.count() {
        best = first_two(Dir::Back, best, blocks.block(at).greatest(&mut steps));
    }
    best
}
