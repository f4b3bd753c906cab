ghost use Rattle.std.specs.Prelude.{◌≡◌, ◌+◌, ◌≤◌, length, drop};
ghost use Rattle.std.specs.Option.{option_copied};
ghost use Rattle.mc_journal.specs.Films.{rank};
ghost use Rattle.mc_queue.specs.Places.{before};
ghost use Rattle.mc_journal.specs.Views.{from_place};
ghost use Rattle.mc_queue.specs.Differences.{are_same, differ_from, head_by, head_upto, of_two, only_other, only_ours, told_of};

use crate::merging::count_before;
use crate::place::{is_at, is_before};
use mc_packet::{Packet, Pos};
use std::collections::VecDeque;

/// The first place at which two queues differ, and the time of the packet that each has there.
#[derive(Clone, Copy, Debug, PartialEq, Eq)]
pub struct Difference {
    /// The first place at which only one has a packet, or each one of another time.
    pub pos: Pos,
    /// The time of the own packet there in nanoseconds, if there is one.
    pub ours: Option<i64>,
    /// The time of the other's.
    pub other: Option<i64>,
}

/// The place and time of the packet at an index, if it stands before the end.
#[tactic(auto, using(crate::proofs::Comparing::head_is))]
fn at_before(packets: &VecDeque<Packet>, at: usize, end: Pos) -> Option<(Pos, i64)>
    ensures { result ≡ head_upto (rank end) (drop at packets.now.items) }
{
    head_by(packets.get(at), end)
}

fn head_by(packet: Option<&Packet>, end: Pos) -> Option<(Pos, i64)>
    ensures { result ≡ head_by (rank end) (option_copied packet.entry) }
{
    match packet {
        Some(p) if is_before(p.pos, end) => Some((p.pos, p.time)),
        _ => None,
    }
}

/// Both are packets, at one place and with one time.
fn are_same(ours: Option<(Pos, i64)>, other: Option<(Pos, i64)>) -> bool
    ensures { result ≡ are_same ours other }
{
    match (ours, other) {
        (Some((p, time)), Some((q, at))) => is_at(p, q) && time <= at && at <= time,
        _ => false,
    }
}

/// What is told where they are not the same.
fn told_of(ours: Option<(Pos, i64)>, other: Option<(Pos, i64)>) -> Option<Difference>
    ensures { result ≡ told_of ours other }
{
    match (ours, other) {
        (None, None) => None,
        (Some((p, time)), None) => Some(only_ours(p, time)),
        (None, Some((q, at))) => Some(only_other(q, at)),
        (Some((p, time)), Some((q, at))) => Some(of_two(p, time, q, at)),
    }
}

fn only_ours(pos: Pos, time: i64) -> Difference
    ensures { result ≡ only_ours pos time }
{
    Difference {
        pos,
        ours: Some(time),
        other: None,
    }
}

fn only_other(pos: Pos, time: i64) -> Difference
    ensures { result ≡ only_other pos time }
{
    Difference {
        pos,
        ours: None,
        other: Some(time),
    }
}

fn of_two(p: Pos, time: i64, q: Pos, at: i64) -> Difference
    ensures { result ≡ of_two p time q at }
{
    if is_before(p, q) {
        only_ours(p, time)
    } else if is_before(q, p) {
        only_other(q, at)
    } else {
        Difference {
            pos: p,
            ours: Some(time),
            other: Some(at),
        }
    }
}

#[tactic(auto, using(crate::proofs::Comparing::same_goes_on, crate::proofs::Comparing::other_tells, crate::proofs::Comparing::has_head))]
/// Where two queues first differ between two places.
pub(crate) fn compare(
    ours: &VecDeque<Packet>,
    theirs: &VecDeque<Packet>,
    from: Pos,
    to: Pos,
) -> Option<Difference>
    ensures { result ≡ differ_from (rank from) (rank to) ours.now.items theirs.now.items }
{
    let mut i = count_before(ours, from);
    let mut j = count_before(theirs, from);
    while are_same(at_before(ours, i, to), at_before(theirs, j, to)) {
        i += 1;
        j += 1;
    }
    told_of(at_before(ours, i, to), at_before(theirs, j, to))
}
