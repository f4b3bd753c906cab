ghost use Rattle.std.specs.Prelude.{◌≡◌, ◌&&◌, ◌+◌, ◌-◌, ◌<◌, ◌≤◌, ◌^◌, ◌∷◌, find, is_some, length, take, true};
ghost use Rattle.std.specs.Option.{option_copied};
ghost use Rattle.mc_packet.specs.declared.choice.Dir.TheVariants.{Back, Forward};
ghost use Rattle.mc_queue.specs.Places.{weight_of};
ghost use Rattle.mc_queue.specs.Queue.{is_sync};
ghost use Rattle.mc_queue.specs.Blocks.{IsOf, any_packet, ends_with, extreme, first_time, first_two, grown, of_one, sync_time, time_if};

use crate::place::weight_of;
use crate::times::comes_first;
use mc_packet::{Dir, Packet};
use std::collections::VecDeque;

/// What a block tells of its packets.
#[derive(Clone, Copy, Debug, PartialEq, Eq)]
pub struct Summary {
    /// What they count for in a cache, in octets: of each its payload and 64 more.
    pub weight: u64,
    /// The least time of its sync points, in nanoseconds; `None` where it has none.
    pub least: Option<i64>,
    /// The greatest time of its sync points, in nanoseconds; `None` where it has none.
    pub most: Option<i64>,
    /// The number of its packets, 256 at most.
    pub count: u32,
}

/// What a queue keeps of a block beside its packets. It is made with the block's first packet, and
/// made anew with each that is put behind the others or dropped in front.
#[derive(Clone, Copy, Debug, PartialEq, Eq)]
pub(crate) struct Kept {
    /// As in a summary.
    pub weight: u64,
    /// As in a summary.
    pub least: Option<i64>,
    /// As in a summary.
    pub most: Option<i64>,
    /// As in a summary.
    pub count: u32,
    /// The greatest time of all packets.
    pub greatest: Option<i64>,
    /// The times of sync points are known not to fall. It stays so as packets are dropped.
    pub rising: bool,
}

/// Of two times the one that comes first on the way.
pub(crate) fn first_two(dir: Dir, a: Option<i64>, b: Option<i64>) -> Option<i64>
    ensures { result ≡ first_two dir a b }
{
    match (a, b) {
        (None, b) => b,
        (Some(a), None) => Some(a),
        (Some(a), Some(b)) => Some(if comes_first(dir, a, b) { a } else { b }),
    }
}

/// A packet's time, where it counts.
pub(crate) fn time_if(passes: bool, packet: &Packet) -> Option<i64>
    ensures { result ≡ time_if passes packet.now.time }
{
    if passes { Some(packet.time) } else { None }
}

/// Whether a packet is no sync point, or has at least the greatest time so far.
fn ends_with(packet: &Packet, most: Option<i64>) -> bool
    ensures { result ≡ ends_with packet.now most }
{
    if packet.sync {
        match most {
            Some(most) => most <= packet.time,
            None => true,
        }
    } else {
        true
    }
}

/// What is kept of a block of one packet.
pub(crate) fn of_one(packet: &Packet) -> Kept
    ensures { result ≡ of_one packet.now }
{
    let time = time_if(packet.sync, packet);
    Kept {
        weight: weight_of(packet),
        least: time,
        most: time,
        count: 1,
        greatest: Some(packet.time),
        rising: true,
    }
}

/// What is kept with a packet more behind the others.
pub(crate) fn grown(packet: &Packet, kept: Kept) -> Kept
    requires few { kept.count < 256 }
    requires fits { kept.weight + weight_of packet.now < 2 ^ 64 }
    ensures { result ≡ grown packet.now kept }
{
    let time = time_if(packet.sync, packet);
    Kept {
        weight: kept.weight + weight_of(packet),
        least: first_two(Dir::Forward, kept.least, time),
        most: first_two(Dir::Back, kept.most, time),
        count: kept.count + 1,
        greatest: first_two(Dir::Back, kept.greatest, Some(packet.time)),
        rising: kept.rising && ends_with(packet, kept.most),
    }
}

// ---- one packet less

/// The time of the first packets' sync points, or of all of them, that comes first on the way.
#[tactic(auto, using(crate::proofs::Extremes::one_more))]
fn sync_extreme(packets: &VecDeque<Packet>, dir: Dir, count: usize) -> Option<i64>
    requires { count ≤ length packets.now.items }
    ensures { result ≡ extreme dir is_sync (take count packets.now.items) }
{
    let mut best = None;
    for i in 0..count {
        let packet = &packets[i];
        best = first_two(dir, best, time_if(packet.sync, packet));
    }
    best
}

#[tactic(auto, using(crate::proofs::Extremes::one_more))]
fn greatest_of(packets: &VecDeque<Packet>, count: usize) -> Option<i64>
    requires { count ≤ length packets.now.items }
    ensures { result ≡ extreme Back any_packet (take count packets.now.items) }
{
    let mut best = None;
    for i in 0..count {
        best = first_two(Dir::Back, best, time_if(true, &packets[i]));
    }
    best
}

/// The first sync point of the first packets.
fn first_sync(packets: &VecDeque<Packet>, count: usize) -> Option<&Packet>
    ensures { option_copied result ≡ find is_sync (take count packets.now.items) }
{
    packets.iter().take(count).find(|p| p.sync)
}

fn first_time(packets: &VecDeque<Packet>, count: usize) -> Option<i64>
    ensures { result ≡ first_time (take count packets.now.items) }
{
    match first_sync(packets, count) {
        Some(packet) => Some(packet.time),
        None => None,
    }
}

/// The least time of the sync points that are left. Where their times do not fall it is the first
/// one's, and else all are walked, but only if a sync point went.
#[tactic(auto, using(crate::proofs::Renewed::no_sync_went, crate::proofs::Renewed::first_is_least))]
fn least_left(kept: Kept, gone: &Packet, left: &VecDeque<Packet>, count: usize) -> Option<i64>
    requires is { IsOf kept (gone.now ∷ take count left.now.items) }
    requires within { count ≤ length left.now.items }
    ensures { result ≡ extreme Forward is_sync (take count left.now.items) }
{
    if !gone.sync {
        kept.least
    } else if kept.rising {
        first_time(left, count)
    } else {
        sync_extreme(left, Dir::Forward, count)
    }
}

/// The greatest time of the sync points that are left. Where their times do not fall it stays as
/// long as there is one.
#[tactic(auto, using(crate::proofs::Renewed::no_sync_went, crate::proofs::Renewed::most_stays, crate::proofs::Renewed::none_is_left))]
fn most_left(
    kept: Kept,
    gone: &Packet,
    left: &VecDeque<Packet>,
    count: usize,
    least: Option<i64>,
) -> Option<i64>
    requires is { IsOf kept (gone.now ∷ take count left.now.items) }
    requires within { count ≤ length left.now.items }
    requires least { least ≡ extreme Forward is_sync (take count left.now.items) }
    ensures { result ≡ extreme Back is_sync (take count left.now.items) }
{
    if !gone.sync {
        return kept.most;
    }
    if !kept.rising {
        return sync_extreme(left, Dir::Back, count);
    }
    match least {
        Some(_) => kept.most,
        None => None,
    }
}

/// The greatest time of the packets that are left. They are walked only if the greatest went.
#[tactic(auto, using(crate::proofs::Renewed::greatest_stays))]
fn greatest_left(kept: Kept, gone: &Packet, left: &VecDeque<Packet>, count: usize) -> Option<i64>
    requires is { IsOf kept (gone.now ∷ take count left.now.items) }
    requires within { count ≤ length left.now.items }
    ensures { result ≡ extreme Back any_packet (take count left.now.items) }
{
    match kept.greatest {
        Some(greatest) if gone.time < greatest => kept.greatest,
        _ => greatest_of(left, count),
    }
}

/// What is kept where the first packet went, and so many are left.
#[tactic(auto, using(crate::proofs::Renewed::rises_on))]
pub(crate) fn without(kept: Kept, gone: &Packet, left: &VecDeque<Packet>, count: u32) -> Kept
    requires is { IsOf kept (gone.now ∷ take count left.now.items) }
    requires within { count ≤ length left.now.items }
    ensures { IsOf result (take count left.now.items) }
{
    let many = count as usize;
    let least = least_left(kept, gone, left, many);
    Kept {
        weight: kept.weight - weight_of(gone),
        least,
        most: most_left(kept, gone, left, many, least),
        count,
        greatest: greatest_left(kept, gone, left, many),
        rising: kept.rising,
    }
}
