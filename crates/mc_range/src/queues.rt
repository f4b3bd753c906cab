ghost use Rattle.std.specs.Prelude.{◌≡◌, ◌≤◌, ◌<◌, IfSome, IsSomeAnd, OnErr, OnOk};
ghost use Rattle.std.specs.Option.{option_copied};
ghost use Rattle.mc_range.specs.Range.{AreRoomier, Roomier, StartsAt, is_of, own, queue_of, weight_in, weight_of_all};

use crate::place::place_at;
use mc_packet::{NoMemory, TrackNo};
use mc_queue::Queue;
use std::alloc::Global;

/// The queues of a range, at most one of a kind.
#[derive(Drop)]
pub(crate) struct Queues {
    /// The packets of the selected video track, where its start is known.
    pub video: Option<Queue>,
    /// Those of the selected audio track.
    pub audio: Option<Queue>,
    /// Those of the selected subtitle track.
    pub sub: Option<Queue>,
}

/// An empty queue of a selected track, where its start is known.
pub(crate) fn start_queue(
    alloc: Global,
    track: Option<TrackNo>,
    start: Option<u64>,
) -> Option<Queue>
    ensures { StartsAt track start result }
{
    match (track, start) {
        (Some(track), Some(at)) => Some(Queue::new(alloc, track, place_at(at))),
        _ => None,
    }
}

pub(crate) fn is_of(queue: &Option<Queue>, track: TrackNo) -> bool
    ensures { result ≡ is_of track queue.now }
{
    match queue {
        Some(queue) => queue.track() == track,
        None => false,
    }
}

fn own(queue: &Option<Queue>, track: TrackNo) -> Option<&Queue>
    ensures { option_copied result ≡ own track queue.now }
{
    match queue {
        Some(queue) if queue.track() == track => Some(queue),
        _ => None,
    }
}

/// The queue of a track.
pub(crate) fn find(queues: &Queues, track: TrackNo) -> Option<&Queue>
    ensures { option_copied result ≡ queue_of track queues.now }
{
    match own(&queues.video, track) {
        Some(queue) => Some(queue),
        None => match own(&queues.audio, track) {
            Some(queue) => Some(queue),
            None => own(&queues.sub, track),
        },
    }
}

fn reserve_one(queue: &mut Option<Queue>, more: u64) -> Result<(), NoMemory>
    ensures same { Roomier queue.old queue.new }
    ensures ok { OnOk result (IfSome queue.new (λ q. more ≤ q.spare)) }
    ensures err { OnErr result (queue.new ≡ queue.old) }
    ensures within { OnErr result (IsSomeAnd queue.old (λ q. q.spare < more)) }
{
    match queue {
        Some(queue) => queue.reserve(more),
        None => Ok(()),
    }
}

/// Makes room in the queue of a track, if there is one.
pub(crate) fn reserve(queues: &mut Queues, track: TrackNo, more: u64) -> Result<(), NoMemory>
    ensures same { AreRoomier queues.old queues.new }
    ensures ok { OnOk result (IfSome (queue_of track queues.new) (λ q. more ≤ q.spare)) }
    ensures err { OnErr result (queues.new ≡ queues.old) }
    ensures within { OnErr result (IsSomeAnd (queue_of track queues.old) (λ q. q.spare < more)) }
{
    if is_of(&queues.video, track) {
        reserve_one(&mut queues.video, more)
    } else if is_of(&queues.audio, track) {
        reserve_one(&mut queues.audio, more)
    } else if is_of(&queues.sub, track) {
        reserve_one(&mut queues.sub, more)
    } else {
        Ok(())
    }
}

fn weight_in(queue: &Option<Queue>) -> u64
    ensures value { result ≡ weight_in queue.now }
{
    match queue {
        Some(queue) => queue.weight(),
        None => 0,
    }
}

/// The weight of all packets.
pub(crate) fn weight_of_all(queues: &Queues) -> u128
    ensures { result ≡ weight_of_all queues.now }
{
    weight_in(&queues.video) as u128
        + (weight_in(&queues.audio) as u128 + weight_in(&queues.sub) as u128)
}
