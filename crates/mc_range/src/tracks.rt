ghost use Rattle.std.specs.Prelude.{◌≡◌, ◌<◌, ◌^◌};
ghost use Rattle.mc_range.specs.Range.{count, place_at};
ghost use Rattle.mc_range.specs.Tracks.{PutsIn, both_touch, count_of_all, interval_of, intervals, kept_queue, kept_queues, spans_touch, touch_in};

use crate::place::place_at;
use crate::queues::Queues;
use mc_packet::{Choice, Kind, Pos, Spans, TrackNo};
use mc_queue::{Queue, is_upto};
use std::alloc::Global;

fn interval_of(queue: &Option<Queue>) -> Option<(Pos, Pos)>
    ensures { result ≡ interval_of queue.now }
{
    match queue {
        Some(queue) => Some((queue.from(), queue.to())),
        None => None,
    }
}

/// The interval of each kind's queue.
pub(crate) fn intervals(queues: &Queues) -> Spans
    ensures { result ≡ intervals queues.now }
{
    Spans {
        video: interval_of(&queues.video),
        audio: interval_of(&queues.audio),
        sub: interval_of(&queues.sub),
    }
}

// Each packet weighs 64 at least.
#[tactic(auto, using(crate::proofs::Selecting::few))]
fn count(queue: &Option<Queue>) -> u64
    ensures value { result ≡ count queue.now }
    ensures few { result < 2 ^ 60 }
{
    match queue {
        Some(queue) => queue.len(),
        None => 0,
    }
}

/// The number of all packets.
pub(crate) fn count_of_all(queues: &Queues) -> u64
    ensures { result ≡ count_of_all queues.now }
{
    count(&queues.video) + (count(&queues.audio) + count(&queues.sub))
}

fn both_touch(a: (Pos, Pos), b: (Pos, Pos)) -> bool
    ensures { result ≡ both_touch a b }
{
    is_upto(a.0, b.1) && is_upto(b.0, a.1)
}

fn touch_in(track: Option<TrackNo>, a: Option<(Pos, Pos)>, b: Option<(Pos, Pos)>) -> bool
    ensures { result ≡ touch_in track a b }
{
    match (track, a, b) {
        (None, _, _) => true,
        (Some(_), Some(a), Some(b)) => both_touch(a, b),
        _ => false,
    }
}

/// Whether two ranges with these intervals touch: for each track of the set both have an interval,
/// and each of the two begins where the other ends or before.
pub fn spans_touch(set: Choice, a: &Spans, b: &Spans) -> bool
    ensures { result ≡ spans_touch set a.now b.now }
{
    touch_in(set.video, a.video, b.video)
        && touch_in(set.audio, a.audio, b.audio)
        && touch_in(set.sub, a.sub, b.sub)
}

fn keep_queue(queue: &mut Option<Queue>, track: Option<TrackNo>)
    ensures { queue.new ≡ kept_queue track queue.old }
{
    let is_kept = match (&*queue, track) {
        (Some(queue), Some(track)) => track == queue.track(),
        _ => false,
    };
    if !is_kept {
        *queue = None;
    }
}

/// Keeps the queue of a kind only where the set has its track under that kind.
pub(crate) fn keep_queues(queues: &mut Queues, set: Choice)
    ensures { queues.new ≡ kept_queues set queues.old }
{
    keep_queue(&mut queues.video, set.video);
    keep_queue(&mut queues.audio, set.audio);
    keep_queue(&mut queues.sub, set.sub);
}

/// Gives a kind an empty queue of the track at a block.
pub(crate) fn put_queue(alloc: Global, queues: &mut Queues, kind: Kind, track: TrackNo, start: u64)
    ensures { PutsIn kind track start queues.old queues.new }
{
    let queue = Some(Queue::new(alloc, track, place_at(start)));
    match kind {
        Kind::Video => queues.video = queue,
        Kind::Audio => queues.audio = queue,
        Kind::Sub => queues.sub = queue,
    }
}
