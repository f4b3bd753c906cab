ghost use Rattle.std.specs.Prelude.{◌≡◌, ◌+◌, ◌<◌, ◌≤◌, ◌^◌, true, OnErr, OnOk};
ghost use Rattle.mc_range.specs.Range.{AreRoomier, Roomier, weight_in, weight_of_all};
ghost use Rattle.mc_range.specs.Growing.{AllSound, IsSound};
ghost use Rattle.mc_range.specs.Joining.{AllMeet, AllUnited, ComparedIn, FirstDifference, HasRoom, HaveRoom, MeetIn, QueuesJoin, UnitesIn, difference_in, lacks_any, lacks_for, lesser, no_queues, numbered};

use crate::queues::Queues;
use mc_packet::{NoMemory, TrackNo};
use mc_queue::{Difference, Queue, UnionError};

/// A difference, and the number of the track whose packets differ.
#[derive(Clone, Copy, Debug, PartialEq, Eq)]
pub(crate) struct Numbered {
    /// The track's number.
    pub track: TrackNo,
    /// Where its packets differ first.
    pub difference: Difference,
}

fn compare(queue: &Option<Queue>, other: &Option<Queue>) -> Option<Difference>
    requires meet { MeetIn queue.now other.now }
    ensures { ComparedIn queue.now other.now result }
{
    match (queue, other) {
        (Some(queue), Some(other)) => queue.difference(other),
        _ => None,
    }
}

fn with_number(queue: &Option<Queue>, difference: Option<Difference>) -> Option<Numbered>
    ensures { result ≡ numbered queue.now difference }
{
    match (queue, difference) {
        (Some(queue), Some(difference)) => Some(Numbered {
            track: queue.track(),
            difference,
        }),
        _ => None,
    }
}

fn lesser(a: Option<Numbered>, b: Option<Numbered>) -> Option<Numbered>
    ensures { result ≡ lesser a b }
{
    match (a, b) {
        (None, b) => b,
        (Some(a), None) => Some(a),
        (Some(a), Some(b)) => Some(if a.track <= b.track { a } else { b }),
    }
}

fn difference_in(found: Option<Numbered>) -> Option<Difference>
    ensures { result ≡ difference_in found }
{
    match found {
        Some(numbered) => Some(numbered.difference),
        None => None,
    }
}

/// The first place at which the queues of the least track that has one differ.
fn first_difference(queues: &Queues, others: &Queues) -> Option<Difference>
    requires meet { AllMeet queues.now others.now }
    ensures { FirstDifference queues.now others.now result }
{
    let video = compare(&queues.video, &others.video);
    let audio = compare(&queues.audio, &others.audio);
    let sub = compare(&queues.sub, &others.sub);
    let rest = lesser(
        with_number(&queues.audio, audio),
        with_number(&queues.sub, sub),
    );
    difference_in(lesser(with_number(&queues.video, video), rest))
}

/// Makes room for what a queue takes from the other.
fn make_room_in(queue: &mut Option<Queue>, other: &Option<Queue>) -> Result<(), NoMemory>
    requires meet { MeetIn queue.old other.now }
    ensures same { Roomier queue.old queue.new }
    ensures ok { OnOk result (HasRoom queue.new other.now) }
    ensures err { OnErr result (lacks_for queue.old other.now ≡ true) }
{
    match (queue, other) {
        (Some(queue), Some(other)) => {
            let more = queue.added(other);
            queue.reserve(more as u64)
        }
        _ => Ok(()),
    }
}

/// Makes room for what the queues take from the others.
#[tactic(auto, using(crate::proofs::Unions::same_room, crate::proofs::Unions::lacks_video, crate::proofs::Unions::lacks_audio, crate::proofs::Unions::lacks_sub))]
fn make_room(queues: &mut Queues, others: &Queues) -> Result<(), NoMemory>
    requires meet { AllMeet queues.old others.now }
    ensures same { AreRoomier queues.old queues.new }
    ensures ok { OnOk result (HaveRoom queues.new others.now) }
    ensures err { OnErr result (lacks_any queues.old others.now ≡ true) }
{
    make_room_in(&mut queues.video, &others.video)?;
    make_room_in(&mut queues.audio, &others.audio)?;
    make_room_in(&mut queues.sub, &others.sub)
}

/// Takes the other's packets, into the room that there is.
fn unite_in(queue: &mut Option<Queue>, other: Option<Queue>)
    requires meet { MeetIn queue.old other }
    requires fits { weight_in queue.old + weight_in other < 2 ^ 64 }
    requires room { HasRoom queue.old other }
    ensures value { UnitesIn queue.old other queue.new }
    ensures sound { IsSound queue.new }
{
    if let Some(queue) = queue {
        if let Some(mut other) = other {
            queue.absorb(&mut other);
        }
    }
}

/// Takes the others' packets, into the room that there is, and leaves no queue there.
fn unite(queues: &mut Queues, others: &mut Queues)
    requires meet { AllMeet queues.old others.old }
    requires fits { weight_of_all queues.old + weight_of_all others.old < 2 ^ 64 }
    requires room { HaveRoom queues.old others.old }
    ensures value { AllUnited queues.old others.old queues.new }
    ensures sound { AllSound queues.new }
    ensures emptied { others.new ≡ no_queues }
{
    unite_in(&mut queues.video, others.video.take());
    unite_in(&mut queues.audio, others.audio.take());
    unite_in(&mut queues.sub, others.sub.take());
}

/// Joins queues that meet, each with the other of its kind, or changes nothing but the room.
#[tactic(auto, using(crate::proofs::Unions::meet_roomier, crate::proofs::Unions::weigh_roomier, crate::proofs::Unions::unite_roomier))]
pub(crate) fn join(queues: &mut Queues, others: &mut Queues) -> Result<(), UnionError>
    requires meet { AllMeet queues.old others.old }
    requires fits { weight_of_all queues.old + weight_of_all others.old < 2 ^ 64 }
    ensures value { QueuesJoin queues.old others.old result queues.new others.new }
    ensures sound { OnOk result (AllSound queues.new) }
{
    if let Some(Difference { pos, ours, other }) = first_difference(queues, others) {
        return Err(UnionError::Mismatch { pos, ours, other });
    }
    if make_room(queues, others).is_err() {
        return Err(UnionError::NoMemory);
    }
    unite(queues, others);
    Ok(())
}
