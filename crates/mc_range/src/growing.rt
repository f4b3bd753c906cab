ghost use Rattle.std.specs.Prelude.{◌≡◌, ℕ, ◌+◌, ◌<◌, ◌≤◌, ◌^◌, true, [], length, IfOk, OnErr, OnOk};
ghost use Rattle.mc_journal.specs.Films.{rank};
ghost use Rattle.mc_queue.specs.Places.{Rise, behind, weights};
ghost use Rattle.mc_queue.specs.Queue.{IsQueue};
ghost use Rattle.mc_queue.specs.Union.{later};
ghost use Rattle.mc_range.specs.Range.{weight_in, weight_of_all};
ghost use Rattle.mc_range.specs.Growing.{AllApart, AllSound, AreOwn, Owns, DropsOne, Extends, ExtendsAll, ExtendsIn, IsForeign, IsSound, RiseTogether, first_track, lacks, lacks_room, news, taker, takes, track_with};

use crate::queues::{Queues, is_of};
use mc_packet::{Kind, NoMemory, Packet, Packets, Pos, TrackNo};
use mc_queue::{Queue, is_before, later};
use std::alloc::Global;

/// Drops the first packet if it stands before the place.
fn drop_first(packets: &mut Packets, cut: Pos) -> bool
    ensures { DropsOne (rank cut) packets.old packets.new result }
{
    match packets.as_slice() {
        [first, ..] if is_before(first.pos, cut) => {}
        _ => return false,
    }
    packets.remove(0);
    true
}

/// Drops the packets in front that stand before the place.
fn drop_front(packets: &mut Packets, cut: Pos)
    ensures { packets.new ≡ behind (rank cut) packets.old }
{
    while drop_first(packets, cut) {}
}

fn track_with(track: TrackNo, packets: &Packets) -> Option<TrackNo>
    ensures { result ≡ track_with track packets.now }
{
    match packets.as_slice() {
        [] => None,
        _ => Some(track),
    }
}

fn first_track(packets: &[Packet]) -> Option<TrackNo>
    ensures { result ≡ first_track packets.now }
{
    match packets {
        [] => None,
        [first, ..] => Some(first.track),
    }
}

/// Puts those of a track's packets behind its queue that stand at its end or behind it.
#[tactic(auto, using(crate::proofs::Fresh::fresh_is, crate::proofs::Fresh::fresh_rise, crate::proofs::Fresh::fresh_weight))]
fn feed(queue: &mut Queue, upto: Pos, mut packets: Packets) -> Result<Option<TrackNo>, NoMemory>
    requires own { Rise queue.old.track 0 (rank upto) packets }
    requires fits { weights queue.old.packets + weights packets < 2 ^ 64 }
    ensures ok { OnOk result (Extends upto packets queue.old queue.new) }
    ensures taken { IfOk result (λ x. x ≡ track_with queue.old.track (news packets queue.old)) }
    ensures err { OnErr result ((queue.new ≡ queue.old)
        × (queue.old.spare < length (news packets queue.old))) }
    ensures queue { IsQueue queue.new }
{
    let to = queue.to();
    drop_front(&mut packets, to);
    let taken = track_with(queue.track(), &packets);
    queue.append(later(to, upto), packets)?;
    Ok(taken)
}

/// Lets a queue reach up to a place.
#[tactic(auto, using(crate::proofs::Places::later_is_upto))]
fn reach(alloc: Global, queue: &mut Queue, upto: Pos)
    ensures value { Extends upto [] queue.old queue.new }
    ensures queue { IsQueue queue.new }
{
    let to = queue.to();
    match queue.append(later(to, upto), Packets::new(alloc)) {
        Ok(()) | Err(_) => {}
    }
}

fn feed_in(
    queue: &mut Option<Queue>,
    upto: Pos,
    packets: Packets,
) -> Result<Option<TrackNo>, NoMemory>
    requires own { AreOwn upto packets queue.old }
    requires fits { weight_in queue.old + weights packets < 2 ^ 64 }
    ensures ok { OnOk result (ExtendsIn upto packets queue.old queue.new) }
    ensures taken { IfOk result (λ x. x ≡ takes packets queue.old) }
    ensures err { OnErr result ((queue.new ≡ queue.old) × (lacks packets queue.old ≡ true)) }
    ensures sound { OnOk result (IsSound queue.new) }
{
    match queue {
        Some(queue) => feed(queue, upto, packets),
        None => Ok(None),
    }
}

fn reach_in(alloc: Global, queue: &mut Option<Queue>, upto: Pos)
    ensures value { ExtendsIn upto [] queue.old queue.new }
    ensures sound { IsSound queue.new }
{
    if let Some(queue) = queue {
        reach(alloc, queue, upto);
    }
}

/// Feeds packets to the queue of their track, and lets the two others reach up to the place.
#[tactic(auto, using(crate::proofs::Fresh::foreign_extends))]
fn extend_one(
    alloc: Global,
    own: &mut Option<Queue>,
    second: &mut Option<Queue>,
    third: &mut Option<Queue>,
    upto: Pos,
    packets: Packets,
) -> Result<Option<TrackNo>, NoMemory>
    requires own { AreOwn upto packets own.old }
    requires second { IsForeign packets second.old }
    requires third { IsForeign packets third.old }
    requires fits { weight_in own.old + weights packets < 2 ^ 64 }
    ensures own { OnOk result (ExtendsIn upto packets own.old own.new × IsSound own.new) }
    ensures second { OnOk result
        (ExtendsIn upto packets second.old second.new × IsSound second.new) }
    ensures third { OnOk result (ExtendsIn upto packets third.old third.new × IsSound third.new) }
    ensures taken { IfOk result (λ x. x ≡ takes packets own.old) }
    ensures err { OnErr result ((own.new ≡ own.old) × (second.new ≡ second.old)
        × (third.new ≡ third.old)) }
    ensures lacks { OnErr result (lacks packets own.old ≡ true) }
{
    let taken = feed_in(own, upto, packets)?;
    reach_in(alloc, second, upto);
    reach_in(alloc, third, upto);
    Ok(taken)
}

/// The kind whose queue holds the packets' track.
#[tactic(auto, using(crate::proofs::Owners::owned_video, crate::proofs::Owners::owned_audio, crate::proofs::Owners::owned_sub, crate::proofs::Owners::owned_none, crate::proofs::Owners::owned_empty))]
fn owner(queues: &Queues, packets: &Packets, upto: Pos) -> Option<Kind>
    requires rise { RiseTogether upto packets.now }
    requires apart { AllApart queues.now }
    ensures { Owns upto packets.now queues.now result }
{
    let Some(track) = first_track(packets.as_slice()) else {
        return None;
    };
    if is_of(&queues.video, track) {
        Some(Kind::Video)
    } else if is_of(&queues.audio, track) {
        Some(Kind::Audio)
    } else if is_of(&queues.sub, track) {
        Some(Kind::Sub)
    } else {
        None
    }
}

/// Lets each queue reach up to the place.
fn reach_all(alloc: Global, queues: &mut Queues, upto: Pos)
    ensures value { ExtendsAll upto [] queues.old queues.new }
    ensures sound { AllSound queues.new }
{
    reach_in(alloc, &mut queues.video, upto);
    reach_in(alloc, &mut queues.audio, upto);
    reach_in(alloc, &mut queues.sub, upto);
}

/// Feeds packets to the queue of their track, and lets each queue reach up to the place. Gives the
/// track that took packets.
#[tactic(auto, using(crate::proofs::Fresh::foreign_all, crate::proofs::Owners::taken_video, crate::proofs::Owners::taken_audio, crate::proofs::Owners::taken_sub, crate::proofs::Owners::taken_none, crate::proofs::Owners::lacks_video, crate::proofs::Owners::lacks_audio, crate::proofs::Owners::lacks_sub))]
pub(crate) fn extend(
    alloc: Global,
    queues: &mut Queues,
    upto: Pos,
    packets: Packets,
) -> Result<Option<TrackNo>, NoMemory>
    requires rise { RiseTogether upto packets }
    requires apart { AllApart queues.old }
    requires fits { weight_of_all queues.old + weights packets < 2 ^ 64 }
    ensures ok { OnOk result (ExtendsAll upto packets queues.old queues.new) }
    ensures sound { OnOk result (AllSound queues.new) }
    ensures taken { IfOk result (λ x. x ≡ taker packets queues.old) }
    ensures err { OnErr result (queues.new ≡ queues.old) }
    ensures lacks { OnErr result (lacks_room packets queues.old ≡ true) }
{
    match owner(queues, &packets, upto) {
        Some(Kind::Video) => extend_one(
            alloc,
            &mut queues.video,
            &mut queues.audio,
            &mut queues.sub,
            upto,
            packets,
        ),
        Some(Kind::Audio) => extend_one(
            alloc,
            &mut queues.audio,
            &mut queues.video,
            &mut queues.sub,
            upto,
            packets,
        ),
        Some(Kind::Sub) => extend_one(
            alloc,
            &mut queues.sub,
            &mut queues.video,
            &mut queues.audio,
            upto,
            packets,
        ),
        None => {
            reach_all(alloc, queues, upto);
            Ok(None)
        }
    }
}
