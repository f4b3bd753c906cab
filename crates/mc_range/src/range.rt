ghost use Rattle.std.specs.Prelude.{◌≡◌, Some, None, nat_lt, if◌then◌else◌, ◌≤◌, ◌<◌, ◌+◌, ◌^◌, true, IfOk, IfSome, IfErr, IsSomeAnd, OnErr, OnOk};
ghost use Rattle.mc_packet.specs.Choices.{is_distinct, or_else, AreAtMark};
ghost use Rattle.mc_range.specs.Range.{IsBegun, IsRange, IsRoomier, count, is_same, is_same_set, meets_range, queue_of, weight_of_all};
ghost use Rattle.mc_range.specs.Growing.{IsFed, lacks_room, taker};
ghost use Rattle.mc_range.specs.Serving.{first_from, heads_of};
ghost use Rattle.mc_range.specs.Cutting.{IsCut, weight_from};
ghost use Rattle.mc_range.specs.Bounds.{bounds_of};
ghost use Rattle.std.specs.Option.{option_copied};
ghost use Rattle.std.specs.List.{find};
ghost use Rattle.mc_journal.specs.Films.{rank};
ghost use Rattle.mc_queue.specs.Places.{is_from, weights};
ghost use Rattle.mc_range.specs.Joining.{IsJoined, JoinRefused, greater};
ghost use Rattle.mc_range.specs.Tracks.{IsAdded, count_of_all, intervals, queue_under, retracked, selected_under};
ghost use Rattle.mc_packet.specs.Shape.{HasShape};

use crate::bounding::bounds;
use crate::cutting::{Cut, drop_next, look_from, weight_from};
use crate::growing::extend;
use crate::joining::join;
use crate::place::place_at;
use crate::queues::{Queues, find, reserve, start_queue, weight_of_all};
use crate::serving::serve;
use crate::tracks::{count_of_all, intervals, keep_queues, put_queue, spans_touch};
use mc_packet::{
    Choice, Chunk, Dir, Ending, Heads, Kind, Mark, NoMemory, Packet, Pos, Spans, Starts, TrackNo,
};
use mc_queue::{Queue, UnionError};
use std::alloc::Global;
use std::marker::Model;

/// What was read of a film's selected tracks without a gap: a queue for each track whose start is
/// known, the mark from which it is read on, and the film's ending where that was reached.
#[derive(Drop)]
pub struct Range {
    // Written by `new` alone.
    alloc: Global,
    // The selected tracks, written anew by `retrack`.
    set: Choice,
    // What is held: `extend` feeds it, `cut` drops from it, `join` takes another's in, and `retrack`
    // and `add_track` change which tracks have a queue.
    queues: Queues,
    // From where the film is read on, and how it ends where that is known: written by `extend` and
    // `join`, and by `add_track` where a track begins before the mark.
    mark: Mark,
    ending: Option<Ending>,
}

impl Model for Range {
    ghost use Rattle.mc_range.specs.Range.{RangeState, IsRange, range_of};

    ghost Value = { RangeState };

    ghost view = { λ r. range_of r.set r.queues r.mark r.ending };

    ghost invariant = { λ r. IsRange (range_of r.set r.queues r.mark r.ending) };
}

impl Range {
    /// A range of the selected tracks that begins at their starts and holds nothing yet. A selected
    /// track without a start has no queue.
    pub fn new(alloc: Global, set: Choice, starts: &Starts) -> Range
        requires distinct { is_distinct set ≡ true }
        requires at_mark { AreAtMark starts.now }
        ensures value { IsBegun set starts.now result }
        ensures range { IsRange result }
    {
        Range {
            alloc,
            set,
            queues: Queues {
                video: start_queue(alloc, set.video, starts.video),
                audio: start_queue(alloc, set.audio, starts.audio),
                sub: start_queue(alloc, set.sub, starts.sub),
            },
            mark: starts.mark,
            ending: None,
        }
    }

    /// The selected tracks.
    pub fn set(&self) -> Choice
        ensures value { result ≡ self.now.set }
        ensures range { IsRange self.now }
    {
        self.set
    }

    /// Up to where the film was read, and from where it is read on.
    pub fn mark(&self) -> Mark
        ensures value { result ≡ self.now.mark }
        ensures range { IsRange self.now }
    {
        self.mark
    }

    /// How the film ends, where the range was read so far.
    pub fn ending(&self) -> Option<Ending>
        ensures value { result ≡ self.now.ending }
        ensures range { IsRange self.now }
    {
        self.ending
    }

    /// The number of packets of a track, 0 for one without a queue.
    pub fn len(&self, track: TrackNo) -> u64
        ensures value { result ≡ count (queue_of track self.now.queues) }
        ensures range { IsRange self.now }
    {
        match find(&self.queues, track) {
            Some(queue) => queue.len(),
            None => 0,
        }
    }

    /// The first packet of a track at a place or behind it, if its queue has one.
    pub fn first_at(&self, track: TrackNo, place: Pos) -> Option<&Packet>
        ensures value { option_copied result ≡ first_from place (queue_of track self.now.queues) }
        ensures below { IfSome (option_copied result) (λ p. rank p.pos + 1 < 2 ^ 80) }
    {
        match find(&self.queues, track) {
            Some(queue) => first_behind(queue, place),
            None => None,
        }
    }

    /// What all its packets count for in a cache, in octets: of each its payload and 64 more.
    pub fn weight(&self) -> u128
        ensures value { result ≡ weight_of_all self.now.queues }
        ensures range { IsRange self.now }
    {
        weight_of_all(&self.queues)
    }

    /// The number of all its packets.
    pub fn packets(&self) -> u64
        ensures value { result ≡ count_of_all self.now.queues }
        ensures range { IsRange self.now }
    {
        count_of_all(&self.queues)
    }

    /// What it holds of each kind: the places from which and up to which its queue has all packets,
    /// `None` for a kind without a queue.
    pub fn spans(&self) -> Spans
        ensures value { result ≡ intervals self.now.queues }
        ensures range { IsRange self.now }
    {
        intervals(&self.queues)
    }

    /// Makes room for so many more packets of a track than there are, and changes nothing else. A
    /// track without a queue needs none. `NoMemory` comes only where there was less room, and the
    /// range is then as it was.
    pub fn reserve(&mut self, track: TrackNo, more: u64) -> Result<(), NoMemory>
        ensures same { IsRoomier self.old self.new }
        ensures ok { OnOk result (IfSome (queue_of track self.new.queues) (λ q. more ≤ q.spare)) }
        ensures err { OnErr result (self.new ≡ self.old) }
        ensures within { OnErr result (IsSomeAnd (queue_of track self.old.queues) (λ q. q.spare
            < more)) }
        ensures range { IsRange self.new }
    {
        reserve(&mut self.queues, track, more)
    }

    /// Takes the part of the film behind the mark: each queue takes the packets of its track at its
    /// end or behind it, and reaches up to the part's end, which becomes the mark. An ending that the
    /// part has becomes the range's. Gives the track that took packets. `NoMemory` comes only where
    /// its queue had less room than it would take packets, and the range is then as it was.
    #[tactic(auto, using(crate::proofs::Owners::all_apart))]
    pub fn extend(&mut self, chunk: Chunk) -> Result<Option<TrackNo>, NoMemory>
        requires mark { chunk.from ≡ self.old.mark }
        requires shape { HasShape chunk }
        requires fits { weight_of_all self.old.queues + weights chunk.packets < 2 ^ 64 }
        ensures ok { OnOk result (IsFed chunk self.old self.new) }
        ensures taken { IfOk result (λ track. track ≡ taker chunk.packets self.old.queues) }
        ensures err { OnErr result ((self.new ≡ self.old)
            × (lacks_room chunk.packets self.old.queues ≡ true)) }
        ensures range { IsRange self.new }
    {
        let Chunk {
            to,
            packets,
            ending,
            ..
        } = chunk;
        let taken = extend(self.alloc, &mut self.queues, place_at(to.pos), packets)?;
        self.mark = to;
        self.ending = later_ending(ending, self.ending);
        Ok(taken)
    }

    /// Selects other tracks. The queue of a kind stays only where the new set has its track under
    /// that kind; the mark and the ending stay.
    #[tactic(auto, using(crate::proofs::Selecting::kept_range))]
    pub fn retrack(&mut self, set: Choice)
        requires distinct { is_distinct set ≡ true }
        ensures value { self.new ≡ retracked set self.old }
        ensures range { IsRange self.new }
    {
        keep_queues(&mut self.queues, set);
        self.set = set;
    }

    /// Gives a selected track without a queue an empty one at a block. Where the mark from which the
    /// film is to be read for it is less than the range's, that becomes the range's, and the range's
    /// ending is forgotten.
    #[tactic(auto, using(crate::proofs::Selecting::added_range))]
    pub fn add_track(&mut self, kind: Kind, track: TrackNo, start: u64, mark: Mark)
        requires selected { selected_under kind self.old.set ≡ Some track }
        requires without { queue_under kind self.old.queues ≡ None }
        requires before { mark.pos ≤ start }
        ensures value { IsAdded kind track start mark self.old self.new }
        ensures range { IsRange self.new }
    {
        put_queue(self.alloc, &mut self.queues, kind, track, start);
        if mark.pos < self.mark.pos {
            self.mark = mark;
            self.ending = None;
        }
    }

    /// The weight of the packets at these heads or behind them, of the kinds that have a head and a
    /// queue.
    pub fn weight_from(&self, heads: &Heads) -> u128
        ensures value { result ≡ weight_from heads.now self.now.queues }
        ensures range { IsRange self.now }
    {
        weight_from(&self.queues, heads)
    }

    /// Lets `weight_from` answer for these heads without a walk, from now on, and changes nothing that
    /// can be seen. It walks the packets between these heads and those before.
    pub fn look_from(&mut self, heads: &Heads)
        ensures same { self.new ≡ self.old }
        ensures range { IsRange self.new }
    {
        look_from(&mut self.queues, heads);
    }

    /// Makes the one next drop: of the first packet that has the least place of all queues, and the
    /// packets of its track behind it up to the next sync point or the end of its queue. With heads
    /// only packets before their kind's head are dropped. `None` exactly where there is no such packet,
    /// and then nothing changes. It takes no memory.
    #[tactic(auto, using(crate::proofs::Dropping::cut_range, crate::proofs::Dropping::all_sound))]
    pub fn cut(&mut self, upto: Option<&Heads>) -> Option<Cut>
        ensures value { IsCut (option_copied upto.entry) self.old self.new result }
        ensures range { IsRange self.new }
    {
        drop_next(&mut self.queues, upto.copied())
    }

    /// From where each track is read on after a seek to `t` nanoseconds, where the range serves it: it
    /// then holds what shows that these are the starts over the whole film. `None` exactly where it
    /// does not. It takes no memory.
    pub fn serves(&self, set: Choice, t: i64, dir: Dir) -> Option<Heads>
        ensures { result ≡ heads_of self.now set t dir }
    {
        serve(&self.queues, self.ending.is_some(), set, t, dir)
    }

    /// The times in nanoseconds between which a seek back is served: the least time of the lead's sync
    /// points to which the range serves one, and the greatest such time or, where the range has its
    /// ending, the greatest time of the lead's packets. `None` where there is no such sync point, or
    /// no lead. It takes no memory.
    pub fn bounds(&self) -> Option<(i64, i64)>
        ensures value { result ≡ bounds_of self.now }
        ensures range { IsRange self.now }
    {
        bounds(&self.queues, self.ending.is_some(), self.set)
    }

    /// Whether the two are of one set, both have a queue for each of its tracks, and each of those
    /// begins where the other's reaches or before. Together they then have no gap.
    #[tactic(auto, using(crate::proofs::Touching::meets_same))]
    pub fn touches(&self, other: &Range) -> bool
        ensures value { result ≡ meets_range self.now other.now }
        ensures range { IsRange self.now }
    {
        let (ours, others) = (intervals(&self.queues), intervals(&other.queues));
        is_same_set(self.set, other.set) && spans_touch(self.set, &ours, &others)
    }

    /// Makes this range both together, where they touch: each queue is united with the other's, the
    /// mark is the greater one, and the ending that of the range with the greater mark, or of the other
    /// where only that has one. The other is left without queues. It is refused with `Mismatch` exactly
    /// where the packets of a track differ at a place that both have, in the first such track by
    /// number, and with `NoMemory` only where there was too little room; both are then as they were.
    #[tactic(auto, using(crate::proofs::Unions::roomier_range))]
    pub fn join(&mut self, other: &mut Range) -> Result<(), UnionError>
        requires touch { meets_range self.old other.old ≡ true }
        requires fits { weight_of_all self.old.queues + weight_of_all other.old.queues < 2 ^ 64 }
        ensures ok { OnOk result (IsJoined self.old other.old self.new other.new) }
        ensures err { IfErr result (λ e. JoinRefused self.old other.old e) }
        ensures same { OnErr result (IsRoomier self.old self.new × (other.new ≡ other.old)) }
        ensures range { IsRange self.new }
    {
        let mark = greater(self.mark, other.mark);
        let ending = joined_ending((self.mark, self.ending), (other.mark, other.ending));
        join(&mut self.queues, &mut other.queues)?;
        self.mark = mark;
        self.ending = ending;
        Ok(())
    }
}

/// The first packet at a place or behind it, which is before the end of its queue.
fn first_behind(queue: &Queue, place: Pos) -> Option<&Packet>
    ensures value { option_copied result ≡ find (is_from (rank place)) queue.now.packets }
    ensures below { IfSome (option_copied result) (λ p. rank p.pos + 1 < 2 ^ 80) }
{
    let _end = queue.to();
    queue.first_at(place)
}

fn is_same(a: Option<TrackNo>, b: Option<TrackNo>) -> bool
    ensures { result ≡ is_same a b }
{
    match (a, b) {
        (None, None) => true,
        (Some(a), Some(b)) => a == b,
        _ => false,
    }
}

fn is_same_set(a: Choice, b: Choice) -> bool
    ensures { result ≡ is_same_set a b }
{
    is_same(a.video, b.video) && is_same(a.audio, b.audio) && is_same(a.sub, b.sub)
}

fn later_ending(ending: Option<Ending>, before: Option<Ending>) -> Option<Ending>
    ensures { result ≡ or_else ending before }
{
    match ending {
        Some(ending) => Some(ending),
        None => before,
    }
}

/// The greater of two marks, the first where they stand at one offset.
fn greater(a: Mark, b: Mark) -> Mark
    ensures { result ≡ greater a b }
{
    if a.pos < b.pos { b } else { a }
}

fn joined_ending(own: (Mark, Option<Ending>), other: (Mark, Option<Ending>)) -> Option<Ending>
    ensures { result
        ≡ (if nat_lt own.0.pos other.0.pos then or_else other.1 own.1 else or_else own.1 other.1) }
{
    if own.0.pos < other.0.pos {
        later_ending(other.1, own.1)
    } else {
        later_ending(own.1, other.1)
    }
}
