ghost use Rattle.std.specs.Prelude.{◌≡◌, ◌≤◌, ◌<◌, ◌+◌, ◌^◌, true, [], Some, None, length, IfOk, IfSome, IsSomeAnd, find, OnErr, OnOk, OnSome, IfNone, drop};
ghost use Rattle.std.specs.Option.{option_copied};
ghost use Rattle.mc_packet.specs.Shape.{HasShape};
ghost use Rattle.mc_packet.specs.Choices.{is_distinct, AreAtMark};
ghost use Rattle.mc_journal.specs.Films.{rank};
ghost use Rattle.mc_queue.specs.Places.{weights};
ghost use Rattle.mc_range.specs.Range.{IsBegun, IsRange};
ghost use Rattle.mc_range.specs.Growing.{IsFed, lacks_room, taker};
ghost use Rattle.mc_cache.specs.Cache.{IsCache, count_of, ending_in, first_in, in_front, mark_in, ranges_of, weight_in, weight_of, with_current, with_others, with_prepared, without_first, Fewer};
ghost use Rattle.mc_journal.specs.declared.record.Cause.TheVariants.{TooMany};
ghost use Rattle.mc_cache.specs.Joining.{IsJoinedUp};
ghost use Rattle.mc_cache.specs.Pruning.{Prunes, ahead_in, back_of};
ghost use Rattle.mc_cache.specs.Shown.{view_of};
ghost use Rattle.mc_cache.specs.Placed.{AllFramed};
ghost use Rattle.mc_cache.specs.Removals.{removals_of_all};
ghost use Rattle.mc_cache.specs.Rooms.{HasRoomFor, HasRoomToFeed, HasRoomToJoin, HasRoomToStart, IsPrepared};
ghost use Rattle.mc_cache.specs.Changing.{AddsTrack, Feeds, IsChosen, IsLeft, IsNew, IsRetracked, IsOnlyRoomier, IsSameButRoom, IsStarted, KeepsNine, MayAdd, heads_in, server, serves};

use crate::listing::{count_all, holds, take_serving, weight_all};
use crate::parts::{
    ahead_in, cut_next, join_others, keep_nine, look_in, reselect, tell_lost, weight_in,
};
use crate::prepared::{Prepared, take_if};
use crate::removals::{Drops, push_ranges};
use crate::rooms::{make_ready, reserve_in, touches_any, touches_then};
use crate::views::{begins_in, show_all};
use mc_journal::{Cause, Removal};
use mc_packet::{
    CacheView, Choice, Chunk, Dir, Ending, Heads, Kind, Limits, Mark, NoMemory, Packet, Pos,
    Starts, TrackNo,
};
use mc_range::Range;
use std::alloc::Global;
use std::marker::Model;
use std::mem::replace;

/// What joins of the current range made.
#[derive(Debug, Drop)]
pub struct Joins {
    /// How many other ranges it was united with.
    pub joined: u32,
    /// What is told of others that went since their packets differ.
    pub dropped: Drops,
}

/// The ranges of a film that were read and are kept: the current one, which is read on and from
/// which readers are served, and at most nine others, in order of last use, each with packets.
#[derive(Drop)]
pub struct Cache {
    // Both written by `new` alone.
    alloc: Global,
    limits: Limits,
    // The current range: `start_range` and `choose` put one, `leave_current` takes it away; feeding,
    // joining, pruning and selecting change it in place.
    current: Option<Range>,
    // The others in order of last use: what leaves goes to the front, what is chosen or joined goes
    // out, and pruning drops the last one.
    others: Vec<Range>,
    // Room for what a start and a join tell, made by the calls that make room and used up by them.
    start_drops: Vec<Removal>,
    join_drops: Vec<Removal>,
    // The range with room that `make_room_to_start` holds ready, until `start_range` takes it.
    prepared: Option<Prepared>,
}

impl Model for Cache {
    ghost use Rattle.std.specs.Prelude.{vec_capacity};
    ghost use Rattle.mc_cache.specs.Cache.{CacheState, IsCache, cache_of};

    ghost Value = { CacheState };

    ghost view = { λ c. cache_of c.limits c.current c.others.items
        (vec_capacity c.others) (vec_capacity c.start_drops)
        (vec_capacity c.join_drops) c.prepared };

    ghost invariant = { λ c. IsCache (cache_of c.limits c.current c.others.items
        (vec_capacity c.others) (vec_capacity c.start_drops)
        (vec_capacity c.join_drops) c.prepared) };
}

fn mark_in(range: &Option<Range>) -> Option<Mark>
    ensures { result ≡ mark_in range.now }
{
    match range {
        Some(range) => Some(range.mark()),
        None => None,
    }
}

fn ending_in(range: &Option<Range>) -> Option<Ending>
    ensures { result ≡ ending_in range.now }
{
    match range {
        Some(range) => range.ending(),
        None => None,
    }
}

fn heads_in(range: &Option<Range>, set: Choice, t: i64, dir: Dir) -> Option<Heads>
    ensures { result ≡ heads_in set t dir range.now }
{
    match range {
        Some(range) => range.serves(set, t, dir),
        None => None,
    }
}

#[tactic(auto, using(crate::proofs::Fed::fed_or_same))]
fn feed_range(range: &mut Range, chunk: Chunk) -> Result<Option<TrackNo>, NoMemory>
    requires current { chunk.from ≡ range.old.mark }
    requires shape { HasShape chunk }
    requires fits { weight_in range.old + weights chunk.packets < 2 ^ 64 }
    ensures ok { OnOk result (IsFed chunk range.old range.new) }
    ensures taken { IfOk result (λ track. track ≡ taker chunk.packets range.old.queues) }
    ensures err { OnErr result ((range.new ≡ range.old)
        × (lacks_room chunk.packets range.old.queues ≡ true)) }
    ensures weight { weight_in range.new ≤ weight_in range.old + weights chunk.packets }
    ensures range { IsRange range.new }
{
    let _mark = range.mark();
    range.extend(chunk)
}

fn feed_in(range: &mut Option<Range>, chunk: Chunk) -> Result<Option<TrackNo>, NoMemory>
    requires current { IsSomeAnd range.old (λ r. chunk.from ≡ r.mark) }
    requires shape { HasShape chunk }
    requires fits { weight_of (in_front range.old []) + weights chunk.packets < 2 ^ 64 }
    ensures ok { OnOk result
        (IsSomeAnd range.old (λ o. IsSomeAnd range.new (λ n. IsFed chunk o n))) }
    ensures taken { IfOk result
        (λ track. IfSome range.old (λ r. track ≡ taker chunk.packets r.queues)) }
    ensures err { OnErr result ((range.new ≡ range.old)
        × IfSome range.old (λ r. lacks_room chunk.packets r.queues ≡ true)) }
    ensures weight { weight_of (in_front range.new []) ≤ weight_of (in_front range.old [])
        + weights chunk.packets }
    ensures range { IfSome range.new IsRange }
{
    match range {
        Some(range) => feed_range(range, chunk),
        None => Ok(None),
    }
}

fn count_in(range: &Option<Range>) -> u64
    ensures { result ≡ count_of (in_front range.now []) }
{
    match range {
        Some(range) => range.packets(),
        None => 0,
    }
}

impl Cache {
    /// A cache without ranges. It takes no memory yet.
    pub fn new(alloc: Global, limits: Limits) -> Cache
        ensures value { IsNew limits result }
        ensures cache { IsCache result }
    {
        Cache {
            alloc,
            limits,
            current: None,
            others: Vec::new(alloc),
            start_drops: Vec::new(alloc),
            join_drops: Vec::new(alloc),
            prepared: None,
        }
    }

    /// How much the cache keeps.
    pub fn limits(&self) -> Limits
        ensures value { result ≡ self.now.limits }
        ensures cache { IsCache self.now }
    {
        self.limits
    }

    /// From where the current range is read on, `None` without one.
    pub fn mark(&self) -> Option<Mark>
        ensures value { result ≡ mark_in self.now.current }
        ensures cache { IsCache self.now }
    {
        mark_in(&self.current)
    }

    /// How the film ends, where the current range reaches so far.
    pub fn ending(&self) -> Option<Ending>
        ensures value { result ≡ ending_in self.now.current }
        ensures cache { IsCache self.now }
    {
        ending_in(&self.current)
    }

    /// Leaves no range current. The one that was stands in front of the others then, unless it holds
    /// no packet: then it goes. It takes no memory.
    pub fn leave_current(&mut self)
        ensures value { IsLeft self.old self.new }
        ensures cache { IsCache self.new }
    {
        if let Some(range) = self.current.take() {
            if holds(&range) {
                let _ = self.others.insert(0, range);
            }
        }
    }

    /// Makes a range the current one, where none is.
    fn put_current(&mut self, range: Range)
        requires none { self.old.current ≡ None }
        requires few { length self.old.others < 10 }
        requires room { length self.old.others < self.old.places }
        requires fits { weight_in range + weight_of self.old.others < 2 ^ 64 }
        ensures value { self.new ≡ with_current (Some range) self.old }
        ensures cache { IsCache self.new }
    {
        let _mark = range.mark();
        self.current = Some(range);
    }

    /// Takes the first of the others that serves a seek.
    #[tactic(auto, using(crate::proofs::Chosen::kept_out, crate::proofs::Chosen::fewer_of))]
    fn take_server(&mut self, set: Choice, t: i64, dir: Dir) -> Option<Range>
        ensures found { result ≡ find (serves set t dir) self.old.others }
        ensures left { self.new
            ≡ with_others (without_first (serves set t dir) self.old.others) self.old }
        ensures fewer { IfSome result (λ r. Fewer r self.old.others self.new.others) }
        ensures cache { IsCache self.new }
    {
        take_serving(&mut self.others, set, t, dir)
    }

    /// Makes the first range that serves a seek to `t` nanoseconds the current one, in order of last
    /// use, and gives the heads from which the tracks are then read. `None` exactly where no range
    /// serves; nothing has changed then. It takes no memory.
    pub fn choose(&mut self, set: Choice, t: i64, dir: Dir) -> Option<Heads>
        ensures value { result ≡ heads_in set t dir (server set t dir self.old) }
        ensures some { OnSome result (IsChosen set t dir self.old self.new) }
        ensures none { IfNone result (self.new ≡ self.old) }
        ensures cache { IsCache self.new }
    {
        if let Some(heads) = heads_in(&self.current, set, t, dir) {
            return Some(heads);
        }
        let range = self.take_server(set, t, dir)?;
        let heads = range.serves(set, t, dir);
        self.leave_current();
        self.put_current(range);
        heads
    }

    /// Feeds the current range a part of the film that begins at its mark, and gives the track that
    /// took packets. `NoMemory` comes only where the queue of that track had less room than it would
    /// take packets; nothing has changed then.
    #[tactic(auto, using(crate::proofs::Feeding::fed_room))]
    pub fn feed(&mut self, chunk: Chunk) -> Result<Option<TrackNo>, NoMemory>
        requires current { IsSomeAnd self.old.current (λ r. chunk.from ≡ r.mark) }
        requires shape { HasShape chunk }
        requires fits { weight_of (ranges_of self.old) + weights chunk.packets < 2 ^ 64 }
        ensures ok { OnOk result (Feeds chunk self.old self.new) }
        ensures taken { IfOk result
            (λ track. IfSome self.old.current (λ r. track ≡ taker chunk.packets r.queues)) }
        ensures err { OnErr result (self.new ≡ self.old) }
        ensures lacks { OnErr result
            (IfSome self.old.current (λ r. lacks_room chunk.packets r.queues ≡ true)) }
        ensures room { OnOk result (HasRoomToFeed chunk self.old → HasRoomToJoin self.new) }
        ensures cache { IsCache self.new }
    {
        feed_in(&mut self.current, chunk)
    }

    /// Gives the current range an empty queue of a selected track, at a block. Where the mark from
    /// which the film is to be read for it is less than the range's, that becomes the range's, and its
    /// ending is forgotten. It takes no memory.
    pub fn add_track(&mut self, kind: Kind, track: TrackNo, start: u64, mark: Mark)
        requires may { MayAdd kind track self.old }
        requires before { mark.pos ≤ start }
        ensures value { AddsTrack kind track start mark self.old self.new }
        ensures cache { IsCache self.new }
    {
        if let Some(range) = &mut self.current {
            range.add_track(kind, track, start, mark);
        }
    }

    /// The number of all cached packets.
    #[tactic(auto, using(crate::proofs::Lists::front_counts, crate::proofs::Lists::front_adds))]
    pub fn held(&self) -> u64
        ensures value { result ≡ count_of (ranges_of self.now) }
        ensures cache { IsCache self.now }
    {
        count_in(&self.current) + count_all(self.others.as_slice())
    }

    /// The number of its ranges, the current one too. It takes no memory.
    pub fn len(&self) -> usize
        ensures value { result ≡ length (ranges_of self.now) }
        ensures few { result ≤ 10 }
        ensures cache { IsCache self.now }
    {
        match &self.current {
            Some(_) => 1 + self.others.len(),
            None => self.others.len(),
        }
    }

    // ---- starts

    #[tactic(auto, using(crate::proofs::Lists::others_few))]
    fn reserve_to_start(&mut self) -> Result<(), NoMemory>
        ensures same { IsOnlyRoomier self.old self.new }
        ensures ok { OnOk result (HasRoomToStart self.new) }
        ensures within { OnErr result (HasRoomToStart self.old → ⊥) }
        ensures cache { IsCache self.new }
    {
        self.start_drops.clear();
        self.start_drops.reserve(3)?;
        let more = 10 - self.others.len();
        self.others.reserve(more)
    }

    /// The range that is held ready for these starts, or a new one.
    fn take_ready(&mut self, set: Choice, starts: &Starts) -> Range
        requires distinct { is_distinct set ≡ true }
        requires at_mark { AreAtMark starts.now }
        ensures begun { IsBegun set starts.now result }
        ensures range { IsRange result }
        ensures ready { IfSome self.old.prepared (λ p. p.starts ≡ starts.now → p.range.set ≡ set
            → result ≡ p.range) }
        ensures same { self.new ≡ with_prepared None self.old }
        ensures cache { IsCache self.new }
    {
        let ready = take_if(self.prepared.take(), set, starts);
        match ready {
            Some(range) => range,
            None => Range::new(self.alloc, set, starts),
        }
    }

    #[tactic(auto, using(crate::proofs::Lists::others_few))]
    fn drop_eleventh(&mut self) -> Drops
        requires none { self.old.current ≡ None }
        requires room { 3 ≤ self.old.start_room }
        ensures told { result ≡ removals_of_all (TooMany 11) (drop 9 self.old.others) }
        ensures left { KeepsNine self.old self.new }
        ensures cache { IsCache self.new }
    {
        let mut drops = replace(&mut self.start_drops, Vec::new(self.alloc));
        drops.clear();
        keep_nine(&mut self.others, &mut drops);
        Drops::from_vec(drops)
    }

    /// Makes room for a start of this set, and for the joins after it: a range is held ready that has
    /// room for the packets of all ranges, where one of them touches it. Only the room changes.
    pub fn make_room_to_start(&mut self, set: Choice, starts: &Starts) -> Result<(), NoMemory>
        requires distinct { is_distinct set ≡ true }
        requires at_mark { AreAtMark starts.now }
        ensures same { IsSameButRoom self.old self.new }
        ensures ok { OnOk result (HasRoomToStart self.new) }
        ensures joins { OnOk result (IsPrepared set starts.now self.new) }
        ensures cache { IsCache self.new }
    {
        self.reserve_to_start()?;
        let ready = make_ready(
            self.alloc,
            set,
            starts,
            &self.current,
            self.others.as_slice(),
            &mut self.join_drops,
        )?;
        self.prepared = Some(ready);
        Ok(())
    }

    /// Makes room for a part of the film, and for the joins after it: in the current range for the
    /// part's packets, and where it then touches another range for the packets of all others. Only the
    /// room changes.
    pub fn make_room_to_feed(&mut self, chunk: &Chunk) -> Result<(), NoMemory>
        requires { HasShape chunk.now }
        ensures same { IsSameButRoom self.old self.new }
        ensures ok { OnOk result (HasRoomToFeed chunk.now self.new) }
        ensures cache { IsCache self.new }
    {
        let more = chunk.packets.len() as u64;
        let upto = Pos {
            block: chunk.to.pos,
            lane: 0,
        };
        if touches_then(upto, &self.current, self.others.as_slice()) {
            self.reserve_to_meet(more)
        } else {
            reserve_in(&mut self.current, &[], more)
        }
    }

    #[tactic(auto, using(crate::proofs::Lists::others_light))]
    fn reserve_to_meet(&mut self, more: u64) -> Result<(), NoMemory>
        requires { more < 2 ^ 60 }
        ensures same { IsSameButRoom self.old self.new }
        ensures ok { OnOk result ((30 ≤ self.new.join_room)
            × IfSome self.new.current (λ r. HasRoomFor self.new.others more r)) }
        ensures within { OnErr result ((30 ≤ self.old.join_room)
            × IfSome self.old.current (λ r. HasRoomFor self.old.others more r) → ⊥) }
        ensures cache { IsCache self.new }
    {
        self.join_drops.clear();
        self.join_drops.reserve(30)?;
        reserve_in(&mut self.current, self.others.as_slice(), more)
    }

    /// Makes a new range of a set the current one, which begins at its starts, and gives what is told
    /// of the range that goes for it where eleven would stand. The one that was current stands in front
    /// of the others then, unless it holds no packet. `NoMemory` comes only without the room that
    /// `make_room_to_start` makes; the ranges are then as they were.
    #[tactic(auto, using(crate::proofs::Started::begun_light, crate::proofs::Started::room_to_join))]
    pub fn start_range(&mut self, set: Choice, starts: &Starts) -> Result<Drops, NoMemory>
        requires distinct { is_distinct set ≡ true }
        requires at_mark { AreAtMark starts.now }
        ensures ok { IfOk result (λ drops. IsStarted set starts.now drops self.old self.new) }
        ensures room { OnOk result (IsPrepared set starts.now self.old → HasRoomToJoin self.new) }
        ensures err { OnErr result (IsSameButRoom self.old self.new) }
        ensures within { OnErr result (HasRoomToStart self.old → ⊥) }
        ensures cache { IsCache self.new }
    {
        self.reserve_to_start()?;
        let range = self.take_ready(set, starts);
        self.leave_current();
        let drops = self.drop_eleventh();
        self.put_current(range);
        Ok(drops)
    }

    /// Selects other tracks: the current range keeps the queues of tracks that stay under their kind,
    /// and all other ranges go; without any track no range stays. Gives what is told of the packets
    /// that go. `NoMemory` leaves all as it was.
    pub fn retrack(&mut self, set: Choice) -> Result<Drops, NoMemory>
        requires distinct { is_distinct set ≡ true }
        ensures ok { IfOk result (λ drops. IsRetracked set drops self.old self.new) }
        ensures err { OnErr result (self.new ≡ self.old) }
        ensures cache { IsCache self.new }
    {
        let mut drops = Vec::with_capacity(self.alloc, 30)?;
        tell_lost(&mut drops, &self.current, set);
        push_ranges(&mut drops, self.others.as_slice(), Cause::TrackChanged);
        self.others.clear();
        reselect(&mut self.current, set);
        Ok(Drops::from_vec(drops))
    }

    /// Joins the current range with each other one that touches it, in order of last use, as long as
    /// one does. One whose packets differ from the current range's goes instead, and is told of.
    /// `NoMemory` comes only without the room that `make_room_to_start` and `make_room_to_feed` make;
    /// the ranges are then as they were.
    #[tactic(auto, using(crate::proofs::Started::not_joined))]
    pub fn join_current(&mut self) -> Result<Joins, NoMemory>
        ensures ok { IfOk result (λ j. IsJoinedUp j.joined j.dropped self.old self.new) }
        ensures err { OnErr result (IsSameButRoom self.old self.new) }
        ensures within { OnErr result (HasRoomToJoin self.old → ⊥) }
        ensures cache { IsCache self.new }
    {
        if !touches_any(&self.current, self.others.as_slice()) {
            return Ok(Joins {
                joined: 0,
                dropped: Drops::new(self.alloc),
            });
        }
        self.reserve_to_meet(0)?;
        let mut dropped = replace(&mut self.join_drops, Vec::new(self.alloc));
        dropped.clear();
        let joined = join_others(&mut self.current, &mut self.others, &mut dropped);
        let dropped = Drops::from_vec(dropped);
        Ok(Joins { joined, dropped })
    }

    /// The first packet of a track in the current range at a place or behind it, if there is one.
    pub fn first_at(&self, track: TrackNo, place: Pos) -> Option<&Packet>
        ensures value { option_copied result ≡ first_in track place self.now.current }
        ensures below { IfSome (option_copied result) (λ p. rank p.pos + 1 < 2 ^ 80) }
    {
        match &self.current {
            Some(range) => range.first_at(track, place),
            None => None,
        }
    }

    /// Octets of the current range's packets at the heads or behind them.
    #[tactic(auto, using(crate::proofs::Lists::front_light))]
    pub fn forward(&self, heads: &Heads) -> u64
        ensures value { result ≡ ahead_in heads.now self.now.current }
        ensures cache { IsCache self.now }
    {
        ahead_in(&self.current, heads) as u64
    }

    /// Octets of all other cached packets.
    #[tactic(auto, using(crate::proofs::Lists::front_parts))]
    pub fn back(&self, heads: &Heads) -> u64
        ensures value { result ≡ back_of heads.now self.now }
        ensures cache { IsCache self.now }
    {
        let all = weight_in(&self.current) + weight_all(self.others.as_slice());
        (all - ahead_in(&self.current, heads)) as u64
    }

    /// Lets `forward`, `back` and `prune` answer for these heads without a walk. Nothing changes that
    /// can be seen.
    pub fn look_from(&mut self, heads: &Heads)
        ensures same { self.new ≡ self.old }
        ensures cache { IsCache self.new }
    {
        look_in(&mut self.current, heads);
    }

    /// Makes the one next drop that the limit on octets behind the readers asks for: in the last of
    /// the other ranges, else in the current one, of no packet at its head or behind it. `None` exactly
    /// where those octets are within the limit; nothing has changed then. It takes no memory.
    pub fn prune(&mut self, heads: &Heads) -> Option<Removal>
        ensures value { Prunes heads.now result self.old self.new }
        ensures cache { IsCache self.new }
    {
        self.look_from(heads);
        let (back, max) = (self.back(heads), self.limits.back);
        if back <= max {
            return None;
        }
        let cut = cut_next(&mut self.current, &mut self.others, heads)?;
        Some(Removal {
            track: cut.track,
            from: cut.from,
            to: cut.to,
            cause: Cause::Limit { back, max },
        })
    }

    /// What the cache tells of itself: its ranges in order of last use with the times between which
    /// they serve, the octets ahead of these heads and behind them, and whether the current range begins
    /// where the film does. Its `time` is none, and `playing` and `ended` are false.
    #[tactic(auto, using(crate::proofs::Shows::framed_ranges))]
    pub fn view(&self, heads: &Heads) -> Result<CacheView, NoMemory>
        ensures value { IfOk result (λ v. v ≡ view_of heads.now self.now) }
        ensures frames { IfOk result (λ v. AllFramed self.now) }
        ensures cache { IsCache self.now }
    {
        Ok(CacheView {
            ranges: show_all(self.alloc, &self.current, self.others.as_slice())?,
            forward: self.forward(heads),
            back: self.back(heads),
            bof: begins_in(&self.current),
            ending: self.ending(),
            time: None,
            playing: false,
            ended: false,
        })
    }
}
