ghost use Rattle.std.specs.Prelude.{◌≡◌, true, false, None, ℕ, ◌+◌, ◌-◌, ◌<◌, ◌≤◌, ◌^◌, ◌++◌, [], length, IfOk, OnErr, OnOk};
ghost use Rattle.std.specs.List.{find, list_any};
ghost use Rattle.std.specs.Option.{option_copied};
ghost use Rattle.mc_journal.specs.Films.{rank};
ghost use Rattle.mc_queue.specs.declared.queue.UnionError.TheVariants.{Mismatch};
ghost use Rattle.mc_packet.specs.declared.choice.Dir.TheVariants.{Back, Forward};
ghost use Rattle.mc_queue.specs.Times.{IsNearest, is_wanted};
ghost use Rattle.mc_queue.specs.Films.{AppendsFilm, KeepsFilm, UnitesFilm};
ghost use Rattle.mc_queue.specs.Union.{Compared, Meet, UnionGives, Unites, added};
ghost use Rattle.mc_queue.specs.Places.{before, Rise, is_from, weights};
ghost use Rattle.mc_journal.specs.Views.{from_place};
ghost use Rattle.mc_queue.specs.Queue.{Appends, DropsTo, IsNew, IsQueue, with_spare, first_of, first_that, last_that, next_cut, is_sync, is_sync_before, is_sync_from, is_sync_upto};
ghost use Rattle.mc_queue.specs.Blocks.{bound};

use crate::blocks::{Blocks, drop_before};
use crate::differences::Difference;
use crate::following::{next_after, next_with};
use crate::looking::{ahead_after, weight_behind, weight_moved};
use crate::lookups::{self, place_or};
use crate::parts::{weight_in, weight_of_all};
use crate::place::{earlier, is_at, later};
use crate::steps::Steps;
use crate::times::{greatest, nearest};
use crate::wants::{Want, first_wanted, is_any_wanted, last_of, last_wanted, next_wanted};
use mc_packet::{Dir, NoMemory, Packet, Packets, Pos, TrackNo};
use std::alloc::Global;
use std::marker::{Brand, Model};
use std::sync::ledger::{Blank, Ledger};

/// Why two queues were not united.
#[derive(Clone, Copy, Debug, PartialEq, Eq)]
pub enum UnionError {
    /// There was no memory for the other's packets.
    NoMemory,
    /// The first place that both intervals have at which the packets differ, with the time that
    /// each has there, in nanoseconds.
    Mismatch {
        pos: Pos,
        ours: Option<i64>,
        other: Option<i64>,
    },
}

/// All packets of one track from one place of the film up to, but without, another, in file order.
/// They are kept in blocks: one ring of packets, and beside it what is kept of each block, which is
/// 256 packets but for the first and the last one. Look-ups ask blocks by their summaries, so that
/// of n packets n / 256 summaries and a block or two are read. `append`, `reserve` and `union` alone
/// take memory.
#[derive(Drop)]
pub struct Queue {
    // Written by `new` alone.
    track: TrackNo,
    // The interval: `drop_upto` and `absorb` write where it begins, `append` and `absorb` where it
    // ends.
    from: Pos,
    to: Pos,
    // The packets: `append` and `absorb` add some, `drop_upto` drops some, `reserve` makes room.
    held: Blocks,
    // What they weigh, written with them.
    weight: u64,
    // A place that contracts do not see, which `look_from` and a drop behind it write, and the weight
    // of the packets from there on, written with it and with the packets.
    look: Pos,
    ahead: u64,
    // The first sync point behind the first packet, written with the packets.
    next: Option<Pos>,
}

impl Model for Queue {
    ghost use Rattle.mc_queue.specs.Queue.{QueueState};
    ghost use Rattle.mc_queue.specs.Blocks.{AreFields, seen};

    ghost Value = { QueueState };

    ghost view = { λ q. seen q.track q.from q.to q.held };

    ghost invariant = { λ q. AreFields q.track q.from q.to q.weight
        q.look q.ahead q.next q.held.packets };
}

impl Queue {
    /// An empty queue of the track, which begins and ends at a place.
    pub fn new(alloc: Global, track: TrackNo, at: Pos) -> Queue
        ensures value { IsNew track at result }
        ensures queue { IsQueue result }
    {
        Queue {
            track,
            from: at,
            to: at,
            held: Blocks::new(alloc),
            weight: 0,
            look: at,
            ahead: 0,
            next: None,
        }
    }

    /// The track.
    pub fn track(&self) -> TrackNo
        ensures value { result ≡ self.now.track }
        ensures queue { IsQueue self.now }
    {
        self.track
    }

    /// The place at which the interval begins.
    pub fn from(&self) -> Pos
        ensures value { result ≡ self.now.from }
        ensures queue { IsQueue self.now }
    {
        self.from
    }

    /// The place up to which the interval reaches, and which it does not have.
    pub fn to(&self) -> Pos
        ensures value { result ≡ self.now.to }
        ensures queue { IsQueue self.now }
    {
        self.to
    }

    /// The number of packets.
    pub fn len(&self) -> u64
        ensures value { result ≡ length self.now.packets }
        ensures queue { IsQueue self.now }
    {
        self.held.len() as u64
    }

    /// What the packets count for in a cache, in octets: of each its payload and 64 more.
    pub fn weight(&self) -> u64
        ensures value { result ≡ weights self.now.packets }
        ensures queue { IsQueue self.now }
    {
        self.weight
    }

    /// The same of the packets at or behind a place. It takes constant time for the place at which
    /// `look_from` last looked; for another one the blocks behind it are read by their summaries,
    /// and a block is walked.
    pub fn weight_from(&self, head: Pos) -> u64
        ensures { result ≡ weights (from_place (rank head) self.now.packets) }
    {
        if is_at(self.look, head) {
            self.ahead
        } else {
            weight_behind::<Brand>(&self.held, head, Blank::new(1))
        }
    }

    /// Lets `weight_from` answer for this place in constant time, from now on, and changes nothing
    /// that can be seen. It walks the packets between this place and the one before, whole blocks by
    /// their summaries: for a reader that goes on it takes constant time for each packet.
    pub fn look_from(&mut self, head: Pos)
        ensures same { self.new ≡ self.old }
    {
        if is_at(self.look, head) {
            return;
        }
        self.ahead = weight_moved::<Brand>(&self.held, self.look, self.ahead, head, Blank::new(1));
        self.look = head;
    }

    /// Makes room for so many more packets than there are, and changes nothing else. `NoMemory`
    /// comes only where there was less room, and the queue is then as it was.
    pub fn reserve(&mut self, more: u64) -> Result<(), NoMemory>
        ensures same { self.new ≡ with_spare self.old self.new.spare }
        ensures ok { OnOk result (more ≤ self.new.spare) }
        ensures err { OnErr result (self.new.spare ≡ self.old.spare) }
        ensures within { OnErr result (self.old.spare < more) }
        ensures roomier { self.old.spare ≤ self.new.spare }
    {
        self.held.reserve(more as usize)
    }

    /// Puts packets behind the others, and lets the interval reach up to `upto`. `NoMemory` comes
    /// only where there was less room than packets, and the queue is then as it was. It takes
    /// constant time for each packet, but for moves of all when the room grows, which are seldom.
    pub fn append(&mut self, upto: Pos, packets: Packets) -> Result<(), NoMemory>
        requires rise { Rise self.old.track (rank self.old.to) (rank upto) packets }
        requires fits { weights self.old.packets + weights packets < 2 ^ 64 }
        ensures ok { OnOk result (Appends upto packets self.old self.new) }
        ensures err { OnErr result ((self.new ≡ self.old) × (self.old.spare < length packets)) }
        ensures film { OnOk result (AppendsFilm self.old upto packets self.new) }
        ensures queue { IsQueue self.new }
    {
        let weight = weight_of_all(packets.as_slice());
        let ahead = weight_in(packets.as_slice(), self.look);
        let next = next_with(self.next, self.held.len(), packets.as_slice());
        self.held.append(packets)?;
        self.weight += weight;
        self.ahead += ahead;
        self.next = next;
        self.to = upto;
        Ok(())
    }

    /// Drops the packets before `cut`, at which the interval then begins, and gives the weight of
    /// those dropped. It takes no memory. It takes constant time for each of them where the times of
    /// sync points rise, and where they do not, a walk of the first block for each sync point more.
    pub fn drop_upto(&mut self, cut: Pos) -> u64
        requires after { rank self.old.from ≤ rank cut }
        requires before { rank cut ≤ rank self.old.to }
        ensures dropped { DropsTo cut self.old self.new }
        ensures film { KeepsFilm self.old self.new }
        ensures weight { result + weights self.new.packets ≡ weights self.old.packets }
        ensures queue { IsQueue self.new }
    {
        let dropped = drop_before(&mut self.held, cut);
        self.weight -= dropped;
        self.from = cut;
        self.ahead = ahead_after(self.look, self.ahead, cut, self.weight);
        self.look = later(self.look, cut);
        self.next = next_after::<Brand>(&self.held, self.next, Blank::new(1));
        dropped
    }

    /// The same as `find_first`, and counts nothing.
    pub fn first_at(&self, head: Pos) -> Option<&Packet>
        ensures { option_copied result ≡ find (is_from (rank head)) self.now.packets }
    {
        lookups::first_at::<Brand>(&self.held, head, Blank::new(1))
    }

    /// The first packet.
    pub fn first(&self) -> Option<&Packet>
        ensures value { option_copied result ≡ first_of self.now.packets }
        ensures queue { IsQueue self.now }
    {
        self.held.first()
    }

    /// The place up to which the queue is dropped next: its next sync point behind its first packet,
    /// else its end.
    pub fn next_cut(&self) -> Pos
        ensures value { result ≡ next_cut self.now }
        ensures within { (rank self.now.from ≤ rank result) × (rank result ≤ rank self.now.to) }
        ensures queue { IsQueue self.now }
    {
        place_or(self.to, self.next)
    }

    /// The least time of a sync point, in nanoseconds; with `t` the least one above it.
    pub fn least_sync_time_after(&self, t: Option<i64>) -> Option<i64>
        ensures { IsNearest Forward (is_wanted Forward false t) self.now.packets result }
    {
        nearest::<Brand>(&self.held, Dir::Forward, t, Blank::new(1))
    }

    /// The greatest time of a sync point, in nanoseconds; with `t` the greatest one below it.
    pub fn greatest_sync_time_before(&self, t: Option<i64>) -> Option<i64>
        ensures { IsNearest Back (is_wanted Back false t) self.now.packets result }
    {
        nearest::<Brand>(&self.held, Dir::Back, t, Blank::new(1))
    }

    /// The greatest time of a packet, in nanoseconds.
    pub fn greatest_time(&self) -> Option<i64>
        ensures { IsNearest Back (is_wanted Back true None) self.now.packets result }
    {
        greatest::<Brand>(&self.held, Blank::new(1))
    }

    /// The place of the last sync point, in file order, with a time of at most `t` nanoseconds. Each
    /// reading of a summary or a packet adds a step.
    pub fn find_sync<L: Ledger>(&self, t: i64, steps: &mut Steps<L>) -> Option<Pos>
        ensures value { result ≡ last_that (is_sync_upto t) self.now.packets }
        ensures cost { steps.new ≤ steps.old + bound (length self.now.packets) }
    {
        last_of(&self.held, Want::Upto(t), steps)
    }

    /// The first packet at or behind a place. Each reading of a packet adds a step.
    pub fn find_first<'a, L: Ledger>(
        &'a self,
        head: Pos,
        steps: &mut Steps<L>,
    ) -> Option<&'a Packet>
        ensures value { option_copied result ≡ find (is_from (rank head)) self.now.packets }
        ensures cost { steps.new ≤ steps.old + bound (length self.now.packets) }
    {
        lookups::find_first(&self.held, head, steps)
    }

    /// The same as `find_sync`, and counts nothing.
    pub fn last_sync_upto(&self, t: i64) -> Option<Pos>
        ensures { result ≡ last_that (is_sync_upto t) self.now.packets }
    {
        last_wanted::<Brand>(&self.held, Want::Upto(t), Blank::new(1))
    }

    /// Whether a sync point has a time of at least `t` nanoseconds.
    pub fn has_sync_from(&self, t: i64) -> bool
        ensures { result ≡ list_any (is_sync_from t) self.now.packets }
    {
        is_any_wanted::<Brand>(&self.held, Want::From(t), Blank::new(1))
    }

    /// The place of the first sync point, in file order.
    pub fn first_sync(&self) -> Option<Pos>
        ensures { result ≡ first_that is_sync self.now.packets }
    {
        first_wanted::<Brand>(&self.held, Want::Any, Blank::new(1))
    }

    /// The place of the first sync point, in file order, with a time of at least `t` nanoseconds.
    pub fn first_sync_from(&self, t: i64) -> Option<Pos>
        ensures { result ≡ first_that (is_sync_from t) self.now.packets }
    {
        first_wanted::<Brand>(&self.held, Want::From(t), Blank::new(1))
    }

    /// The place of the last sync point, in file order.
    pub fn last_sync(&self) -> Option<Pos>
        ensures { result ≡ last_that is_sync self.now.packets }
    {
        last_wanted::<Brand>(&self.held, Want::Any, Blank::new(1))
    }

    /// Whether a sync point has a time below `t` nanoseconds.
    pub fn has_sync_before(&self, t: i64) -> bool
        ensures { result ≡ list_any (is_sync_before t) self.now.packets }
    {
        is_any_wanted::<Brand>(&self.held, Want::Before(t), Blank::new(1))
    }

    /// Makes this queue both together, where their intervals meet: each packet stands in it once,
    /// and the other is left empty. It is refused with `Mismatch` exactly where the packets differ
    /// at a place that both intervals have, and with `NoMemory` only where there was less room than
    /// packets to add; both are then as they were. Two queues that hold exactly a film's packets of
    /// their track in their intervals never mismatch, and together hold exactly the film's packets
    /// of the joined interval.
    pub fn union(&mut self, other: &mut Queue) -> Result<(), UnionError>
        requires meet { Meet self.old other.old }
        requires fits { weights self.old.packets + weights other.old.packets < 2 ^ 64 }
        ensures value { UnionGives self.old other.old result self.new other.new }
        ensures film { UnitesFilm self.old other.old result self.new }
        ensures queue { IsQueue self.new }
    {
        // The interval of a queue is in order.
        let _ = &self.from;
        self.unite(other)
    }

    fn unite(&mut self, other: &mut Queue) -> Result<(), UnionError>
        requires meet { Meet self.old other.old }
        requires fits { weights self.old.packets + weights other.old.packets < 2 ^ 64 }
        ensures value { UnionGives self.old other.old result self.new other.new }
        ensures queue { IsQueue self.new }
    {
        if let Some(difference) = self.difference(other) {
            return Err(mismatch(difference));
        }
        let more = self.added(other);
        if self.held.reserve(more).is_err() {
            return Err(UnionError::NoMemory);
        }
        self.absorb(other);
        Ok(())
    }

    /// The first place that both intervals have at which the packets differ, and the time that each
    /// has there: what `union` would refuse.
    pub fn difference(&self, other: &Queue) -> Option<Difference>
        requires meet { Meet self.now other.now }
        ensures { Compared self.now other.now result }
    {
        self.held.compare(
            &other.held,
            later(self.from, other.from),
            earlier(self.to, other.to),
        )
    }

    /// How many packets of the other stand outside this interval: so many `union` would take.
    pub fn added(&self, other: &Queue) -> usize
        requires meet { Meet self.now other.now }
        ensures { result ≡ added self.now other.now }
    {
        other.held.count_outside(self.from, self.to)
    }

    /// Takes the other's packets that stand outside this interval, into the room that there is. It is
    /// `union` where it is known not to be refused.
    pub fn absorb(&mut self, other: &mut Queue)
        requires meet { Meet self.old other.old }
        requires fits { weights self.old.packets + weights other.old.packets < 2 ^ 64 }
        requires room { added self.old other.old ≤ self.old.spare }
        ensures value { Unites self.old other.old self.new other.new }
        ensures queue { IsQueue self.new }
    {
        self.weight += other.held.weight_outside(self.from, self.to);
        self.held.absorb(&mut other.held, self.from, self.to);
        self.from = earlier(self.from, other.from);
        self.to = later(self.to, other.to);
        self.ahead = weight_behind::<Brand>(&self.held, self.look, Blank::new(1));
        self.next = next_wanted::<Brand>(&self.held, Blank::new(1));
        other.to = other.from;
        other.weight = 0;
        other.ahead = 0;
        other.next = None;
    }
}

fn mismatch(difference: Difference) -> UnionError
    ensures { result ≡ Mismatch difference.pos difference.ours difference.other }
{
    UnionError::Mismatch {
        pos: difference.pos,
        ours: difference.ours,
        other: difference.other,
    }
}
