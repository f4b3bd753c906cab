//! Joins of the current range with others, told in the journal.
ghost use Rattle.std.specs.Prelude.{◌≡◌, ◌≤◌, ◌+◌, length, vec_len, vec_capacity};
ghost use Rattle.mc_cache.specs.Cache.{IsCache, count_of, ranges_of};
ghost use Rattle.mc_cache.specs.Pruning.{back_of};
ghost use Rattle.mc_cache.specs.Rooms.{HasRoomToJoin};
ghost use Rattle.mc_calls.specs.Settling.{Settles, TellsJoins, with_drops, with_joins};

use crate::demux::Records;
use crate::trim::trim;
use mc_cache::{Cache, Drops};
use mc_journal::DemuxRecord;
use mc_packet::Heads;

// Tells so many joins.
fn tell_joins(by: u32, joined: u32, journal: &mut Records)
    requires room { vec_len journal.old + joined ≤ vec_capacity journal.old }
    ensures told { journal.new.items ≡ with_joins by journal.old.items joined }
    ensures len { vec_len journal.new ≡ vec_len journal.old + joined }
    ensures capacity { vec_capacity journal.new ≡ vec_capacity journal.old }
{
    for _ in 0..joined {
        journal.push_reserved(DemuxRecord::Joined { by });
    }
}

// Tells each drop.
pub(crate) fn tell_drops(by: u32, drops: &Drops, journal: &mut Records)
    requires room { vec_len journal.old + length drops.now ≤ vec_capacity journal.old }
    ensures told { journal.new.items ≡ with_drops by journal.old.items drops.now }
    ensures len { vec_len journal.new ≡ vec_len journal.old + length drops.now }
    ensures capacity { vec_capacity journal.new ≡ vec_capacity journal.old }
{
    for drop in drops.as_slice() {
        journal.push_reserved(DemuxRecord::Dropped { by, drop: *drop });
    }
}

// Joins the current range with each other one that touches it, and tells each join.
#[tactic(auto, using(mc_calls::proofs::Roomy::tied_up))]
fn join(by: u32, cache: &mut Cache, journal: &mut Records)
    // there is room for the joins and for what is told of them
    requires joins { HasRoomToJoin cache.old }
    requires room { vec_len journal.old + 30 ≤ vec_capacity journal.old }
    // what is left, and told
    ensures value { TellsJoins by cache.old journal.old.items cache.new journal.new.items }
    // how much room is left
    ensures len { vec_len journal.new ≤ vec_len journal.old + 30 }
    ensures capacity { vec_capacity journal.new ≡ vec_capacity journal.old }
    ensures fewer { count_of (ranges_of cache.new) ≤ count_of (ranges_of cache.old) }
    ensures cache { IsCache cache.new }
{
    // for the proof alone: it says what is true of every cache
    let _limits = cache.limits();
    if let Ok(joins) = cache.join_current() {
        tell_joins(by, joins.joined, journal);
        tell_drops(by, &joins.dropped, journal);
    }
}

// Joins the current range with each other one that touches it, and then drops packets as the limit
// asks. Each join and each drop is told.
pub(crate) fn settle(by: u32, cache: &mut Cache, heads: &Heads, journal: &mut Records)
    requires joins { HasRoomToJoin cache.old }
    requires room { vec_len journal.old + count_of (ranges_of cache.old) + 32
        ≤ vec_capacity journal.old }
    ensures value { Settles by heads.now cache.old journal.old.items cache.new journal.new.items }
    ensures within { back_of heads.now cache.new ≤ cache.new.limits.back }
    ensures room { vec_len journal.new + 2 ≤ vec_capacity journal.new }
    ensures cache { IsCache cache.new }
{
    join(by, cache, journal);
    trim(by, cache, heads, journal);
}
