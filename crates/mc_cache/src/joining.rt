ghost use Rattle.std.specs.Prelude.{◌≡◌, ◌+◌, ◌*◌, ◌≤◌, ◌<◌, ◌^◌, List, [], ◌∷◌, Bool, false, true, if◌then◌else◌, length, vec_capacity, vec_len};
ghost use Rattle.std.specs.List.{AllByRecursion};
ghost use Rattle.mc_range.specs.Range.{IsRange, RangeState, meets_range};
ghost use Rattle.mc_cache.specs.Cache.{IsOther, weight_in, weight_of};
ghost use Rattle.mc_cache.specs.Joining.{JoinsOne, Joins};
ghost use Rattle.mc_cache.specs.Rooms.{HasRoomFor, meets_any};

use crate::listing::take_touching;
use crate::removals::push_all;
use mc_journal::{Cause, Removal};
use mc_range::{Range, UnionError};

/// Joins a range with one that touches it, or tells that they differ. Gives how many joins that is.
#[tactic(auto, using(crate::proofs::United::never_lacks, crate::proofs::United::weighs, crate::proofs::United::room_left, crate::proofs::Spare::room_kept))]
fn join_one(range: &mut Range, mut other: Range, drops: &mut Vec<Removal>) -> u32
    requires touch { meets_range range.old other ≡ true }
    requires fits { weight_in range.old + weight_in other < 2 ^ 64 }
    requires space { HasRoomFor (other ∷ []) 0 range.old }
    requires room { vec_len drops.old + 3 ≤ vec_capacity drops.old }
    ensures value { (b : Bool) × (result ≡ (if b then 1 else 0))
        × JoinsOne range.old other b range.new drops.old.items drops.new.items }
    ensures one { result ≤ 1 }
    ensures range { IsRange range.new }
    ensures weight { weight_in range.new ≤ weight_in range.old + weight_in other }
    ensures space { (rs : List RangeState) → HasRoomFor (other ∷ rs) 0 range.old
        → HasRoomFor rs 0 range.new }
    ensures few { vec_len drops.new ≤ vec_len drops.old + 3 }
    ensures kept { vec_capacity drops.old ≤ vec_capacity drops.new }
{
    let _marks = (range.mark(), other.mark());
    match range.join(&mut other) {
        Ok(()) => 1,
        Err(
            UnionError::Mismatch {
                pos,
                ours,
                other: theirs,
            },
        ) => {
            let cause = Cause::Mismatch {
                pos,
                ours,
                other: theirs,
            };
            push_all(drops, &other, cause);
            0
        }
        Err(UnionError::NoMemory) => 0,
    }
}

/// Joins a range with each other that touches it, in their order, and gives the number of joins.
#[tactic(auto, using(crate::proofs::United::next_join, crate::proofs::United::moved_room, crate::proofs::Lists::fewer))]
pub(crate) fn join_all(range: &mut Range, others: &mut Vec<Range>, drops: &mut Vec<Removal>) -> u32
    requires all { AllByRecursion IsOther others.old.items }
    requires fits { weight_in range.old + weight_of others.old.items < 2 ^ 64 }
    requires few { length others.old.items ≤ 10 }
    requires space { HasRoomFor others.old.items 0 range.old }
    requires none { drops.old.items ≡ [] }
    requires room { vec_len drops.old + 3 * length others.old.items ≤ vec_capacity drops.old }
    ensures value { Joins range.old others.old.items range.new others.new.items
        result drops.new.items }
    ensures last { meets_any range.new others.new.items ≡ false }
    ensures range { IsRange range.new }
    ensures all { AllByRecursion IsOther others.new.items }
    ensures fits { weight_in range.new + weight_of others.new.items < 2 ^ 64 }
    ensures few { length others.new.items ≤ length others.old.items }
    ensures kept { vec_capacity others.new ≡ vec_capacity others.old }
{
    let _mark = range.mark();
    let mut joined = 0;
    while let Some(other) = take_touching(range, others) {
        joined += join_one(range, other, drops);
    }
    joined
}
