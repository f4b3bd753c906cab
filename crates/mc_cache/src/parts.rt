ghost use Rattle.std.specs.Prelude.{◌≡◌, ◌+◌, ◌*◌, ◌≤◌, ◌<◌, ◌^◌, ◌++◌, [], ◌∷◌, true, false, Some, None, if◌then◌else◌, length, take, drop, option_map, vec_capacity, vec_len, IfSome, IfNone, IsSomeAnd};
ghost use Rattle.std.specs.List.{AllByRecursion};
ghost use Rattle.mc_journal.specs.declared.record.Cause.TheVariants.{TooMany, TrackChanged};
ghost use Rattle.mc_packet.specs.Choices.{is_distinct, is_empty};
ghost use Rattle.mc_range.specs.Range.{IsRange, RangeState};
ghost use Rattle.mc_range.specs.Cutting.{IsCut, weight_from};
ghost use Rattle.mc_range.specs.Tracks.{retracked};
ghost use Rattle.mc_cache.specs.Cache.{IsOther, holds, in_front, weight_in, weight_of};
ghost use Rattle.mc_cache.specs.Joining.{JoinsFrom};
ghost use Rattle.mc_cache.specs.Pruning.{CutsFront, CutsRange, ahead_in};
ghost use Rattle.mc_cache.specs.Removals.{removals_lost, removals_of_all};
ghost use Rattle.mc_cache.specs.Rooms.{HasRoomFor};

use crate::joining::join_all;
use crate::listing::holds;
use crate::removals::{push_lost, push_ranges};
use mc_journal::{Cause, Removal};
use mc_packet::{Choice, Heads};
use mc_range::{Cut, Range};

/// Tells of the queues that the current range loses when a set is selected.
pub(crate) fn tell_lost(drops: &mut Vec<Removal>, range: &Option<Range>, set: Choice)
    requires { vec_len drops.old + 3 * length (in_front range.now []) ≤ vec_capacity drops.old }
    ensures items { drops.new.items ≡ drops.old.items ++ removals_lost TrackChanged set range.now }
    ensures few { vec_len drops.new ≤ vec_len drops.old + 3 * length (in_front range.now []) }
    ensures room { vec_capacity drops.old ≤ vec_capacity drops.new }
{
    if let Some(range) = range {
        push_lost(drops, range, Cause::TrackChanged, set);
    }
}

fn is_empty(set: Choice) -> bool
    ensures { result ≡ is_empty set }
{
    set.video.is_none() && set.audio.is_none() && set.sub.is_none()
}

#[tactic(auto, using(crate::proofs::Reselected::retracked_weighs))]
fn retrack(range: &mut Range, set: Choice)
    requires distinct { is_distinct set ≡ true }
    ensures value { range.new ≡ retracked set range.old }
    ensures weight { weight_of (in_front (Some range.new) [])
        ≤ weight_of (in_front (Some range.old) []) }
    ensures range { IsRange range.new }
{
    range.retrack(set);
}

/// Selects other tracks in the current range, which goes where none is selected.
pub(crate) fn reselect(range: &mut Option<Range>, set: Choice)
    requires distinct { is_distinct set ≡ true }
    ensures value { range.new
        ≡ (if is_empty set then None else option_map (retracked set) range.old) }
    ensures weight { weight_of (in_front range.new []) ≤ weight_of (in_front range.old []) }
    ensures number { length (in_front range.new []) ≤ length (in_front range.old []) }
    ensures range { IfSome range.new IsRange }
{
    if is_empty(set) {
        *range = None;
    } else if let Some(range) = range {
        retrack(range, set);
    }
}

/// Keeps the first nine ranges, and tells of the others.
pub(crate) fn keep_nine(others: &mut Vec<Range>, drops: &mut Vec<Removal>)
    requires few { length others.old.items ≤ 10 }
    requires none { drops.old.items ≡ [] }
    requires room { 3 ≤ vec_capacity drops.old }
    ensures left { others.new.items ≡ take 9 others.old.items }
    ensures told { drops.new.items ≡ removals_of_all (TooMany 11) (drop 9 others.old.items) }
    ensures kept { vec_capacity others.new ≡ vec_capacity others.old }
{
    if others.len() > 9 {
        push_ranges(drops, &others.as_slice()[9..], Cause::TooMany { count: 11 });
        others.truncate(9);
    }
}

/// Joins the current range with each other that touches it.
pub(crate) fn join_others(
    range: &mut Option<Range>,
    others: &mut Vec<Range>,
    drops: &mut Vec<Removal>,
) -> u32
    requires all { AllByRecursion IsOther others.old.items }
    requires fits { weight_of (in_front range.old others.old.items) < 2 ^ 64 }
    requires few { length others.old.items ≤ 10 }
    requires space { IfSome range.old (λ r. HasRoomFor others.old.items 0 r) }
    requires none { drops.old.items ≡ [] }
    requires room { vec_len drops.old + 3 * length others.old.items ≤ vec_capacity drops.old }
    ensures value { JoinsFrom range.old others.old.items range.new others.new.items
        result drops.new.items }
    ensures range { IfSome range.new IsRange }
    ensures all { AllByRecursion IsOther others.new.items }
    ensures fits { weight_of (in_front range.new others.new.items) < 2 ^ 64 }
    ensures few { length (in_front range.new others.new.items)
        ≤ length (in_front range.old others.old.items) }
    ensures kept { vec_capacity others.new ≡ vec_capacity others.old }
{
    match range {
        Some(range) => join_all(range, others, drops),
        None => 0,
    }
}

// ---- drops

/// Makes the next drop of the last other range, which then stands last again if it holds a packet.
#[tactic(auto, using(crate::proofs::Pruned::some_cut, crate::proofs::Pruned::cut_weighs))]
fn cut_last(mut last: Range, others: &mut Vec<Range>) -> Option<Cut>
    requires some { holds last ≡ true }
    requires room { vec_len others.old < vec_capacity others.old }
    ensures value { IsSomeAnd result (λ c. (q : RangeState) × IsCut None last q (Some c)
        × (others.new.items ≡ others.old.items ++ (if holds q then q ∷ [] else []))
        × IsRange q × (weight_of (q ∷ []) ≤ weight_of (last ∷ []))) }
    ensures kept { vec_capacity others.old ≤ vec_capacity others.new }
{
    let cut = last.cut(None);
    if holds(&last) {
        let _ = others.push(last);
    }
    cut
}

/// Makes the next drop of a range up to the heads.
#[tactic(auto, using(crate::proofs::Pruned::ahead_told, crate::proofs::Pruned::cut_weighs))]
fn cut_range(range: &mut Range, heads: &Heads) -> Option<Cut>
    requires over { weight_from heads.now range.old.queues < weight_in range.old }
    ensures value { IsSomeAnd result (λ c. IsCut (Some heads.now) range.old range.new (Some c)) }
    ensures weight { weight_in range.new ≤ weight_in range.old }
    ensures range { IsRange range.new }
{
    let _mark = range.mark();
    range.cut(Some(heads))
}

/// Makes the next drop of the current range.
fn cut_current(range: &mut Option<Range>, heads: &Heads) -> Option<Cut>
    requires over { ahead_in heads.now range.old < weight_of (in_front range.old []) }
    ensures value { IsSomeAnd result (λ c. CutsFront heads.now range.old range.new c) }
    ensures weight { weight_of (in_front range.new []) ≤ weight_of (in_front range.old []) }
    ensures number { length (in_front range.new []) ≤ length (in_front range.old []) }
    ensures range { IfSome range.new IsRange }
{
    match range {
        Some(range) => cut_range(range, heads),
        None => None,
    }
}

/// Makes the next drop of the last other range, else of the current one.
pub(crate) fn cut_next(
    range: &mut Option<Range>,
    others: &mut Vec<Range>,
    heads: &Heads,
) -> Option<Cut>
    requires all { AllByRecursion IsOther others.old.items }
    requires over { ahead_in heads.now range.old < weight_of (in_front range.old others.old.items) }
    requires room { length others.old.items ≤ vec_capacity others.old }
    ensures value { IsSomeAnd result
        (λ c. CutsRange heads.now range.old others.old.items range.new others.new.items c) }
    ensures all { AllByRecursion IsOther others.new.items }
    ensures weight { weight_of (in_front range.new others.new.items)
        ≤ weight_of (in_front range.old others.old.items) }
    ensures number { length (in_front range.new others.new.items)
        ≤ length (in_front range.old others.old.items) }
    ensures range { IfSome range.old IsRange → IfSome range.new IsRange }
    ensures kept { vec_capacity others.old ≤ vec_capacity others.new }
{
    match others.pop() {
        Some(last) => cut_last(last, others),
        None => cut_current(range, heads),
    }
}

// ---- octets

/// The weight of the current range's packets at the heads or behind them.
#[tactic(auto, using(crate::proofs::Reselected::ahead_at_most))]
pub(crate) fn ahead_in(range: &Option<Range>, heads: &Heads) -> u128
    ensures value { result ≡ ahead_in heads.now range.now }
    ensures most { result ≤ weight_of (in_front range.now []) }
{
    match range {
        Some(range) => range.weight_from(heads),
        None => 0,
    }
}

/// Lets the current range answer for these heads without a walk.
pub(crate) fn look_in(range: &mut Option<Range>, heads: &Heads)
    ensures same { range.new ≡ range.old }
    ensures range { IfSome range.new IsRange }
{
    if let Some(range) = range {
        range.look_from(heads);
    }
}

/// The weight of the current range.
pub(crate) fn weight_in(range: &Option<Range>) -> u128
    ensures { result ≡ weight_of (in_front range.now []) }
{
    match range {
        Some(range) => range.weight(),
        None => 0,
    }
}
