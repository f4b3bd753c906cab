ghost use Rattle.std.specs.Prelude.{◌≡◌, ◌+◌, ◌++◌, ◌∷◌, [], IfOk, OnOk};
ghost use Rattle.std.specs.Option.{is_some};
ghost use Rattle.mc_value.specs.declared.value.Value.TheVariants as value;
ghost use Rattle.mc_props.specs.Cache.{bounds_maps, cache_map, ends_of, octets_of, range_map, range_maps, time_value};
ghost use Rattle.mc_props.specs.Tracks.{number_value};

use crate::track_values::{number_value, put};
use mc_packet::{CacheView, RangeView};
use mc_value::{NoMemory, Pairs, Text, Value, Values, seconds_text};
use std::alloc::Global;

/// `demuxer-cache-state`: the ranges with bounds, in order of last use, whether the current one
/// begins where the film does and reaches its ending, and the octets ahead and in all.
pub(crate) fn cache_map(alloc: Global, view: &CacheView) -> Result<Value, NoMemory>
    ensures { IfOk result (λ v. v ≡ cache_map view.now) }
{
    let mut pairs = Pairs::new(alloc);
    let ranges = range_maps(alloc, view.ranges.as_slice())?;
    put(alloc, &mut pairs, "seekable-ranges", Value::Array(ranges))?;
    put_ends(alloc, &mut pairs, view)?;
    put_octets(alloc, &mut pairs, view)?;
    Ok(Value::Map(pairs))
}

fn put_ends(alloc: Global, pairs: &mut Pairs, view: &CacheView) -> Result<(), NoMemory>
    ensures { OnOk result (pairs.new ≡ pairs.old ++ ends_of view.now) }
{
    put_flag(alloc, pairs, "bof-cached", view.bof)?;
    put_flag(alloc, pairs, "eof-cached", has_ending(view))
}

fn put_flag(alloc: Global, pairs: &mut Pairs, name: &str, flag: bool) -> Result<(), NoMemory>
    ensures { OnOk result (pairs.new ≡ pairs.old ++ (name.now, value.Flag flag) ∷ []) }
{
    put(alloc, pairs, name, Value::Flag(flag))
}

fn has_ending(view: &CacheView) -> bool
    ensures { result ≡ is_some view.now.ending }
{
    view.ending.is_some()
}

fn put_octets(alloc: Global, pairs: &mut Pairs, view: &CacheView) -> Result<(), NoMemory>
    ensures { OnOk result (pairs.new ≡ pairs.old ++ octets_of view.now) }
{
    put(alloc, pairs, "fw-bytes", number_value(view.forward))?;
    put(alloc, pairs, "total-bytes", total(view.forward, view.back))
}

/// The sum as a value, as far as an `i64` holds it.
fn total(forward: u64, back: u64) -> Value
    ensures { result ≡ number_value (forward + back) }
{
    number_value(forward.saturating_add(back))
}

fn range_maps(alloc: Global, ranges: &[RangeView]) -> Result<Values, NoMemory>
    ensures { IfOk result (λ vs. vs ≡ range_maps ranges.now) }
{
    let mut maps = Values::new(alloc);
    for range in ranges {
        put_range(alloc, &mut maps, range.bounds)?;
    }
    Ok(maps)
}

fn put_range(alloc: Global, maps: &mut Values, bounds: Option<(i64, i64)>) -> Result<(), NoMemory>
    ensures { OnOk result (maps.new ≡ maps.old ++ bounds_maps bounds) }
{
    match bounds {
        Some((start, end)) => maps.push(range_map(alloc, start, end)?),
        None => Ok(()),
    }
}

fn range_map(alloc: Global, start: i64, end: i64) -> Result<Value, NoMemory>
    ensures { IfOk result (λ v. v ≡ range_map start end) }
{
    let mut pairs = Pairs::new(alloc);
    put(alloc, &mut pairs, "start", time_value(alloc, start)?)?;
    put(alloc, &mut pairs, "end", time_value(alloc, end)?)?;
    Ok(Value::Map(pairs))
}

/// A time in nanoseconds as a value: its seconds with six decimals.
pub(crate) fn time_value(alloc: Global, time: i64) -> Result<Value, NoMemory>
    ensures { IfOk result (λ v. v ≡ time_value time) }
{
    Ok(Value::Str(seconds_text(alloc, time)?))
}
