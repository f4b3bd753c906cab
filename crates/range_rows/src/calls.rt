use crate::answers::{push_cut, push_range, push_refusal, push_whole};
use crate::ranges::{add_track, join, put, range_in, reach, retrack};
use mc_packet::TrackNo;
use mc_range::{NoMemory, Range};
use rows::{Json, RowError, none, number_in, one, push_flag, three, two};
use rows_packets::{
    block_in, choice_in, dir_in, heads_in, kind_in, push_heads, push_time, track_in,
};
use std::alloc::Global;
use std::fmt::Write;

pub fn call_new(
    alloc: Global,
    held: &mut Option<Range>,
    arguments: &[Json<'_>],
    out: &mut String,
) -> Result<(), RowError> {
    let range = range_in(alloc, arguments)?;
    push_range(&range, out)?;
    *held = Some(range);
    Ok(())
}

// Whether the one touches the other, and the other the one.
pub fn call_touches(
    range: &Range,
    other: &Range,
    arguments: &[Json<'_>],
    out: &mut String,
) -> Result<(), RowError> {
    none(arguments)?;
    push_flag(out, range.touches(other))?;
    out.push(' ')?;
    Ok(push_flag(out, other.touches(range))?)
}

// The range, and how many packets the other still has.
pub fn call_join(
    range: &mut Range,
    other: &mut Range,
    arguments: &[Json<'_>],
    out: &mut String,
) -> Result<(), RowError> {
    none(arguments)?;
    match join(range, other) {
        Some(Ok(())) => push_range(range, out)?,
        Some(Err(error)) => push_refusal(error, out)?,
        None => return Ok(out.push_str("apart")?),
    }
    let left = other.packets();
    Ok(write!(out, " and {left}")?)
}

pub fn call_whole(range: &Range, arguments: &[Json<'_>], out: &mut String) -> Result<(), RowError> {
    none(arguments)?;
    Ok(push_whole(range, out)?)
}

fn push_taker(taker: Option<TrackNo>, out: &mut String) -> Result<(), NoMemory> {
    match taker {
        Some(track) => write!(out, "taken by {track}"),
        None => out.push_str("taken by none"),
    }
}

pub fn call_put(
    alloc: Global,
    range: &mut Range,
    arguments: &[Json<'_>],
    out: &mut String,
) -> Result<(), RowError> {
    let taker = put(alloc, range, one(arguments)?)?;
    Ok(push_taker(taker, out)?)
}

pub fn call_reach(
    alloc: Global,
    range: &mut Range,
    arguments: &[Json<'_>],
    out: &mut String,
) -> Result<(), RowError> {
    let (to, ending) = two(arguments)?;
    let taker = reach(alloc, range, to, ending)?;
    Ok(push_taker(taker, out)?)
}

pub fn call_len(range: &Range, arguments: &[Json<'_>], out: &mut String) -> Result<(), RowError> {
    let len = range.len(track_in(one(arguments)?)?);
    Ok(write!(out, "{len}")?)
}

pub fn call_reserve(
    range: &mut Range,
    arguments: &[Json<'_>],
    out: &mut String,
) -> Result<(), RowError> {
    let (track, more) = two(arguments)?;
    range.reserve(track_in(track)?, block_in(more)?)?;
    Ok(out.push_str("room")?)
}

pub fn call_serves(
    range: &Range,
    arguments: &[Json<'_>],
    out: &mut String,
) -> Result<(), RowError> {
    let (set, t, dir) = three(arguments)?;
    match range.serves(choice_in(set)?, number_in(t)?, dir_in(dir)?) {
        Some(heads) => Ok(push_heads(heads, out)?),
        None => Ok(out.push_str("no")?),
    }
}

pub fn call_bounds(
    range: &Range,
    arguments: &[Json<'_>],
    out: &mut String,
) -> Result<(), RowError> {
    none(arguments)?;
    match range.bounds() {
        Some((least, greatest)) => {
            push_time(Some(least), out)?;
            out.push(' ')?;
            Ok(push_time(Some(greatest), out)?)
        }
        None => Ok(out.push_str("none")?),
    }
}

// What is counted from the heads on, and again behind a look from there.
pub fn call_weight_from(
    range: &mut Range,
    arguments: &[Json<'_>],
    out: &mut String,
) -> Result<(), RowError> {
    let heads = heads_in(one(arguments)?)?;
    let walked = range.weight_from(&heads);
    range.look_from(&heads);
    let kept = range.weight_from(&heads);
    Ok(write!(out, "{walked} {kept}")?)
}

// Up to the heads, where there are some.
pub fn call_cut(
    range: &mut Range,
    arguments: &[Json<'_>],
    out: &mut String,
) -> Result<(), RowError> {
    if arguments.is_empty() {
        return Ok(push_cut(range.cut(None), out)?);
    }
    let heads = heads_in(one(arguments)?)?;
    Ok(push_cut(range.cut(Some(&heads)), out)?)
}

pub fn call_retrack(
    range: &mut Range,
    arguments: &[Json<'_>],
    out: &mut String,
) -> Result<(), RowError> {
    retrack(range, choice_in(one(arguments)?)?)?;
    Ok(push_whole(range, out)?)
}

// The kind, the track, its start and the mark.
pub fn call_add_track(
    range: &mut Range,
    arguments: &[Json<'_>],
    out: &mut String,
) -> Result<(), RowError> {
    let [kind, track, start, mark] = arguments else {
        return Err(RowError::BadRow);
    };
    add_track(
        range,
        kind_in(kind)?,
        track_in(track)?,
        block_in(start)?,
        block_in(mark)?,
    )?;
    Ok(push_range(range, out)?)
}
