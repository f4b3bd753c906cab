use crate::film::{heads_at, read};
use mc_cache::Cache;
use mc_packet::{Choice, Dir, Heads, NoMemory, Pos, Starts};
use rows::{RowError, push_flag};
use rows_packets::mark_at;
use std::alloc::Global;
use std::fmt::Write;

const VIDEO: Choice = Choice {
    video: Some(1),
    audio: None,
    sub: None,
};

/// Does what a letter and a number say.
pub fn act(
    alloc: Global,
    cache: &mut Cache,
    letter: char,
    number: u16,
    out: &mut String,
) -> Result<(), RowError> {
    match letter {
        's' => start(cache, number as u64, out),
        'b' => Ok(seek(cache, number as i64, Dir::Back, out)?),
        'f' => Ok(seek(cache, number as i64, Dir::Forward, out)?),
        'c' => Ok(drop_one(cache, number, out)?),
        'j' => join(cache, out),
        'm' => Ok(push_mark(cache, out)?),
        'v' => view(cache, out),
        'l' => Ok(leave(cache, out)?),
        'k' | 'p' | 'x' | 'r' | 'e' => read(alloc, cache, letter, number),
        _ => Err(RowError::BadRow),
    }
}

fn push_interval(from: Pos, to: Pos, out: &mut String) -> Result<(), NoMemory> {
    write!(out, "{}-{} ", from.block, to.block)
}

fn start(cache: &mut Cache, block: u64, out: &mut String) -> Result<(), RowError> {
    let starts = Starts {
        video: Some(block),
        audio: None,
        sub: None,
        mark: mark_at(block),
    };
    cache.make_room_to_start(VIDEO, &starts)?;
    for drop in cache.start_range(VIDEO, &starts)?.as_slice() {
        push_interval(drop.from, drop.to, out)?;
    }
    Ok(())
}

fn seek(cache: &mut Cache, t: i64, dir: Dir, out: &mut String) -> Result<(), NoMemory> {
    match cache.choose(VIDEO, t, dir) {
        Some(
            Heads {
                video: Some(head),
                ..
            },
        ) => write!(out, "{} ", head.block),
        _ => out.push_str("no "),
    }
}

fn drop_one(cache: &mut Cache, head: u16, out: &mut String) -> Result<(), NoMemory> {
    match cache.prune(&heads_at(head)) {
        Some(drop) => push_interval(drop.from, drop.to, out),
        None => out.push_str("no "),
    }
}

fn join(cache: &mut Cache, out: &mut String) -> Result<(), RowError> {
    let joins = cache.join_current()?;
    let (joined, dropped) = (joins.joined, joins.dropped.len());
    Ok(write!(out, "{joined}+{dropped} ")?)
}

fn push_mark(cache: &Cache, out: &mut String) -> Result<(), NoMemory> {
    match cache.mark() {
        Some(mark) => write!(out, "mark {} ", mark.pos),
        None => out.push_str("no mark "),
    }
}

fn view(cache: &Cache, out: &mut String) -> Result<(), RowError> {
    let view = cache.view(&heads_at(0))?;
    out.push_str("bof ")?;
    push_flag(out, view.bof)?;
    Ok(out.push(' ')?)
}

fn leave(cache: &mut Cache, out: &mut String) -> Result<(), NoMemory> {
    cache.leave_current();
    out.push_str("left ")
}

/// Appends the ranges, and how many packets they hold.
pub fn push_held(cache: &Cache, out: &mut String) -> Result<(), RowError> {
    for range in cache.view(&heads_at(0))?.ranges.as_slice() {
        if let Some((from, to)) = range.spans.video {
            push_interval(from, to, out)?;
        }
    }
    let held = cache.held();
    Ok(write!(out, "of {held}")?)
}
