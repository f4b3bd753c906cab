//! Times a list of films: each of its steps, and what is new to twenty properties that are watched.
//! Without a word it is a short list, and what came of it is printed without times, the same at every
//! run.
#![tactic(auto)]

mod properties;
mod steps;
mod watching;

use mc_playlist::{ListFacts, Playlist};
use std::alloc::Global;
use std::time::{Clock, Instant};
use std::{env, io};

const FEW: u32 = 100;

/// Says how often something was done, and where times are asked for in how many nanoseconds.
pub fn tell<R: Print + Clock>(
    rt: &R,
    what: &str,
    count: u32,
    start: Instant,
    is_timed: bool,
) -> io::Result<()> {
    if !is_timed {
        return println!(rt; "{what}: {count}");
    }
    let nanoseconds = start.elapsed(rt)?.as_nanos();
    let each = nanoseconds / (count as u128).max(1);
    println!(rt; "{what}: {count} in {nanoseconds} ns, {each} ns each")
}

fn run<R: Print + Clock>(rt: &R, alloc: Global, entries: u32, is_timed: bool) -> io::Result<()> {
    let mut list = Playlist::new(alloc);
    steps::add(rt, alloc, &mut list, "add", entries, is_timed)?;
    steps::go(rt, &mut list, entries, is_timed)?;
    steps::order(rt, &mut list, entries, is_timed)?;
    watching::watch(
        rt,
        alloc,
        &list,
        |_place: u32, facts: &ListFacts| Ok(properties::count(facts)),
        is_timed,
    )?;
    steps::take_out(rt, &mut list, is_timed)?;
    steps::clear(rt, alloc, &mut list, entries, is_timed)
}

fn main(rt: HostRuntime) -> io::Result<()> {
    let mut words = Vec::new(rt.alloc());
    for word in env::args(&rt)?.skip(1) {
        words.push(word)?;
    }
    match words.as_slice() {
        [] => run(&rt, rt.alloc(), FEW, false),
        [entries] => match entries.parse::<u32>() {
            Ok(entries) => run(&rt, rt.alloc(), entries, true),
            Err(_) => println!(rt; "playlist_bench [ENTRIES]"),
        },
        _ => println!(rt; "playlist_bench [ENTRIES]"),
    }
}
