//! Times lines of a JSON session: parsed, and read by `serde_json` alone; replies and events
//! written; an input cut into lines. Without a word there are a few, and what came of it is printed without
//! times, the same at every run.
#![tactic(auto)]

mod work;

use std::alloc::Global;
use std::time::{Clock, Instant};
use std::{env, io};

const FEW: u32 = 1000;

// Says how often something was done, and where times are asked for in how many nanoseconds.
fn tell<R: Print + Clock>(
    rt: &R,
    what: &str,
    count: u32,
    start: Instant,
    is_timed: bool,
) -> io::Result<()> {
    if !is_timed {
        return println!(rt; "{what}: {count}");
    }
    let nanoseconds = start.elapsed(rt)?.as_nanos();
    let each = nanoseconds / (count as u128).max(1);
    println!(rt; "{what}: {count} in {nanoseconds} ns, {each} ns each")
}

fn read<R: Print + Clock>(rt: &R, alloc: Global, count: u32, is_timed: bool) -> io::Result<()> {
    let start = Instant::now(rt)?;
    let parsed = work::parse(alloc, count)?;
    tell(rt, "lines parsed", parsed, start, is_timed)?;
    let start = Instant::now(rt)?;
    let values = work::read_values(alloc, count)?;
    tell(
        rt,
        "lines read by serde_json alone",
        values,
        start,
        is_timed,
    )
}

fn write<R: Print + Clock>(rt: &R, alloc: Global, count: u32, is_timed: bool) -> io::Result<()> {
    let start = Instant::now(rt)?;
    let replies = work::reply(alloc, count)?;
    tell(rt, "replies written", replies, start, is_timed)?;
    let start = Instant::now(rt)?;
    let events = work::tell_changes(alloc, count)?;
    tell(rt, "events written", events, start, is_timed)
}

fn cut<R: Print + Clock>(rt: &R, alloc: Global, count: u32, is_timed: bool) -> io::Result<()> {
    let start = Instant::now(rt)?;
    let lines = work::cut(alloc, count)?;
    tell(rt, "lines cut", lines, start, is_timed)
}

fn run<R: Print + Clock>(rt: &R, alloc: Global, count: u32, is_timed: bool) -> io::Result<()> {
    read(rt, alloc, count, is_timed)?;
    write(rt, alloc, count, is_timed)?;
    cut(rt, alloc, count, is_timed)
}

fn main(rt: HostRuntime) -> io::Result<()> {
    let mut words = Vec::new(rt.alloc());
    for word in env::args(&rt)?.skip(1) {
        words.push(word)?;
    }
    match words.as_slice() {
        [] => run(&rt, rt.alloc(), FEW, false),
        [count] => match count.parse::<u32>() {
            Ok(count) => run(&rt, rt.alloc(), count, true),
            Err(_) => println!(rt; "ipc_bench [LINES]"),
        },
        _ => println!(rt; "ipc_bench [LINES]"),
    }
}
