//! Times the cache: feeds it packets of two tracks, seeks in it, and prunes all away. Without words
//! there are a few, and what came of it is printed without times, the same at every run.
#![tactic(auto)]

mod film;
mod work;

use mc_cache::Cache;
use mc_packet::Dir;
use std::alloc::Global;
use std::time::{Clock, Instant};
use std::{env, io};

const FEW_PACKETS: u32 = 1000;

const FEW_SEEKS: u32 = 10;

// What two ranges may keep behind the readers, in octets.
const TWO_RANGES: u64 = 0x1_0000_0000;

// Says how often something was done, and where times are asked for in how many nanoseconds.
fn tell<R: Print + Clock>(
    rt: &R,
    what: &str,
    count: u64,
    start: Instant,
    is_timed: bool,
) -> io::Result<()> {
    if !is_timed {
        return println!(rt; "{what}: {count}");
    }
    let nanoseconds = start.elapsed(rt)?.as_nanos();
    let each = nanoseconds / (count as u128).max(1);
    println!(rt; "{what}: {count} in {nanoseconds} ns, {each} ns each")
}

fn run<R: Print + Clock>(
    rt: &R,
    alloc: Global,
    packets: u32,
    seeks: u32,
    is_timed: bool,
) -> io::Result<()> {
    let mut cache = work::begin(alloc, 0)?;
    let start = Instant::now(rt)?;
    let fed = work::feed(alloc, &mut cache, 0, packets)?;
    tell(rt, "packets fed", fed as u64, start, is_timed)?;
    let start = Instant::now(rt)?;
    let read = work::read(&cache, packets);
    tell(rt, "packets read", read as u64, start, is_timed)?;
    look_up(rt, &mut cache, packets, seeks, is_timed)?;
    prune(rt, &mut cache, is_timed)?;
    change_ranges(rt, alloc, packets, seeks, is_timed)
}

// Seeks in it, back and forward without a look, and with one.
fn look_up<R: Print + Clock>(
    rt: &R,
    cache: &mut Cache,
    packets: u32,
    seeks: u32,
    is_timed: bool,
) -> io::Result<()> {
    let start = Instant::now(rt)?;
    let back = work::seek(cache, packets, seeks, Dir::Back) as u64;
    tell(rt, "seeks served", back, start, is_timed)?;
    let start = Instant::now(rt)?;
    let forward = work::seek(cache, packets, seeks, Dir::Forward) as u64;
    tell(rt, "forward seeks served", forward, start, is_timed)?;
    let start = Instant::now(rt)?;
    let looked = work::seek_and_look(cache, packets, seeks) as u64;
    tell(rt, "seeks served, with a look", looked, start, is_timed)
}

// Seeks here and there in two ranges, each of one half of the packets.
fn change_ranges<R: Print + Clock>(
    rt: &R,
    alloc: Global,
    packets: u32,
    seeks: u32,
    is_timed: bool,
) -> io::Result<()> {
    let mut cache = work::begin(alloc, TWO_RANGES)?;
    let half = packets / 2;
    let _first = work::feed(alloc, &mut cache, 0, half)?;
    work::begin_far(&mut cache)?;
    let _second = work::feed(alloc, &mut cache, half, half)?;
    let start = Instant::now(rt)?;
    let served = work::seek_between(&mut cache, half, seeks) as u64;
    tell(
        rt,
        "seeks served by two ranges in turn",
        served,
        start,
        is_timed,
    )
}

// Prunes all away.
fn prune<R: Print + Clock>(rt: &R, cache: &mut Cache, is_timed: bool) -> io::Result<()> {
    let held = cache.held();
    let start = Instant::now(rt)?;
    let _drops = work::prune_all(cache);
    let left = cache.held();
    tell(
        rt,
        "packets pruned",
        held.saturating_sub(left),
        start,
        is_timed,
    )?;
    println!(rt; "packets left: {left}")
}

// The numbers of packets and of seeks.
fn numbers(words: &[String]) -> Option<(u32, u32)> {
    match words {
        [packets, seeks] => Some((packets.parse().ok()?, seeks.parse().ok()?)),
        _ => None,
    }
}

fn main(rt: HostRuntime) -> io::Result<()> {
    let mut words = Vec::new(rt.alloc());
    for word in env::args(&rt)?.skip(1) {
        words.push(word)?;
    }
    if words.is_empty() {
        return run(&rt, rt.alloc(), FEW_PACKETS, FEW_SEEKS, false);
    }
    match numbers(words.as_slice()) {
        Some((packets, seeks)) => run(&rt, rt.alloc(), packets, seeks, true),
        None => println!(rt; "cache_bench [PACKETS SEEKS]"),
    }
}
