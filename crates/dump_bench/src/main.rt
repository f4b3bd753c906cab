//! Times the writing of films: to choose the packets of a film that is made in memory, and to write all
//! of it into a sink that throws it away, and to the system's `/dev/null`. Without words it is a small
//! film, and what came of it is printed without times, the same at every run. With a film, the number
//! of its lead and a span of time in nanoseconds, it writes the film of that span to standard output.
#![tactic(auto)]

mod made;
mod sink;
mod span;
mod work;

use made::Film;
use mc_outside::StdSink;
use sink::Discarding;
use std::alloc::Global;
use std::time::{Clock, Instant};
use std::{env, fs, io};

const FEW_PACKETS: u32 = 3000;

const FEW_OCTETS: u32 = 100;

const USAGE: &str = "dump_bench [PACKETS OCTETS | FILM LEAD FROM TO]";

// Says how much was done, and where times are asked for in how many nanoseconds.
fn tell<R: Print + Clock>(
    rt: &R,
    what: &str,
    count: u64,
    start: Instant,
    is_timed: bool,
) -> io::Result<()> {
    if !is_timed {
        return println!(rt; "{what}: {count}");
    }
    let nanoseconds = start.elapsed(rt)?.as_nanos();
    println!(rt; "{what}: {count} in {nanoseconds} ns")
}

fn time_choice<R: Print + Clock>(
    rt: &R,
    alloc: Global,
    film: &Film,
    is_timed: bool,
) -> io::Result<()> {
    let start = Instant::now(rt)?;
    let chosen = work::choose_half(alloc, film)?;
    tell(rt, "packets chosen", chosen as u64, start, is_timed)
}

fn time_writing<R: Print + Clock>(
    rt: &R,
    alloc: Global,
    film: &Film,
    is_timed: bool,
) -> io::Result<()> {
    let mut out = Discarding::new();
    let start = Instant::now(rt)?;
    work::write(alloc, &mut out, film)?;
    tell(rt, "octets written", out.octets(), start, is_timed)
}

// Writes the film by calls of the system, two for each packet.
fn time_system(rt: &HostRuntime, alloc: Global, film: &Film) -> io::Result<()> {
    let mut out = StdSink::new(fs::create(rt, "/dev/null")?);
    let start = Instant::now(rt)?;
    work::write(alloc, &mut out, film)?;
    tell(
        rt,
        "packets written to /dev/null",
        film.packets.len() as u64,
        start,
        true,
    )
}

fn run(rt: &HostRuntime, packets: u32, octets: u32, is_timed: bool) -> io::Result<()> {
    let film = Film::new(rt.alloc(), packets, octets)?;
    time_choice(rt, rt.alloc(), &film, is_timed)?;
    time_writing(rt, rt.alloc(), &film, is_timed)?;
    if is_timed {
        time_system(rt, rt.alloc(), &film)?;
    }
    Ok(())
}

// The number of packets and of each one's octets.
fn numbers(packets: &str, octets: &str) -> Option<(u32, u32)> {
    Some((packets.parse().ok()?, octets.parse().ok()?))
}

fn main(rt: HostRuntime) -> io::Result<()> {
    let mut words = Vec::new(rt.alloc());
    for word in env::args(&rt)?.skip(1) {
        words.push(word)?;
    }
    match words.as_slice() {
        [] => run(&rt, FEW_PACKETS, FEW_OCTETS, false),
        [packets, octets] => match numbers(packets.as_str(), octets.as_str()) {
            Some((packets, octets)) => run(&rt, packets, octets, true),
            None => println!(rt; "{USAGE}"),
        },
        [film, span @ ..] => match span::span_of(span) {
            Some(span) => span::write(&rt, rt.alloc(), film.as_str(), span),
            None => println!(rt; "{USAGE}"),
        },
    }
}
