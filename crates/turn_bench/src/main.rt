//! Times the lock and the board. Without words it runs both once on several threads, and prints
//! what came of it, which is the same at every run.
#![tactic(auto)]

mod cell;
mod demux_cell;
mod entry;
mod handed;
mod log;
mod mutexes;
mod names;
mod setting;
mod settings;
mod shown;
mod team;
mod timing;
mod watch;
mod writers;

use std::alloc::Global;
use std::sync::Wait;
use std::thread::Threads;
use std::{env, io};

// All that is printed without words.
fn show<R: Threads + Wait + Sync + Print>(rt: &R, alloc: Global) -> io::Result<()> {
    shown::team(rt, alloc)?;
    shown::writers(rt, alloc)?;
    shown::alone(rt, alloc)?;
    shown::demuxes(rt, alloc)?;
    shown::board(rt, alloc)?;
    shown::looks(rt, alloc)
}

fn main(rt: HostRuntime) -> io::Result<()> {
    let mut words = Vec::new(rt.alloc());
    for word in env::args(&rt)?.skip(1) {
        words.push(word)?;
    }
    if words.is_empty() {
        return show(&rt, rt.alloc());
    }
    let Some(task) = timing::task_of(words.as_slice()) else {
        return println!(rt; "turn_bench [turn|mutex|demux THREADS COUNT | look COUNT]");
    };
    let (done, nanoseconds) = timing::timed(&rt, rt.alloc(), task)?;
    let rate = timing::rate(done, nanoseconds);
    println!(rt; "{done} in {nanoseconds} ns, {rate} a second")
}
