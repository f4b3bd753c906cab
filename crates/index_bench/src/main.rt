//! Times look-ups in a film's index beside one pass over the film's heads. `show` prints what is
//! found in a film, which is the same at every run.
#![tactic(auto)]

mod reading;
mod task;

use mc_outside::FileShelf;
use reading::Reading;
use std::alloc::Global;
use std::rt::Files;
use std::time::{Clock, Instant};
use std::{env, io};
use task::{Task, perform, prepare, task_of};

const USAGE: &str = "usage: index_bench show|open|pass|first|LOOK_UPS FILM";

// The places at which seeks behind the film's end and before its front start.
fn show<R: Files + Alloc + Print>(rt: &R, alloc: Global, film: &str) -> io::Result<()> {
    let mut reading = Reading::open(alloc, FileShelf::new(rt, alloc), film)?;
    let last = reading.find(i64::MAX)?;
    let first = reading.find(-1)?;
    let blocks = reading.blocks();
    let entries = reading.entries();
    println!(rt;
        "first {} last {} blocks {blocks} entries {entries}",
        first.mark.pos, last.mark.pos
    )
}

fn time<R: Files + Alloc + Print + Clock>(
    rt: &R,
    alloc: Global,
    task: Task,
    film: &str,
) -> io::Result<()> {
    let mut reading = Reading::open(alloc, FileShelf::new(rt, alloc), film)?;
    let last = prepare(&mut reading, task)?;
    let before = reading.take_count();
    let start = Instant::now(rt)?;
    let done = perform(&mut reading, task, last)?;
    let nanoseconds = start.elapsed(rt)?.as_nanos();
    let octets = reading.take_count();
    println!(rt; "{done} in {nanoseconds} ns, {octets} octets behind {before}")
}

fn main(rt: HostRuntime) -> io::Result<()> {
    let mut words = Vec::new(rt.alloc());
    for word in env::args(&rt)?.skip(1) {
        words.push(word)?;
    }
    if let [what, film] = words.as_slice() {
        if what.as_str() == "show" {
            return show(&rt, rt.alloc(), film.as_str());
        }
        if let Some(task) = task_of(what.as_str()) {
            return time(&rt, rt.alloc(), task, film.as_str());
        }
    }
    println!(rt; "{USAGE}")
}
