//! Times a player's core, and beside it one of the plainest kind: requests that are asked, worked and
//! replied to; changes that are learned and polled; views of many observers that bring nothing new;
//! and requests behind long journals. Without a word there are a few, and what came of it is printed
//! without times, the same at every run.
#![tactic(auto)]

ghost use Rattle.std.specs.Prelude.{ℕ, ◌<◌};

mod plain;
mod plainly;
mod script;
mod work;

use mc_core::{Core, CoreError};
use mc_props::meanings::Standard;
use mc_props::{Facts, PropTable, Reads, standard, standard_entries};
use std::alloc::{AllocError, Global};
use std::time::{Clock, Instant};
use std::{env, io};

// How often something is done in one core, so that its journal stays short.
const ONCE: u32 = 1000;

// What is timed.
#[derive(Clone, Copy)]
enum Job {
    // requests, in a core whose journal has so many records
    Ask(usize),
    Question,
    Change,
    Learn,
}

impl Job {
    fn clients(self) -> u32 {
        match self {
            Job::Learn => 64,
            _ => 1,
        }
    }

    fn observers(self) -> usize {
        match self {
            Job::Learn => 20,
            Job::Change => 1,
            _ => 10,
        }
    }

    fn records(self) -> usize {
        match self {
            Job::Ask(records) => records,
            _ => 0,
        }
    }
}

fn done(answer: Result<u32, CoreError>) -> io::Result<u32> {
    match answer {
        Ok(count) => Ok(count),
        Err(CoreError::NoMemory) => Err(AllocError.into()),
        Err(_) => Ok(0),
    }
}

// How often it was done, and in how many nanoseconds.
#[derive(Clone, Copy)]
struct Timed {
    count: u32,
    nanoseconds: u128,
}

fn prepare<F: Reads<Standard>>(
    alloc: Global,
    core: &mut Core<F, Standard>,
    job: Job,
) -> Result<u32, CoreError> {
    work::begin(alloc, core, job.clients(), job.observers(), job.records())?;
    Ok(0)
}

fn time_with<R: Clock, F: Reads<Standard>>(
    rt: &R,
    alloc: Global,
    reader: F,
    job: Job,
) -> io::Result<Timed>
    requires { (place : ℕ) → place < 14 → F.answers reader place }
{
    let table = PropTable::new(alloc, standard_entries(alloc)?, reader);
    let mut core = Core::new(alloc, table);
    done(prepare(alloc, &mut core, job))?;
    let start = Instant::now(rt)?;
    let answer = match job {
        Job::Ask(_) => work::ask(alloc, &mut core, ONCE),
        Job::Question => work::question_all(alloc, &mut core, ONCE),
        Job::Change => work::change(alloc, &mut core, ONCE),
        Job::Learn => work::learn(alloc, &mut core, ONCE),
    };
    let nanoseconds = start.elapsed(rt)?.as_nanos();
    let count = done(answer)?;
    Ok(Timed { count, nanoseconds })
}

fn time<R: Clock>(rt: &R, alloc: Global, job: Job) -> io::Result<Timed> {
    time_with(
        rt,
        alloc,
        |place: u32, facts: &Facts| standard(alloc, place, facts),
        job,
    )
}

fn time_plainly<R: Clock>(rt: &R, alloc: Global, job: Job) -> io::Result<Timed> {
    let mut core = plainly::begin(alloc, job.clients(), job.observers())?;
    let start = Instant::now(rt)?;
    let count = match job {
        Job::Ask(_) => plainly::ask(alloc, &mut core, ONCE)?,
        Job::Question => plainly::question_all(alloc, &mut core, ONCE)?,
        Job::Change => plainly::change(alloc, &mut core, ONCE)?,
        Job::Learn => plainly::learn(alloc, &mut core, ONCE)?,
    };
    let nanoseconds = start.elapsed(rt)?.as_nanos();
    Ok(Timed { count, nanoseconds })
}

// Says how often something was done, and where times are asked for in how many nanoseconds.
fn tell<R: Print>(rt: &R, what: &str, count: u64, total: u128, is_timed: bool) -> io::Result<()> {
    if !is_timed {
        return println!(rt; "{what}: {count}");
    }
    let each = total / (count as u128).max(1);
    println!(rt; "{what}: {count} in {total} ns, {each} ns each")
}

// Does a job in so many cores, and in as many plain ones between them.
fn compare<R: Print + Clock>(
    rt: &R,
    alloc: Global,
    what: &str,
    job: Job,
    cores: u32,
    is_timed: bool,
) -> io::Result<()> {
    let mut counts = (0_u64, 0_u64);
    let mut times = (0_u128, 0_u128);
    for _ in 0..cores {
        let core = time(rt, alloc, job)?;
        let plain = time_plainly(rt, alloc, job)?;
        counts.0 = counts.0.saturating_add(core.count as u64);
        counts.1 = counts.1.saturating_add(plain.count as u64);
        times.0 = times.0.saturating_add(core.nanoseconds);
        times.1 = times.1.saturating_add(plain.nanoseconds);
    }
    tell(rt, what, counts.0, times.0, is_timed)?;
    print!(rt; "plain ")?;
    tell(rt, what, counts.1, times.1, is_timed)
}

fn run<R: Print + Clock>(rt: &R, alloc: Global, cores: u32, is_timed: bool) -> io::Result<()> {
    compare(rt, alloc, "requests", Job::Ask(0), cores, is_timed)?;
    compare(rt, alloc, "questions", Job::Question, cores, is_timed)?;
    compare(rt, alloc, "changes", Job::Change, cores, is_timed)?;
    compare(rt, alloc, "views without news", Job::Learn, cores, is_timed)?;
    compare(
        rt,
        alloc,
        "requests behind 100000 records",
        Job::Ask(100_000),
        cores,
        is_timed,
    )
}

fn main(rt: HostRuntime) -> io::Result<()> {
    let mut words = Vec::new(rt.alloc());
    for word in env::args(&rt)?.skip(1) {
        words.push(word)?;
    }
    match words.as_slice() {
        [] => run(&rt, rt.alloc(), 1, false),
        [count] => match count.parse::<u32>() {
            Ok(count) => run(&rt, rt.alloc(), count, true),
            Err(_) => println!(rt; "core_bench [CORES]"),
        },
        _ => println!(rt; "core_bench [CORES]"),
    }
}
