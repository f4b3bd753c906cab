// What the words of the command line ask to be timed.
use crate::team::{Team, fill};
use crate::{demux_cell, mutexes, watch};
use mc_turn::Kept;
use std::alloc::Global;
use std::io;
use std::sync::Wait;
use std::thread::Threads;
use std::time::{Clock, Instant};

// The poster beside a timed look is stopped when the looks are done. Where no thread can be made,
// the two run one after the other, and this ends it.
const MOST_POSTS: u64 = 100_000_000;

/// What is timed, and how often it is done.
#[derive(Clone, Copy)]
pub enum Task {
    Turns(Team, u64),
    Mutexes(Team, u64),
    Seeks(Callers, u64),
    Looks(u64),
}

/// How many callers a demuxer behind a lock has.
#[derive(Clone, Copy)]
pub enum Callers {
    One,
    Two,
}

/// The task that the words name: `turn THREADS COUNT` and `mutex THREADS COUNT`, where each of
/// 1, 2, 4 or 8 threads takes COUNT turns, `demux THREADS COUNT`, where each of 1 or 2 calls a
/// demuxer so often, or `look COUNT`.
pub fn task_of(words: &[String]) -> Option<Task> {
    match words {
        [what, threads, count] if what.as_str() == "turn" => {
            Some(Task::Turns(team_of(threads.as_str())?, count.parse().ok()?))
        }
        [what, threads, count] if what.as_str() == "mutex" => {
            Some(Task::Mutexes(team_of(threads.as_str())?, count.parse().ok()?))
        }
        [what, threads, count] if what.as_str() == "demux" => {
            Some(Task::Seeks(callers_of(threads.as_str())?, count.parse().ok()?))
        }
        [what, count] if what.as_str() == "look" => Some(Task::Looks(count.parse().ok()?)),
        _ => None,
    }
}

fn callers_of(threads: &str) -> Option<Callers> {
    match threads {
        "1" => Some(Callers::One),
        "2" => Some(Callers::Two),
        _ => None,
    }
}

fn team_of(threads: &str) -> Option<Team> {
    match threads {
        "1" => Some(Team::One),
        "2" => Some(Team::Two),
        "4" => Some(Team::Four),
        "8" => Some(Team::Eight),
        _ => None,
    }
}

/// Does the task, and answers how often it did what is timed, and in how many nanoseconds.
pub fn timed<R: Threads + Wait + Sync + Clock>(
    rt: &R,
    alloc: Global,
    task: Task,
) -> io::Result<(u64, u128)> {
    let start = Instant::now(rt)?;
    let done = match task {
        Task::Turns(team, count) => fill(rt, alloc, team, count)?.0.length(),
        Task::Mutexes(team, count) => mutexes::fill(rt, alloc, team, count).0.length(),
        Task::Seeks(Callers::One, count) => demux_cell::alone(rt, alloc, count)?.length(),
        Task::Seeks(Callers::Two, count) => demux_cell::both(rt, alloc, count)?.length(),
        Task::Looks(count) => {
            watch::beside(rt, alloc, MOST_POSTS, count, true)?;
            count
        }
    };
    Ok((done, start.elapsed(rt)?.as_nanos()))
}

/// How many there are in a second.
pub fn rate(done: u64, nanoseconds: u128) -> u128 {
    done as u128 * 1_000_000_000 / nanoseconds.max(1)
}
