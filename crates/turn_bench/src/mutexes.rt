// The same work under std's lock, to compare.
use crate::log::Log;
use crate::team::Team;
use std::alloc::Global;
use std::sync::{Mutex, Wait};
use std::thread;
use std::thread::Threads;

/// Adds `count` items, each under the lock taken anew. Answers whether all were added.
fn work<R: Wait>(rt: &R, lock: &Mutex<Log>, number: u32, count: u64) -> bool {
    for item in 0..count {
        let mut log = lock.lock(rt);
        if !log.add(number, item) {
            return false;
        }
    }
    true
}

fn pair<R: Threads + Wait + Sync>(
    rt: &R,
    lock: &Mutex<Log>,
    first: u32,
    second: u32,
    count: u64,
) -> bool {
    let (one, two) = thread::join(
        rt,
        move || work(rt, lock, first, count),
        move || work(rt, lock, second, count),
    );
    one && two
}

fn quad<R: Threads + Wait + Sync>(
    rt: &R,
    lock: &Mutex<Log>,
    first: (u32, u32),
    second: (u32, u32),
    count: u64,
) -> bool {
    let (one, two) = thread::join(
        rt,
        move || pair(rt, lock, first.0, first.1, count),
        move || pair(rt, lock, second.0, second.1, count),
    );
    one && two
}

fn eight<R: Threads + Wait + Sync>(rt: &R, lock: &Mutex<Log>, count: u64) -> bool {
    let (one, two) = thread::join(
        rt,
        move || quad(rt, lock, (0, 1), (2, 3), count),
        move || quad(rt, lock, (4, 5), (6, 7), count),
    );
    one && two
}

/// A log to which each worker of the team added `count` items, and whether all were added.
pub fn fill<R: Threads + Wait + Sync>(
    rt: &R,
    alloc: Global,
    team: Team,
    count: u64,
) -> (Log, bool) {
    let lock = Mutex::new(Log::new(alloc));
    let held = &lock;
    let all = match team {
        Team::One => work(rt, held, 0, count),
        Team::Two => pair(rt, held, 0, 1, count),
        Team::Four => quad(rt, held, (0, 1), (2, 3), count),
        Team::Eight => eight(rt, held, count),
    };
    (lock.into_inner(), all)
}
