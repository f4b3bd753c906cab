//! What is timed.
ghost use Rattle.std.specs.Prelude.{◌≤◌, ◌<◌};

use crate::reading::Reading;
use mc_outside::Shelf;
use std::io::Result;

/// What is done with an opened film.
#[derive(Clone, Copy)]
pub enum Task {
    /// Nothing more.
    Open,
    /// One pass over its heads.
    Pass,
    /// A first look-up behind its end.
    First,
    /// So many look-ups anywhere, behind a first one that is not timed.
    Anywhere(u32),
}

/// The task of a name, or of a number of look-ups.
pub fn task_of(name: &str) -> Option<Task> {
    match name {
        "open" => Some(Task::Open),
        "pass" => Some(Task::Pass),
        "first" => Some(Task::First),
        count => Some(Task::Anywhere(count.parse().ok()?)),
    }
}

/// Readies a film for a task: the time of its last keyframe, where the task wants it.
pub fn prepare<S: Shelf + Drop>(reading: &mut Reading<S>, task: Task) -> Result<i64> {
    match task {
        Task::Anywhere(_) => {
            let last = reading.find(i64::MAX)?;
            reading.time_of(last)
        }
        _ => Ok(0),
    }
}

/// Does a task, over times up to the last one. It answers how much was done.
pub fn perform<S: Shelf + Drop>(reading: &mut Reading<S>, task: Task, last: i64) -> Result<u64> {
    match task {
        Task::Open => Ok(1),
        Task::Pass => reading.pass(),
        Task::First => reading.find(i64::MAX).map(|_| 1),
        Task::Anywhere(count) => find_anywhere(reading, count, last),
    }
}

fn find_anywhere<S: Shelf + Drop>(reading: &mut Reading<S>, count: u32, last: i64) -> Result<u64> {
    let mut number = 1;
    for _ in 0..count {
        number = next_number(number);
        reading.find(time_at(number, last))?;
    }
    Ok(count as u64)
}

// A number that follows another one without a plain pattern.
fn next_number(number: u32) -> u32 {
    (number as u64 * 48_271 % 2_147_483_647) as u32
}

// One of 65,536 times, from 0 on to nearly the last one.
fn time_at(number: u32, last: i64) -> i64 {
    let parts = (number % 65_536) as i64;
    (last / 65_536).saturating_mul(parts)
}
