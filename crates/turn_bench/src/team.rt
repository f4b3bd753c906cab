ghost use Rattle.std.specs.Prelude.{◌+◌, ◌≡◌, ◌^◌, ◌<◌, ◌∷◌, [], IfOk};
ghost use Rattle.mc_turn.specs.Callers.{count_from};
ghost use Rattle.mc_turn.specs.Workers.{IsReady};
ghost use Rattle.turn_bench.specs.Work.{FilledBy, IsAlone, Teamed};
ghost use Rattle.turn_bench.specs.Teams.{size_of};

use crate::log::Log;
use mc_turn::{Bell, NoMemory, Pass, Turn};
use std::alloc::Global;
use std::sync::Wait;
use std::thread;
use std::thread::Threads;

/// Adds the items from 0 to `count - 1` under the pass's one number, each in a turn of its own.
/// Gives the pass back, and whether all were added: it stops at the first want of memory.
pub fn work<R: Wait>(
    rt: &R,
    turn: &Turn<Log>,
    bell: &Bell,
    mut pass: Pass<Log>,
    number: u32,
    count: u64,
) -> (Pass<Log>, bool)
    requires ready { IsReady turn.now (number ∷ []) pass }
    ensures teamed { Teamed count result.1 pass result.0 }
{
    for item in 0..count {
        let mut log = turn.enter(rt, &mut pass, bell);
        let done = log.add(number, item);
        turn.leave(&mut pass, log);
        bell.ring(rt);
        if !done {
            return (pass, false);
        }
    }
    (pass, true)
}

/// Two workers beside each other, under the numbers `first` and `first + 1`.
pub fn pair<R: Threads + Wait + Sync>(
    rt: &R,
    turn: &Turn<Log>,
    bell: &Bell,
    mut pass: Pass<Log>,
    first: u32,
    count: u64,
) -> (Pass<Log>, bool)
    requires ready { IsReady turn.now (count_from first 2) pass }
    requires fits { first + 2 < 2 ^ 32 }
    ensures teamed { Teamed count result.1 pass result.0 }
{
    let second = first + 1;
    let other = turn.split(&mut pass, 1);
    let ((mut one, first_done), (two, second_done)) = thread::join(
        rt,
        move || -> (Pass<Log>, bool)
            requires { IsReady turn.now (first ∷ []) pass }
            ensures { Teamed count result.1 pass result.0 }
        { work(rt, turn, bell, pass, first, count) },
        move || -> (Pass<Log>, bool)
            requires { IsReady turn.now (second ∷ []) other }
            ensures { Teamed count result.1 other result.0 }
        { work(rt, turn, bell, other, second, count) },
    );
    turn.join(&mut one, two);
    (one, first_done && second_done)
}

/// Four workers beside each other, under the numbers from `first` to `first + 3`.
pub fn quad<R: Threads + Wait + Sync>(
    rt: &R,
    turn: &Turn<Log>,
    bell: &Bell,
    mut pass: Pass<Log>,
    first: u32,
    count: u64,
) -> (Pass<Log>, bool)
    requires ready { IsReady turn.now (count_from first 4) pass }
    requires fits { first + 4 < 2 ^ 32 }
    ensures teamed { Teamed count result.1 pass result.0 }
{
    let second = first + 2;
    let other = turn.split(&mut pass, 2);
    let ((mut one, first_done), (two, second_done)) = thread::join(
        rt,
        move || -> (Pass<Log>, bool)
            requires { IsReady turn.now (count_from first 2) pass × (first + 2 < 2 ^ 32) }
            ensures { Teamed count result.1 pass result.0 }
        { pair(rt, turn, bell, pass, first, count) },
        move || -> (Pass<Log>, bool)
            requires { IsReady turn.now (count_from second 2) other × (second + 2 < 2 ^ 32) }
            ensures { Teamed count result.1 other result.0 }
        { pair(rt, turn, bell, other, second, count) },
    );
    turn.join(&mut one, two);
    (one, first_done && second_done)
}

/// Eight workers beside each other, under the numbers from 0 to 7.
pub fn eight<R: Threads + Wait + Sync>(
    rt: &R,
    turn: &Turn<Log>,
    bell: &Bell,
    mut pass: Pass<Log>,
    count: u64,
) -> (Pass<Log>, bool)
    requires ready { IsReady turn.now (count_from 0 8) pass }
    ensures teamed { Teamed count result.1 pass result.0 }
{
    let other = turn.split(&mut pass, 4);
    let ((mut one, first_done), (two, second_done)) = thread::join(
        rt,
        move || -> (Pass<Log>, bool)
            requires { IsReady turn.now (count_from 0 4) pass }
            ensures { Teamed count result.1 pass result.0 }
        { quad(rt, turn, bell, pass, 0, count) },
        move || -> (Pass<Log>, bool)
            requires { IsReady turn.now (count_from 4 4) other }
            ensures { Teamed count result.1 other result.0 }
        { quad(rt, turn, bell, other, 4, count) },
    );
    turn.join(&mut one, two);
    (one, first_done && second_done)
}

/// How many workers there are.
#[derive(Clone, Copy)]
pub enum Team {
    One,
    Two,
    Four,
    Eight,
}

impl Team {
    /// The number of workers.
    pub fn size(self) -> u32
        ensures size { result ≡ size_of self }
    {
        match self {
            Team::One => 1,
            Team::Two => 2,
            Team::Four => 4,
            Team::Eight => 8,
        }
    }

    // The whole team at work with one pass.
    fn work_all<R: Threads + Wait + Sync>(
        self,
        rt: &R,
        turn: &Turn<Log>,
        bell: &Bell,
        pass: Pass<Log>,
        count: u64,
    ) -> (Pass<Log>, bool)
        requires ready { IsReady turn.now (count_from 0 (size_of self)) pass }
        ensures teamed { Teamed count result.1 pass result.0 }
    {
        match self {
            Team::One => work(rt, turn, bell, pass, 0, count),
            Team::Two => pair(rt, turn, bell, pass, 0, count),
            Team::Four => quad(rt, turn, bell, pass, 0, count),
            Team::Eight => eight(rt, turn, bell, pass, count),
        }
    }
}

/// A log to which each worker of the team added `count` items, and whether all were added. The
/// closed lock's journal is what its callers wrote, and nothing else: each entry bears a worker's
/// number, and each worker's are its first items, in order and once each.
pub fn fill<R: Threads + Wait + Sync>(
    rt: &R,
    alloc: Global,
    team: Team,
    count: u64,
) -> Result<(Log, bool), NoMemory>
    ensures filled { IfOk result (λ r. FilledBy (size_of team) count r.1 r.0) }
{
    let (turn, pass) = Turn::new(alloc, Log::new(alloc), team.size())?;
    let bell = Bell::new();
    let (pass, all) = team.work_all(rt, &turn, &bell, pass, count);
    Ok((turn.close(rt, pass, &bell), all))
}

/// The same by one caller, without a thread beside it: the closed lock's journal is the caller's
/// first items, one after the other.
pub fn fill_alone<R: Wait>(rt: &R, alloc: Global, count: u64) -> Result<(Log, bool), NoMemory>
    ensures alone { IfOk result (λ r. IsAlone count r.1 r.0) }
{
    let (turn, pass) = Turn::new(alloc, Log::new(alloc), 1)?;
    let bell = Bell::new();
    let (pass, all) = work(rt, &turn, &bell, pass, 0, count);
    Ok((turn.close(rt, pass, &bell), all))
}
