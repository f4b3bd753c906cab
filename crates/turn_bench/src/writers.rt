ghost use Rattle.std.specs.Prelude.{◌≡◌, ◌∷◌, [], IfOk};
ghost use Rattle.mc_turn.specs.Workers.{IsReady, Worked};
ghost use Rattle.turn_bench.specs.Work.{IsFrom, WrittenByBoth, caller_of};

use crate::log::Log;
use mc_turn::{Bell, NoMemory, Pass, Turn};
use std::alloc::Global;
use std::sync::Wait;
use std::thread;
use std::thread::Threads;

/// Adds the items from `first` to `last - 1` under the pass's one number, each in a turn of its
/// own. One for which there is no memory is left out.
pub fn write<R: Wait>(
    rt: &R,
    turn: &Turn<Log>,
    bell: &Bell,
    mut pass: Pass<Log>,
    caller: u32,
    first: u64,
    last: u64,
) -> Pass<Log>
    requires ready { IsReady turn.now (caller ∷ []) pass }
    ensures worked { Worked caller_of (IsFrom first last) caller pass result }
{
    for item in first..last {
        let mut log = turn.enter(rt, &mut pass, bell);
        let _added = log.add(caller, item);
        turn.leave(&mut pass, log);
        bell.ring(rt);
    }
    pass
}

/// Two callers beside each other: 0 adds the items from `low` to `middle - 1`, and 1 those from
/// `middle` to `high - 1`. Gives the log out of its lock, whose entries are theirs and nobody
/// else's, and how many numbers the pass had with which the lock was closed.
pub fn write_both<R: Threads + Wait + Sync>(
    rt: &R,
    alloc: Global,
    low: u64,
    middle: u64,
    high: u64,
) -> Result<(Log, u32), NoMemory>
    ensures written { IfOk result (λ r. WrittenByBoth low middle high r.0) }
    ensures numbers { IfOk result (λ r. r.1 ≡ 2) }
{
    let (turn, mut one) = Turn::new(alloc, Log::new(alloc), 2)?;
    let two = turn.split(&mut one, 1);
    let bell = Bell::new();
    let (lock, gong) = (&turn, &bell);
    let (mut one, two) = thread::join(
        rt,
        move || -> Pass<Log>
            requires { IsReady lock.now (0 ∷ []) one }
            ensures { Worked caller_of (IsFrom low middle) 0 one result }
        { write(rt, lock, gong, one, 0, low, middle) },
        move || -> Pass<Log>
            requires { IsReady lock.now (1 ∷ []) two }
            ensures { Worked caller_of (IsFrom middle high) 1 two result }
        { write(rt, lock, gong, two, 1, middle, high) },
    );
    turn.join(&mut one, two);
    let numbers = one.numbers();
    Ok((turn.close(rt, one, &bell), numbers))
}
