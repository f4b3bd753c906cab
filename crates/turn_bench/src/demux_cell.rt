// A lock round a demuxer: each turn is one of its calls.
ghost use Rattle.std.specs.Prelude.{◌≡◌, ◌∷◌, [], IfOk};
ghost use Rattle.mc_packet.specs.Choices.{nothing};
ghost use Rattle.mc_journal.specs.declared.record.DemuxRecord.TheVariants.{Opened};
ghost use Rattle.mc_journal.specs.Callers.{by_of};
ghost use Rattle.mc_turn.specs.Workers.{Grew, IsReady, Worked};
ghost use Rattle.turn_bench.specs.Demuxes.{Any};

use mc_demux::Demux;
use mc_journal::DemuxRecord;
use mc_packet::{Choice, Dir, Limits};
use mc_tracks::TrackList;
use mc_turn::{Bell, Kept, NoMemory, Pass, Turn};
use std::alloc::{AllocError, Global};
use std::sync::Wait;
use std::thread;
use std::thread::Threads;

/// A demuxer, whose journal is what a lock keeps.
#[derive(Drop)]
pub struct DemuxCell {
    demux: Demux,
}

impl Kept for DemuxCell {
    type Entry = DemuxRecord;

    ghost kept = { λ c. c.demux.journal };

    ghost caller = { by_of };

    fn length(&self) -> u64 {
        self.demux.journal().len() as u64
    }
}

impl DemuxCell {
    // A seek is asked for. It is refused, since no track is selected, and that stands in the journal.
    fn seek(&mut self, by: u32) -> bool
        ensures grows { Grew by_of by self.old.demux.journal self.new.demux.journal }
    {
        self.demux.seek(by, 0, Dir::Back).is_ok()
    }
}

// A demuxer of a film without tracks.
fn blank(alloc: Global) -> Result<DemuxCell, NoMemory>
    ensures { IfOk result (λ c. c.demux.journal ≡ Opened 0 nothing ∷ []) }
{
    let set = Choice {
        video: None,
        audio: None,
        sub: None,
    };
    let limits = Limits {
        forward: 1,
        back: 0,
        readahead: 0,
    };
    match Demux::new(alloc, TrackList::new(alloc), set, limits) {
        Ok(demux) => Ok(DemuxCell { demux }),
        Err(_) => Err(AllocError),
    }
}

// So many calls under the pass's one number, each in a turn of its own.
fn work<R: Wait>(
    rt: &R,
    turn: &Turn<DemuxCell>,
    bell: &Bell,
    mut pass: Pass<DemuxCell>,
    by: u32,
    count: u64,
) -> Pass<DemuxCell>
    requires ready { IsReady turn.now (by ∷ []) pass }
    ensures worked { Worked by_of Any by pass result }
{
    for item in 0..count {
        let mut cell = turn.enter(rt, &mut pass, bell);
        let _sought = cell.seek(by);
        turn.leave(&mut pass, cell);
        bell.ring(rt);
    }
    pass
}

/// So many calls of one caller, and the demuxer behind them.
pub fn alone<R: Wait>(rt: &R, alloc: Global, count: u64) -> Result<DemuxCell, NoMemory> {
    let (turn, pass) = Turn::new(alloc, blank(alloc)?, 1)?;
    let bell = Bell::new();
    let pass = work(rt, &turn, &bell, pass, 0, count);
    Ok(turn.close(rt, pass, &bell))
}

/// So many calls of each of two callers beside each other, and the demuxer behind them.
pub fn both<R: Threads + Wait + Sync>(
    rt: &R,
    alloc: Global,
    count: u64,
) -> Result<DemuxCell, NoMemory> {
    let (turn, mut one) = Turn::new(alloc, blank(alloc)?, 2)?;
    let two = turn.split(&mut one, 1);
    let bell = Bell::new();
    let (lock, gong) = (&turn, &bell);
    let (mut one, two) = thread::join(
        rt,
        move || -> Pass<DemuxCell>
            requires { IsReady lock.now (0 ∷ []) one }
            ensures { Worked by_of Any 0 one result }
        { work(rt, lock, gong, one, 0, count) },
        move || -> Pass<DemuxCell>
            requires { IsReady lock.now (1 ∷ []) two }
            ensures { Worked by_of Any 1 two result }
        { work(rt, lock, gong, two, 1, count) },
    );
    turn.join(&mut one, two);
    Ok(turn.close(rt, one, &bell))
}
