ghost use Rattle.std.specs.Prelude.{◌≡◌, ℕ, List, Option, None, Some, OnOk, false};
ghost use Rattle.mc_journal.specs.declared.record.DemuxRecord.{DemuxRecord};
ghost use Rattle.mc_script.specs.declared.acts.Act.TheVariants.{DemuxGive};
ghost use Rattle.mc_script.specs.Pairing.{IsPaired};
ghost use Rattle.mc_lines.specs.Films.{OnShelf, StaysOn, StaysTold};
ghost use Rattle.mc_lines.specs.Lines.{Grows, IsFull, Line};
ghost use Rattle.mc_lines.specs.Runs.{Goes, IsAwaited, IsFree, IsOut, Keeps, Runs, Took};

use crate::draining::drain;
use crate::halt::{Halt, halt_of, settled};
use crate::lines::{seek_line, show_line, switch_line};
use crate::machine::Machine;
use crate::reads::read_line;
use crate::turns::demux_line;
use mc_demux::Job;
use mc_outside::Shelf;
use mc_script::Act;

fn take_line<M: Machine>(machine: &mut M) -> Result<Option<Job>, Halt>
    ensures took { Took (M.ahead machine.old) (M.journal machine.old) (M.journal machine.new)
        (M.jobs machine.new) result }
    ensures full { IsFull (M.journal machine.new) result }
    ensures stands { StaysOn M.stands machine.old machine.new }
    ensures fixed { M.fixed machine.new ≡ M.fixed machine.old }
{
    match machine.next_job() {
        Ok(Job::Idle) => Ok(None),
        Ok(job) => Ok(Some(job)),
        Err(error) => Err(halt_of(error)),
    }
}

fn give_line<S: Shelf, M: Machine>(
    machine: &mut M,
    shelf: &mut S,
    job: Option<Job>,
) -> Result<(), Halt>
    requires awaited { IsAwaited job (M.journal machine.old) (M.jobs machine.old) }
    ensures line { OnShelf S.files S.opened shelf.old M.fixed M.stands machine.old (λ octets rd.
        (taken : Option (List DemuxRecord))
        → IsOut rd job taken (M.journal machine.old) (M.jobs machine.old)
        → Line rd DemuxGive taken (M.journal machine.old) (M.journal machine.new) result) }
    ensures full { IsFull (M.journal machine.new) result }
    ensures grows { Grows (S.faults shelf.old) (S.faults shelf.new) (M.journal machine.old)
        (M.journal machine.new) }
    ensures stands { StaysTold S.files S.opened shelf.old M.fixed M.stands machine.old machine.new }
    ensures fixed { M.fixed machine.new ≡ M.fixed machine.old }
    ensures files { S.files shelf.new ≡ S.files shelf.old }
    ensures opened { S.opened shelf.new ≡ S.opened shelf.old }
{
    match job {
        None => Ok(()),
        Some(job) => settled(machine.bring(shelf, job)),
    }
}

/// One line; `out` is the job that is out.
fn line<S: Shelf, M: Machine>(
    machine: &mut M,
    shelf: &mut S,
    out: &mut Option<Job>,
    act: &Act,
) -> Result<(), Halt>
    requires free { IsFree act.now out.old }
    requires awaited { IsAwaited out.old (M.journal machine.old) (M.jobs machine.old) }
    ensures job { OnOk result (Keeps act.now out.old out.new) }
    ensures awaited { IsAwaited out.new (M.journal machine.new) (M.jobs machine.new) }
    ensures line { OnShelf S.files S.opened shelf.old M.fixed M.stands machine.old (λ octets rd.
        (taken : Option (List DemuxRecord))
        → IsOut rd out.old taken (M.journal machine.old) (M.jobs machine.old)
        → Goes rd act.now taken (M.journal machine.old) (M.journal machine.new)
        out.new (M.jobs machine.new) result) }
    ensures full { IsFull (M.journal machine.new) result }
    ensures grows { Grows (S.faults shelf.old) (S.faults shelf.new) (M.journal machine.old)
        (M.journal machine.new) }
    ensures stands { StaysTold S.files S.opened shelf.old M.fixed M.stands machine.old machine.new }
    ensures fixed { M.fixed machine.new ≡ M.fixed machine.old }
    ensures files { S.files shelf.new ≡ S.files shelf.old }
    ensures opened { S.opened shelf.new ≡ S.opened shelf.old }
{
    match act {
        Act::Seek { t, dir } => seek_line(machine, *t, *dir),
        Act::Switch { set, at } => switch_line(machine, set.as_slice(), *at),
        Act::Show => show_line(machine),
        Act::Demux { count } => demux_line(machine, shelf, *count),
        Act::DemuxTake => {
            *out = take_line(machine)?;
            Ok(())
        }
        Act::DemuxGive => give_line(machine, shelf, out.take()),
        Act::Read { kind, count } => read_line(machine, *kind, *count),
        Act::Drain => drain(machine, shelf),
    }
}

/// Plays the lines of a script in order, to its end or to the first call that finds the journal
/// full or wants memory; the journal then holds what the lines before it left, and of that line a
/// part. Seeks, switches and looks are the driver's, numbered 0; the readers of video, audio and
/// subtitle tracks are 2, 3 and 4, and the demuxer is 5.
pub fn run_script<S: Shelf, M: Machine>(
    machine: &mut M,
    shelf: &mut S,
    script: &[(u32, Act)],
) -> Result<(), Halt>
    requires paired { IsPaired false script.now }
    ensures runs { OnShelf S.files S.opened shelf.old M.fixed M.stands machine.old
        (λ octets rd. Runs rd script.now (M.journal machine.old) (M.journal machine.new) result) }
    ensures full { IsFull (M.journal machine.new) result }
    ensures grows { Grows (S.faults shelf.old) (S.faults shelf.new) (M.journal machine.old)
        (M.journal machine.new) }
    ensures stands { StaysTold S.files S.opened shelf.old M.fixed M.stands machine.old machine.new }
    ensures fixed { M.fixed machine.new ≡ M.fixed machine.old }
    ensures files { S.files shelf.new ≡ S.files shelf.old }
    ensures opened { S.opened shelf.new ≡ S.opened shelf.old }
{
    let mut out = None;
    for (_, act) in script {
        line(machine, shelf, &mut out, act)?;
    }
    Ok(())
}
