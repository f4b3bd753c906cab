ghost use Rattle.std.specs.Prelude.{◌≡◌, ◌≤◌, None, Some, List, ℕ};
ghost use Rattle.mc_script.specs.declared.acts.Act.TheVariants.{Demux};
ghost use Rattle.mc_lines.specs.Films.{OnShelf, StaysTold};
ghost use Rattle.mc_lines.specs.Lines.{Grows, IsFull, Line, Turns};

use crate::halt::{Halt, halt_of};
use crate::machine::Machine;
use mc_demux::Job;
use mc_outside::Shelf;

/// Takes a job, does it and brings its outcome; false where there is none. `JournalFull` only
/// where the journal has 16,000,000 records, and `NoMemory` for want of memory; nothing was
/// brought then.
pub fn turn<S: Shelf, M: Machine>(machine: &mut M, shelf: &mut S) -> Result<bool, Halt>
    ensures turns { Turns (M.ahead machine.old) (S.faults shelf.old) (S.faults shelf.new)
        (M.journal machine.old) (M.journal machine.new) result }
    ensures full { IsFull (M.journal machine.new) result }
    ensures stands { StaysTold S.files S.opened shelf.old M.fixed M.stands machine.old machine.new }
    ensures fixed { M.fixed machine.new ≡ M.fixed machine.old }
    ensures files { S.files shelf.new ≡ S.files shelf.old }
    ensures opened { S.opened shelf.new ≡ S.opened shelf.old }
    ensures later { S.faults shelf.old ≤ S.faults shelf.new }
{
    match machine.next_job() {
        Ok(Job::Idle) => Ok(false),
        Ok(job) => match machine.bring(shelf, job) {
            Ok(_) => Ok(true),
            Err(error) => Err(halt_of(error)),
        },
        Err(error) => Err(halt_of(error)),
    }
}

/// So many turns of the demuxer, or fewer where there is nothing more to do.
pub(crate) fn demux_line<S: Shelf, M: Machine>(
    machine: &mut M,
    shelf: &mut S,
    count: u32,
) -> Result<(), Halt>
    ensures line { OnShelf S.files S.opened shelf.old M.fixed M.stands machine.old
        (λ octets rd. Line rd (Demux count) None
        (M.journal machine.old) (M.journal machine.new) result) }
    ensures full { IsFull (M.journal machine.new) result }
    ensures grows { Grows (S.faults shelf.old) (S.faults shelf.new) (M.journal machine.old)
        (M.journal machine.new) }
    ensures stands { StaysTold S.files S.opened shelf.old M.fixed M.stands machine.old machine.new }
    ensures fixed { M.fixed machine.new ≡ M.fixed machine.old }
    ensures files { S.files shelf.new ≡ S.files shelf.old }
    ensures opened { S.opened shelf.new ≡ S.opened shelf.old }
{
    for _ in 0..count {
        if !turn(machine, shelf)? {
            return Ok(());
        }
    }
    Ok(())
}
