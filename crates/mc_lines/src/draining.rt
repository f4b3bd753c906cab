ghost use Rattle.std.specs.Prelude.{◌≡◌, None, Some, List, ℕ};
ghost use Rattle.mc_script.specs.declared.acts.Act.TheVariants.{Drain};
ghost use Rattle.mc_lines.specs.Films.{OnShelf, StaysTold};
ghost use Rattle.mc_lines.specs.Lines.{Grows, IsFull, Line};
ghost use Rattle.mc_lines.specs.Nexts.{without as without_lem};

use crate::halt::Halt;
use crate::machine::Machine;
use crate::next::{Next, next_of};
use crate::reads::read_one;
use crate::turns::turn;
use mc_outside::Shelf;
use mc_packet::{Choice, Kind};

/// The set without a kind's track.
fn without(set: Choice, kind: Kind) -> Choice
    ensures { result ≡ without_lem set kind }
{
    match kind {
        Kind::Video => Choice { video: None, ..set },
        Kind::Audio => Choice { audio: None, ..set },
        Kind::Sub => Choice { sub: None, ..set },
    }
}

/// Reads all selected tracks to their ends: again and again, of the tracks that are left, the packet
/// at the least head is read; where there is none, the track of the least number that can be told
/// its end or a failure is told it, and is not left any more; where there is none either, the
/// demuxer does a job. Each step adds a record to a journal that is not full, so the steps end.
/// `JournalFull` only where the journal has 16,000,000 records, and `NoMemory` for want of memory.
pub fn drain<S: Shelf, M: Machine>(machine: &mut M, shelf: &mut S) -> Result<(), Halt>
    ensures line { OnShelf S.files S.opened shelf.old M.fixed M.stands machine.old
        (λ octets rd. Line rd Drain None (M.journal machine.old) (M.journal machine.new) result) }
    ensures full { IsFull (M.journal machine.new) result }
    ensures grows { Grows (S.faults shelf.old) (S.faults shelf.new) (M.journal machine.old)
        (M.journal machine.new) }
    ensures stands { StaysTold S.files S.opened shelf.old M.fixed M.stands machine.old machine.new }
    ensures fixed { M.fixed machine.new ≡ M.fixed machine.old }
    ensures files { S.files shelf.new ≡ S.files shelf.old }
    ensures opened { S.opened shelf.new ≡ S.opened shelf.old }
{
    let mut left = machine.selection();
    while !left.is_empty() {
        match next_of(machine, &left) {
            Next::Give { kind, track } => read_one(machine, kind, track)?,
            Next::Tell { kind, track } => {
                read_one(machine, kind, track)?;
                left = without(left, kind);
            }
            Next::Turn => {
                if !turn(machine, shelf)? {
                    return Ok(());
                }
            }
        }
    }
    Ok(())
}
