ghost use Rattle.std.specs.Prelude.{◌≡◌, None, List, ℕ};
ghost use Rattle.mc_script.specs.declared.acts.Act.TheVariants.{Read};
ghost use Rattle.mc_journal.specs.Callers.{reader as reader_number};
ghost use Rattle.mc_lines.specs.Films.{OnStand, StaysOn};
ghost use Rattle.mc_lines.specs.Lines.{IsFull, Line, Orders, ReadsOn, ReadsOne, is_packet as packet_lem};

use crate::halt::{Halt, halt_of, halted};
use crate::machine::Machine;
use mc_demux::Reading;
use mc_journal::reader;
use mc_packet::{Kind, TrackNo};

fn is_packet(reading: &Reading) -> bool
    ensures { result ≡ packet_lem reading.now }
{
    matches!(reading, Reading::Gave(_))
}

/// One read of a kind's track; what it answered stands in the journal.
pub(crate) fn read_one<M: Machine>(machine: &mut M, kind: Kind, track: TrackNo) -> Result<(), Halt>
    ensures reads { ReadsOne (M.ahead machine.old) (reader_number kind) track
        (M.journal machine.old) (M.journal machine.new) result }
    ensures film { OnStand M.stands machine.old (λ octets rd. ReadsOn rd (reader_number kind) track
        (M.journal machine.old) (M.journal machine.new) result) }
    ensures stands { StaysOn M.stands machine.old machine.new }
    ensures fixed { M.fixed machine.new ≡ M.fixed machine.old }
{
    halted(machine.read(reader(kind), track))
}

/// So many packets of the kind's selected track, or fewer where another answer comes.
pub(crate) fn read_line<M: Machine>(machine: &mut M, kind: Kind, count: u32) -> Result<(), Halt>
    ensures line { OnStand M.stands machine.old (λ octets rd. Line rd (Read kind count) None
        (M.journal machine.old) (M.journal machine.new) result) }
    ensures full { IsFull (M.journal machine.new) result }
    ensures orders { Orders (M.journal machine.old) (M.journal machine.new) (M.jobs machine.old)
        (M.jobs machine.new) }
    ensures stands { StaysOn M.stands machine.old machine.new }
    ensures fixed { M.fixed machine.new ≡ M.fixed machine.old }
{
    let by = reader(kind);
    let Some(track) = machine.selection().of(kind) else {
        return Ok(());
    };
    for _ in 0..count {
        match machine.read(by, track) {
            Ok(reading) => {
                if !is_packet(&reading) {
                    return Ok(());
                }
            }
            Err(error) => return Err(halt_of(error)),
        }
    }
    Ok(())
}
