ghost use Rattle.std.specs.Prelude.{◌≡◌, None, List, ℕ};
ghost use Rattle.mc_script.specs.declared.acts.Act.TheVariants.{Seek, Show, Switch};
ghost use Rattle.mc_lines.specs.Films.{OnStand, StaysOn};
ghost use Rattle.mc_lines.specs.Lines.{IsFull, Line, Orders};

use crate::halt::{Halt, settled};
use crate::machine::Machine;
use mc_journal::DRIVER;
use mc_packet::{Dir, TrackNo};

pub(crate) fn seek_line<M: Machine>(machine: &mut M, t: i64, dir: Dir) -> Result<(), Halt>
    ensures line { OnStand M.stands machine.old (λ octets rd. Line rd (Seek t dir) None
        (M.journal machine.old) (M.journal machine.new) result) }
    ensures full { IsFull (M.journal machine.new) result }
    ensures orders { Orders (M.journal machine.old) (M.journal machine.new) (M.jobs machine.old)
        (M.jobs machine.new) }
    ensures stands { StaysOn M.stands machine.old machine.new }
    ensures fixed { M.fixed machine.new ≡ M.fixed machine.old }
{
    settled(machine.seek(DRIVER, t, dir))
}

/// A switch without a time is one at the reader's time, or at 0.
pub(crate) fn switch_line<M: Machine>(
    machine: &mut M,
    set: &[TrackNo],
    at: Option<i64>,
) -> Result<(), Halt>
    ensures line { OnStand M.stands machine.old (λ octets rd. Line rd (Switch set.now at) None
        (M.journal machine.old) (M.journal machine.new) result) }
    ensures full { IsFull (M.journal machine.new) result }
    ensures orders { Orders (M.journal machine.old) (M.journal machine.new) (M.jobs machine.old)
        (M.jobs machine.new) }
    ensures stands { StaysOn M.stands machine.old machine.new }
    ensures fixed { M.fixed machine.new ≡ M.fixed machine.old }
{
    let at = at.unwrap_or(machine.time());
    settled(machine.select(DRIVER, set, at))
}

pub(crate) fn show_line<M: Machine>(machine: &mut M) -> Result<(), Halt>
    ensures line { OnStand M.stands machine.old
        (λ octets rd. Line rd Show None (M.journal machine.old) (M.journal machine.new) result) }
    ensures full { IsFull (M.journal machine.new) result }
    ensures orders { Orders (M.journal machine.old) (M.journal machine.new) (M.jobs machine.old)
        (M.jobs machine.new) }
    ensures stands { StaysOn M.stands machine.old machine.new }
    ensures fixed { M.fixed machine.new ≡ M.fixed machine.old }
{
    settled(machine.show(DRIVER))
}
