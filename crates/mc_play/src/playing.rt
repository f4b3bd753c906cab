ghost use Rattle.std.specs.Prelude.{◌≡◌, ◌≤◌, ℕ, List, ◌∷◌, [], Some, false, IfOk};
ghost use Rattle.mc_outside.specs.Shelf.{AreBytes};
ghost use Rattle.mc_tracks.specs.TrackList.{default_choice_of};
ghost use Rattle.mc_cursor.specs.Reads.{InFile};
ghost use Rattle.mc_cursor.specs.Standing.{plan_for};
ghost use Rattle.mc_journal.specs.declared.record.DemuxRecord.TheVariants.{Opened};
ghost use Rattle.mc_script.specs.Pairing.{IsPaired};
ghost use Rattle.mc_script.specs.RunLines.{AreLimits};
ghost use Rattle.mc_lines.specs.Lines.{Grows, IsFull};
ghost use Rattle.mc_play.specs.Opening.{OpensFilm};
ghost use Rattle.mc_play.specs.Run.{Plays};
ghost use Rattle.mc_tracks.specs.TrackList.{IsTrackList};
ghost use Rattle.mc_journal.specs.Films.{Film};
ghost use Rattle.mc_calls.specs.Demuxers.{IsDemux};
ghost use Rattle.mc_calls.specs.Film.{StandsFor};
ghost use Rattle.mc_calls.specs.Opening.{HasTracks, IsOpened};
ghost use Rattle.mc_jobs.specs.Driving.{Drives};

use mc_cursor::Cursor;
use mc_demux::{Demux, DemuxError};
use mc_index::Index;
use mc_jobs::Driver;
use mc_journal::DemuxJournal;
use mc_lines::{Halt, run_script};
use mc_outside::Shelf;
use mc_packet::{Limits, NoMemory};
use mc_script::Script;
use mc_tracks::{TrackList, default_choice};
use std::alloc::{AllocError, Global};

/// What a script left, and why it halted before its end.
#[derive(Drop)]
pub struct Played {
    /// What happened in the demuxer, the oldest record first.
    pub hd: DemuxJournal,
    /// Why the script halted before its end, if it did.
    pub halt: Result<(), Halt>,
}

/// A demuxer of these tracks, with the default ones selected.
fn open_demux(alloc: Global, list: TrackList, limits: Limits) -> Result<Demux, NoMemory>
    requires limits { AreLimits limits }
    requires list { IsTrackList list }
    ensures value { IfOk result (IsOpened list (default_choice_of list) limits) }
    ensures film { (film : Film) → HasTracks list film → IfOk result (λ d. StandsFor film d) }
    ensures demux { IfOk result IsDemux }
{
    let set = default_choice(&list);
    match Demux::new(alloc, list, set, limits) {
        Ok(demux) => Ok(demux),
        Err(_) => Err(AllocError),
    }
}

/// A driver of the film at whose opening the cursor stands.
fn open_driver(alloc: Global, cursor: Cursor, limits: Limits) -> Result<Driver, NoMemory>
    requires limits { AreLimits limits }
    ensures film { (octets : List ℕ) → AreBytes octets → OpensFilm octets cursor
        → IfOk result (Drives octets) }
    ensures journal { IfOk result (λ d. d.demux.journal
        ≡ Opened 0 (default_choice_of cursor.tracks) ∷ []) }
    ensures cursor { IfOk result (λ d. d.cursor ≡ cursor) }
    ensures limits { IfOk result (λ d. d.demux.cache.limits ≡ limits) }
    ensures list { IfOk result (λ d. d.demux.list ≡ cursor.tracks) }
    ensures demux { IfOk result (λ d. IsDemux d.demux) }
{
    let list = cursor.tracks().copy()?;
    let index = Index::new(alloc, &list)?;
    let demux = open_demux(alloc, list, limits)?;
    Ok(Driver {
        demux,
        cursor,
        index,
    })
}

/// Plays a script over the film at whose opening the cursor stands. `NoMemory` where there is none
/// to begin with; what is wanting later halts the script.
pub(crate) fn play<D: Shelf>(
    alloc: Global,
    shelf: &mut D,
    cursor: Cursor,
    limits: Limits,
    script: &Script,
) -> Result<Played, NoMemory>
    requires limits { AreLimits limits }
    requires paired { IsPaired false script.now }
    ensures played { InFile D.files D.opened shelf.old cursor.file.0
        (λ octets. OpensFilm octets cursor
        → IfOk result (λ p. Plays (plan_for octets cursor) limits script.now p.halt p.hd)) }
    ensures grows { IfOk result (λ p. Grows (D.faults shelf.old) (D.faults shelf.new)
        (Opened 0 (default_choice_of cursor.tracks) ∷ []) p.hd) }
    ensures full { IfOk result (λ p. IsFull p.hd p.halt) }
    ensures files { D.files shelf.new ≡ D.files shelf.old }
    ensures later { D.faults shelf.old ≤ D.faults shelf.new }
{
    let mut driver = open_driver(alloc, cursor, limits)?;
    let halt = run_script(&mut driver, shelf, script.as_slice());
    let Driver { demux, .. } = driver;
    Ok(Played {
        hd: demux.into_journal(),
        halt,
    })
}
