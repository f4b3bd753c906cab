//! What the jobs of a demuxer come to: the cursor and the index do them over a shelf.
ghost use Rattle.std.specs.Prelude.{◌≡◌, ◌≤◌, ◌^◌, ◌<◌, List, ℕ, IsErrOf};
ghost use Rattle.mc_packet.specs.declared.choice.Choice.{Choice};
ghost use Rattle.mc_packet.specs.declared.walk.Mark.{Mark};
ghost use Rattle.mc_walk.specs.Parts.{IsMark};
ghost use Rattle.mc_cursor.specs.Causes.{OnlyReads};
ghost use Rattle.mc_cursor.specs.Standing.{OnFilm, StandsFor, plan_for, mark_of, at_mark};
ghost use Rattle.mc_index.specs.Scans.{OnPlan, StayOn};
ghost use Rattle.mc_journal.specs.Films.{Film};
ghost use Rattle.mc_calls.specs.Demuxers.{IsDemux};
ghost use Rattle.mc_calls.specs.Film.{StandsFor as DemuxStandsFor};
ghost use Rattle.mc_calls.specs.Marks.{AreAmong, marks_of};
ghost use Rattle.mc_jobs.specs.Working.{AreStarts, IsPart, CountsFit, AreSeekStarts, AreSwitchStarts, IsChunkAt, Brings, IsOfFilm, Takes, marks_in};

use crate::brought::Brought;
use mc_cursor::{Cursor, CursorError};
use mc_demux::{Demux, DemuxError, Taken};
use mc_index::Index;
use mc_outside::Shelf;
use mc_packet::{Choice, Dir, Mark, TrackNo};

/// Where the tracks of a set start after a seek.
pub fn find_starts<S: Shelf>(
    cursor: &mut Cursor,
    index: &mut Index,
    shelf: &mut S,
    set: Choice,
    t: i64,
    dir: Dir,
) -> Brought
    ensures fits { AreStarts set result }
    ensures film { OnPlan S.files S.opened shelf.old cursor.old index.old
        (λ plan. AreSeekStarts plan set t dir result) }
    ensures stands { StayOn S.files S.opened shelf.old cursor.old index.old cursor.new index.new }
    ensures moves { cursor.new ≡ at_mark cursor.old (mark_of cursor.new) }
    ensures counts { CountsFit (S.faults shelf.old) (S.faults shelf.new) result }
    ensures later { S.faults shelf.old ≤ S.faults shelf.new }
    ensures kept { OnlyReads S.files S.opened S.reach shelf.old shelf.new }
{
    let before = shelf.fault_count();
    match index.find(cursor, shelf, set, t, dir) {
        Ok(starts) => Brought::Starts(starts),
        Err(CursorError::ReadFault) => Brought::Failed {
            before,
            after: shelf.fault_count(),
        },
        Err(CursorError::NoMemory) => Brought::Starved,
    }
}

/// Where tracks that are added start.
pub fn find_added<S: Shelf>(
    cursor: &mut Cursor,
    index: &mut Index,
    shelf: &mut S,
    added: Choice,
    lead: Option<TrackNo>,
    at: i64,
) -> Brought
    ensures fits { AreStarts added result }
    ensures film { OnPlan S.files S.opened shelf.old cursor.old index.old
        (λ plan. AreSwitchStarts plan added lead at result) }
    ensures stands { StayOn S.files S.opened shelf.old cursor.old index.old cursor.new index.new }
    ensures moves { cursor.new ≡ at_mark cursor.old (mark_of cursor.new) }
    ensures counts { CountsFit (S.faults shelf.old) (S.faults shelf.new) result }
    ensures later { S.faults shelf.old ≤ S.faults shelf.new }
    ensures kept { OnlyReads S.files S.opened S.reach shelf.old shelf.new }
{
    let before = shelf.fault_count();
    match index.find_switch(cursor, shelf, added, lead, at) {
        Ok(starts) => Brought::Starts(starts),
        Err(CursorError::ReadFault) => Brought::Failed {
            before,
            after: shelf.fault_count(),
        },
        Err(CursorError::NoMemory) => Brought::Starved,
    }
}

/// The part of the film from a mark on.
pub fn read_part<S: Shelf>(cursor: &mut Cursor, shelf: &mut S, mark: Mark) -> Brought
    ensures fits { IsPart mark result }
    ensures film { OnFilm S.files S.opened shelf.old cursor.old
        (λ octets. IsMark (plan_for octets cursor.old) mark
        → IsChunkAt (plan_for octets cursor.old) mark result) }
    ensures stands { OnFilm S.files S.opened shelf.old cursor.old
        (λ octets. IsMark (plan_for octets cursor.old) mark → StandsFor octets cursor.new) }
    ensures moves { cursor.new ≡ at_mark cursor.old (mark_of cursor.new) }
    ensures counts { CountsFit (S.faults shelf.old) (S.faults shelf.new) result }
    ensures later { S.faults shelf.old ≤ S.faults shelf.new }
    ensures kept { OnlyReads S.files S.opened S.reach shelf.old shelf.new }
{
    let before = shelf.fault_count();
    cursor.goto(mark);
    match cursor.next_chunk(shelf) {
        Ok(chunk) => Brought::Chunk(chunk),
        Err(CursorError::ReadFault) => Brought::Failed {
            before,
            after: shelf.fault_count(),
        },
        Err(CursorError::NoMemory) => Brought::Starved,
    }
}

/// Brings to a demuxer what its job came to.
pub fn bring(demux: &mut Demux, no: u64, brought: Brought) -> Result<Taken, DemuxError>
    requires brought { Brings no brought demux.old }
    ensures value { Takes no brought demux.old result demux.new }
    ensures film { (film : Film) → IsOfFilm film no brought demux.old
        → DemuxStandsFor film demux.old → DemuxStandsFor film demux.new }
    ensures marks { AreAmong (marks_in brought (marks_of demux.old.cache)) demux.new.cache }
    ensures demux { IsDemux demux.new }
{
    match brought {
        Brought::Chunk(chunk) => demux.feed(no, chunk),
        Brought::Starts(starts) => demux.found(no, starts),
        Brought::Failed { before, after } => Ok(demux.failed(no, before, after)),
        Brought::Starved => Ok(demux.starved(no)),
    }
}
