//! Parts of the film that are read on.
ghost use Rattle.std.specs.Prelude.{◌≡◌, ◌≤◌, ◌+◌, ◌∷◌, true, Some, IfOk, IsSomeAnd, OnOk, OnErr};
ghost use Rattle.mc_packet.specs.Shape.{HasShape};
ghost use Rattle.mc_journal.specs.Films.{Film};
ghost use Rattle.mc_cache.specs.Cache.{count_of, mark_in, ranges_of};
ghost use Rattle.mc_cache.specs.Rooms.{HasRoomToFeed};
ghost use Rattle.mc_calls.specs.Demuxers.{IsDemux};
ghost use Rattle.mc_calls.specs.Feeding.{TakesPart};
ghost use Rattle.mc_calls.specs.Film.{IsPartOf, StandsFor};
ghost use Rattle.mc_calls.specs.Keeping.{IsAsBefore};
ghost use Rattle.mc_calls.specs.Marks.{AreAmong, marks_of};
ghost use Rattle.mc_calls.specs.Outcomes.{BringsPart, Feeds, PartFits, is_at};
ghost use Rattle.mc_journal.specs.Callers.{Grew, demuxer};

use crate::demux::Demux;
use crate::joining::settle;
use crate::reading::FULL;
use mc_calls::{DemuxError, Taken};
use mc_journal::{DEMUXER, DemuxRecord};
use mc_packet::{Chunk, Mark, NoMemory};

// Whether a range is read on from this mark.
fn is_at(mark: Mark, current: Option<Mark>) -> bool
    ensures { result ≡ is_at mark current }
{
    match current {
        Some(current) => current.pos == mark.pos,
        None => false,
    }
}

impl Demux {
    // Makes room for a part of the film, for the joins after it, and for all that is told of it.
    fn make_room_to_feed(&mut self, chunk: &Chunk) -> Result<(), NoMemory>
        requires shape { HasShape chunk.now }
        ensures same { IsAsBefore self.old self.new }
        ensures ok { OnOk result (HasRoomToFeed chunk.now self.new.cache) }
        ensures room { OnOk result (count_of (ranges_of self.new.cache) + 320 ≤ self.new.spare) }
        ensures demux { IsDemux self.new }
    {
        self.make_room_to_change()?;
        self.cache.make_room_to_feed(chunk)
    }

    // Feeds the current range, tells of it, joins, and drops packets as the limit asks.
    fn take_part(&mut self, chunk: Chunk) -> Result<(), NoMemory>
        requires kept { IsSomeAnd self.old.kept (PartFits chunk) }
        requires here { mark_in self.old.cache.current ≡ Some chunk.from }
        requires shape { HasShape chunk }
        requires ready { HasRoomToFeed chunk self.old.cache }
        requires room { count_of (ranges_of self.old.cache) + 320 ≤ self.old.spare }
        ensures ok { OnOk result (TakesPart chunk self.old self.new) }
        ensures err { OnErr result (self.new ≡ self.old) }
        ensures demux { IsDemux self.new }
    {
        let Chunk {
            from,
            to,
            ending,
            ..
        } = chunk;
        let took = self.cache.feed(chunk)?;
        self.journal.push_reserved(DemuxRecord::Fed {
            by: DEMUXER,
            from,
            to,
            took,
            ending,
        });
        settle(DEMUXER, &mut self.cache, &self.heads, &mut self.journal);
        self.number += 1;
        self.kept = None;
        self.fed = is_at(to, self.cache.mark());
        Ok(())
    }

    /// Takes the part of the film that the job of this number brought. The current range grows by its
    /// packets, each track by its own, and is joined with each other range that it then touches; then
    /// packets behind the readers are dropped, as long as there are more octets of them than the limit.
    /// All of it is recorded, and the next job bears the next number. `Stale` exactly where the number
    /// is not the present one: then nothing changes. Refused with `JournalFull` exactly where the
    /// journal has 16,000,000 records, and with `NoMemory`; nothing changes then but room, and the job
    /// is kept still.
    pub fn feed(&mut self, no: u64, chunk: Chunk) -> Result<Taken, DemuxError>
        requires brought { BringsPart no chunk self.old }
        ensures value { Feeds no chunk self.old result self.new }
        ensures grows { Grew demuxer self.old.journal self.new.journal }
        ensures film { (film : Film) → IsPartOf film chunk
            → StandsFor film self.old → StandsFor film self.new }
        ensures marks { AreAmong (chunk.to ∷ marks_of self.old.cache) self.new.cache }
        ensures demux { IsDemux self.new }
    {
        if self.journal.len() >= FULL {
            return Err(DemuxError::JournalFull);
        }
        if no != self.number {
            return Ok(Taken::Stale {
                asked: no,
                now: self.number,
            });
        }
        self.make_room_to_feed(&chunk)?;
        self.take_part(chunk)?;
        Ok(Taken::Taken)
    }
}
