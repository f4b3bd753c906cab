//! Starts that were found.
ghost use Rattle.std.specs.Prelude.{◌≡◌, ◌≤◌, ◌+◌, ◌∷◌, true, IfNone, IfSome, IsSomeAnd, OnOk, OnErr, vec_len, vec_capacity};
ghost use Rattle.mc_packet.specs.Choices.{is_distinct};
ghost use Rattle.mc_journal.specs.Films.{Film};
ghost use Rattle.mc_packet.specs.Choices.{AreAtMark};
ghost use Rattle.mc_cache.specs.Cache.{IsCache, count_of, ranges_of};
ghost use Rattle.mc_cache.specs.Changing.{IsSameButRoom};
ghost use Rattle.mc_cache.specs.Rooms.{HasRoomToJoin, IsPrepared};
ghost use Rattle.mc_calls.specs.Demuxers.{IsDemux};
ghost use Rattle.mc_calls.specs.Film.{AreStartsOf, StandsFor};
ghost use Rattle.mc_calls.specs.Finding.{AddsOne, AddsTracks, Begins, BeginsRange, IsReadyToBegin, MayAddAll, MayAddOne, TakesStarts};
ghost use Rattle.mc_calls.specs.Keeping.{IsAsBefore};
ghost use Rattle.mc_calls.specs.Marks.{AreAmong, marks_of};
ghost use Rattle.mc_journal.specs.Callers.{Grew, demuxer};
ghost use Rattle.mc_calls.specs.Outcomes.{BringsStarts, Finds, StartsFit, head_at, heads_at};

use crate::demux::{Demux, Records};
use crate::joining::{settle, tell_drops};
use crate::reading::FULL;
use crate::seek::NOTHING;
use mc_cache::Cache;
use mc_calls::{DemuxError, Taken};
use mc_journal::{DEMUXER, DemuxRecord};
use mc_packet::{Choice, Heads, Kind, Mark, NoMemory, Pos, Starts, TrackNo};

fn head_at(start: Option<u64>, head: Option<Pos>) -> Option<Pos>
    ensures { result ≡ head_at start head }
{
    match start {
        Some(block) => Some(Pos { block, lane: 0 }),
        None => head,
    }
}

// The heads, where those of tracks whose start was found are there.
pub(crate) fn heads_at(starts: &Starts, heads: Heads) -> Heads
    ensures { result ≡ heads_at starts.now heads }
{
    Heads {
        video: head_at(starts.video, heads.video),
        audio: head_at(starts.audio, heads.audio),
        sub: head_at(starts.sub, heads.sub),
    }
}

// Gives the current range an empty queue of an added track, if there is one.
fn add_one(cache: &mut Cache, kind: Kind, track: Option<TrackNo>, start: Option<u64>, mark: Mark)
    requires may { MayAddOne kind track start mark cache.old }
    ensures value { AddsOne kind track start mark cache.old cache.new }
    ensures cache { IsCache cache.new }
{
    // for the proof alone: it says what is true of every cache
    let _mark = cache.mark();
    if let (Some(track), Some(start)) = (track, start) {
        cache.add_track(kind, track, start, mark);
    }
}

// Gives the current range an empty queue of each added track.
#[tactic(auto, using(mc_calls::proofs::Adding::still_may))]
fn add_tracks(cache: &mut Cache, added: Choice, starts: &Starts)
    requires may { MayAddAll added starts.now cache.old }
    ensures value { AddsTracks added starts.now cache.old cache.new }
    ensures cache { IsCache cache.new }
{
    add_one(cache, Kind::Video, added.video, starts.video, starts.mark);
    add_one(cache, Kind::Audio, added.audio, starts.audio, starts.mark);
    add_one(cache, Kind::Sub, added.sub, starts.sub, starts.mark);
}

// Begins a new range, and tells of its starts and of an eleventh range that goes for it.
fn begin_range(
    cache: &mut Cache,
    set: Choice,
    starts: &Starts,
    journal: &mut Records,
) -> Result<(), NoMemory>
    // no range is current, and the starts are of these tracks
    requires none { cache.old.current ≡ None }
    requires distinct { is_distinct set ≡ true }
    requires at_mark { AreAtMark starts.now }
    // the journal has room for what is told
    requires room { vec_len journal.old + 4 ≤ vec_capacity journal.old }
    // what is left, and told
    ensures ok { OnOk result
        (BeginsRange set starts.now cache.old journal.old.items cache.new journal.new.items) }
    ensures err { OnErr result (IsSameButRoom cache.old cache.new) }
    ensures untold { OnErr result (journal.new ≡ journal.old) }
    // how much room is left, and that joins can follow
    ensures len { vec_len journal.new ≤ vec_len journal.old + 4 }
    ensures capacity { vec_capacity journal.new ≡ vec_capacity journal.old }
    ensures joins { OnOk result (IsPrepared set starts.now cache.old → HasRoomToJoin cache.new) }
    ensures cache { IsCache cache.new }
{
    // for the proof alone: it says what is true of every cache
    let _mark = cache.mark();
    let drops = cache.start_range(set, starts)?;
    journal.push_reserved(DemuxRecord::Found {
        by: DEMUXER,
        starts: *starts,
    });
    tell_drops(DEMUXER, &drops, journal);
    Ok(())
}

// Gives the current range the added tracks, or begins a new range where none is current, and tells
// of the starts.
#[tactic(auto, using(mc_calls::proofs::Beginning::begins_some))]
fn begin(
    cache: &mut Cache,
    set: Choice,
    added: Choice,
    starts: &Starts,
    journal: &mut Records,
) -> Result<(), NoMemory>
    // the starts are of these tracks, and the current range, if there is one, may take them
    requires distinct { is_distinct set ≡ true }
    requires at_mark { AreAtMark starts.now }
    requires may { IfSome cache.old.current (λ r. MayAddAll added starts.now cache.old) }
    // the journal has room for what is told
    requires room { vec_len journal.old + 4 ≤ vec_capacity journal.old }
    // what is left, and told
    ensures ok { OnOk result
        (Begins set added starts.now cache.old journal.old.items cache.new journal.new.items) }
    ensures err { OnErr result (IsSameButRoom cache.old cache.new) }
    ensures untold { OnErr result (journal.new ≡ journal.old) }
    // how much room is left, and that joins can follow
    ensures len { vec_len journal.new ≤ vec_len journal.old + 4 }
    ensures capacity { vec_capacity journal.new ≡ vec_capacity journal.old }
    ensures joins { OnOk result
        (IsReadyToBegin set starts.now cache.old.current cache.old → HasRoomToJoin cache.new) }
    ensures cache { IsCache cache.new }
{
    if cache.mark().is_none() {
        return begin_range(cache, set, starts, journal);
    }
    add_tracks(cache, added, starts);
    journal.push_reserved(DemuxRecord::Found {
        by: DEMUXER,
        starts: *starts,
    });
    Ok(())
}

impl Demux {
    // Makes room for starts, for the joins after them, and for all that is told of them.
    fn make_room_to_find(&mut self, starts: &Starts) -> Result<(), NoMemory>
        requires kept { IsSomeAnd self.old.kept (StartsFit starts.now) }
        ensures same { IsAsBefore self.old self.new }
        ensures ready { OnOk result
            (IfNone self.new.cache.current (IsPrepared self.new.set starts.now self.new.cache)) }
        ensures room { OnOk result (count_of (ranges_of self.new.cache) + 320 ≤ self.new.spare) }
        ensures demux { IsDemux self.new }
    {
        self.make_room_to_change()?;
        if self.cache.mark().is_some() {
            return Ok(());
        }
        self.cache.make_room_to_start(self.set, starts)
    }

    // Takes the starts, tells of them, joins, and drops packets as the limit asks.
    fn take_starts(&mut self, starts: &Starts) -> Result<(), NoMemory>
        requires kept { IsSomeAnd self.old.kept (StartsFit starts.now) }
        requires ready { IfNone self.old.cache.current
            (IsPrepared self.old.set starts.now self.old.cache) }
        requires room { count_of (ranges_of self.old.cache) + 320 ≤ self.old.spare }
        ensures ok { OnOk result (TakesStarts starts.now self.old self.new) }
        ensures err { OnErr result (IsAsBefore self.old self.new) }
        ensures demux { IsDemux self.new }
    {
        begin(
            &mut self.cache,
            self.set,
            self.waiting,
            starts,
            &mut self.journal,
        )?;
        self.heads = heads_at(starts, self.heads);
        settle(DEMUXER, &mut self.cache, &self.heads, &mut self.journal);
        self.seeking = None;
        self.waiting = NOTHING;
        self.number += 1;
        self.kept = None;
        self.fed = false;
        Ok(())
    }

    /// Takes the starts that the job of this number found. After a seek a new range begins there, and
    /// the one that was current stands in front of the others; after a selection the current range is
    /// read on for the tracks that wait, from their starts. The heads of these tracks are at their
    /// starts then, nothing waits, and the current range is joined with each other that it touches. Of
    /// ranges beside it ten can't stand: the last one goes. Packets behind the readers are dropped, as
    /// long as there are more octets of them than the limit. All of it is recorded, and the next job
    /// bears the next number. `Stale` exactly where the number is not the present one: then nothing
    /// changes. Refused with `JournalFull` exactly where the journal has 16,000,000 records, and with
    /// `NoMemory`; nothing changes then but room, and the job is kept still.
    pub fn found(&mut self, no: u64, starts: Starts) -> Result<Taken, DemuxError>
        requires brought { BringsStarts no starts self.old }
        ensures value { Finds no starts self.old result self.new }
        ensures grows { Grew demuxer self.old.journal self.new.journal }
        ensures film { (film : Film)
            → (no ≡ self.old.number → IfSome self.old.kept (AreStartsOf film starts))
            → StandsFor film self.old → StandsFor film self.new }
        ensures marks { AreAmong (starts.mark ∷ marks_of self.old.cache) self.new.cache }
        ensures demux { IsDemux self.new }
    {
        if self.journal.len() >= FULL {
            return Err(DemuxError::JournalFull);
        }
        if no != self.number {
            return Ok(Taken::Stale {
                asked: no,
                now: self.number,
            });
        }
        self.make_room_to_find(&starts)?;
        self.take_starts(&starts)?;
        Ok(Taken::Taken)
    }
}
