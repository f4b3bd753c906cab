//! What is told of a demuxer.
ghost use Rattle.std.specs.Prelude.{◌≡◌, ◌≤◌, IfOk, OnErr, OnOk, is_some, find, reverse};
ghost use Rattle.std.specs.Option.{option_copied};
ghost use Rattle.mc_packet.specs.Choices.{has, lead_of, passes};
ghost use Rattle.mc_journal.specs.Choices.{each_of};
ghost use Rattle.mc_journal.specs.Films.{Film};
ghost use Rattle.mc_journal.specs.Views.{plays, time_of, view};
ghost use Rattle.mc_calls.specs.ByJournal.{status_by};
ghost use Rattle.mc_calls.specs.Demuxers.{IsDemux};
ghost use Rattle.mc_calls.specs.Film.{StandsFor};
ghost use Rattle.mc_calls.specs.Keeping.{IsRoomy};
ghost use Rattle.mc_calls.specs.Marks.{AreAmong, marks_of};
ghost use Rattle.mc_journal.specs.Callers.{Grew};
ghost use Rattle.mc_calls.specs.Viewing.{IsShown, Shows, flags_of, is_ended, play_told, status_of, tells_play, tells_time, time_told, view_of};

use crate::asking::is_empty;
use crate::demux::Demux;
use crate::reading::{FULL, has, is_track};
use mc_calls::DemuxError;
use mc_journal::DemuxRecord;
use mc_packet::{CacheView, Choice, Ending, NoMemory, Status, TrackNo};

// The selected video track, else the selected audio track.
pub(crate) fn lead_of(set: Choice) -> Option<TrackNo>
    ensures { result ≡ lead_of set }
{
    match set.video {
        Some(track) => Some(track),
        None => set.audio,
    }
}

fn tells_time(lead: Option<TrackNo>, entry: &DemuxRecord) -> bool
    ensures { result ≡ tells_time lead entry.now }
{
    match entry {
        DemuxRecord::Opened { .. } | DemuxRecord::Sought { .. } => true,
        DemuxRecord::Gave { track, .. } => is_track(lead, *track),
        _ => false,
    }
}

fn tells_play(lead: Option<TrackNo>, entry: &DemuxRecord) -> bool
    ensures { result ≡ tells_play lead entry.now }
{
    match entry {
        DemuxRecord::Opened { .. } | DemuxRecord::Sought { .. } => true,
        DemuxRecord::Gave { track, .. } | DemuxRecord::Ended { track, .. } => {
            is_track(lead, *track)
        }
        _ => false,
    }
}

fn newest_time(lead: Option<TrackNo>, journal: &[DemuxRecord]) -> Option<&DemuxRecord>
    ensures { option_copied result ≡ find (tells_time lead) (reverse journal.now) }
{
    journal.iter().rev().find(|entry| tells_time(lead, entry))
}

fn newest_play(lead: Option<TrackNo>, journal: &[DemuxRecord]) -> Option<&DemuxRecord>
    ensures { option_copied result ≡ find (tells_play lead) (reverse journal.now) }
{
    journal.iter().rev().find(|entry| tells_play(lead, entry))
}

// The time of the last packet that was given to this track since the last seek or opening, else
// the seek's target.
#[tactic(auto, using(mc_calls::proofs::Viewed::time_found))]
fn time_of(lead: Option<TrackNo>, journal: &[DemuxRecord]) -> Option<i64>
    ensures { result ≡ time_of lead (reverse journal.now) }
{
    match newest_time(lead, journal) {
        Some(DemuxRecord::Sought { t, .. }) => Some(*t),
        Some(DemuxRecord::Gave { time, .. }) => Some(*time),
        _ => None,
    }
}

// Whether this track was given a packet or its end since then.
#[tactic(auto, using(mc_calls::proofs::Viewed::play_found))]
fn plays(lead: Option<TrackNo>, journal: &[DemuxRecord]) -> bool
    ensures { result ≡ plays lead (reverse journal.now) }
{
    match newest_play(lead, journal) {
        Some(DemuxRecord::Gave { .. } | DemuxRecord::Ended { .. }) => true,
        _ => false,
    }
}

fn was_ended(track: Option<TrackNo>, ended: Choice) -> bool
    ensures { result ≡ passes track (has ended) }
{
    match track {
        Some(track) => has(ended, track),
        None => true,
    }
}

fn flags(ending: Option<Ending>, ranges: usize) -> u64
    requires { ranges ≤ 10 }
    ensures { result ≡ flags_of ending ranges }
{
    let bit = if ending.is_some() { 1 } else { 0 };
    bit + 256 * ranges as u64
}

impl Demux {
    // Whether something is selected, and the reader of each selected track was told the end.
    fn is_ended(&self) -> bool
        ensures { result ≡ is_ended self.now }
    {
        !is_empty(self.set)
            && was_ended(self.set.video, self.ended)
            && was_ended(self.set.audio, self.ended)
            && was_ended(self.set.sub, self.ended)
    }

    /// The reader's time in nanoseconds: that of the last packet that the lead was given since the last
    /// seek or opening, else the seek's target. It takes no memory.
    pub fn time(&self) -> Option<i64>
        ensures value { result ≡ time_of (lead_of self.now.set) (reverse self.now.journal) }
    {
        time_of(lead_of(self.set), &self.journal)
    }

    /// What the cache tells of itself as it is seen by the readers: its ranges, the current one
    /// first and the others in order of last use, the octets ahead of the readers and behind them,
    /// the time of the lead's reader, whether it was given something since the last seek, and
    /// whether all readers were told the end.
    pub fn view(&self) -> Result<CacheView, NoMemory>
        ensures value { IfOk result (λ v. v ≡ view_of self.now) }
        ensures film { (film : Film) → StandsFor film self.now
            → IfOk result (λ v. v ≡ view film.packets (reverse self.now.journal)) }
        ensures demux { IsDemux self.now }
    {
        let lead = lead_of(self.set);
        let journal = self.journal.as_slice();
        Ok(CacheView {
            time: time_of(lead, journal),
            playing: plays(lead, journal),
            ended: self.is_ended(),
            ..self.cache.view(&self.heads)?
        })
    }

    // Writes what was shown. `NoMemory` leaves all as it was but room.
    fn put_view(&mut self, by: u32, view: CacheView) -> Result<(), NoMemory>
        ensures ok { OnOk result (IsShown by view self.old self.new) }
        ensures err { OnErr result (IsRoomy self.old self.new) }
        ensures demux { IsDemux self.new }
    {
        self.journal.reserve(3)?;
        self.journal.push_reserved(DemuxRecord::Shown { by, view });
        Ok(())
    }

    /// Shows the caller `by` what `view` tells, and records it. Refused with `JournalFull` exactly
    /// where the journal has 16,000,000 records, and with `NoMemory`; nothing changes then but room.
    pub fn show(&mut self, by: u32) -> Result<CacheView, DemuxError>
        ensures value { Shows by self.old result self.new }
        ensures grows { Grew by self.old.journal self.new.journal }
        ensures film { (film : Film) → StandsFor film self.old → StandsFor film self.new }
        ensures marks { AreAmong (marks_of self.old.cache) self.new.cache }
        ensures demux { IsDemux self.new }
    {
        if self.journal.len() >= FULL {
            return Err(DemuxError::JournalFull);
        }
        let view = self.view()?;
        let told = view.copy(*self.journal.allocator())?;
        self.put_view(by, told)?;
        Ok(view)
    }

    /// A short account: the number of records, the octets ahead of the readers and behind them, and
    /// the flags: whether the current range has the film's ending, and the number of ranges. It takes
    /// no memory. Of a film that the demuxer stands for it is what the journal tells; how many octets
    /// both numbers can come to is said by `cached_octets`.
    pub fn status(&self) -> Status
        ensures value { result ≡ status_of self.now }
        ensures film { (film : Film) → StandsFor film self.now
            → result ≡ status_by film (reverse self.now.journal) }
        ensures demux { IsDemux self.now }
    {
        Status {
            seq: self.journal.len() as u64,
            forward: self.cache.forward(&self.heads),
            back: self.cache.back(&self.heads),
            flags: flags(self.cache.ending(), self.cache.len()),
        }
    }
}
