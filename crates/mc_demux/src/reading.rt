//! What a reader is told.
ghost use Rattle.std.specs.Prelude.{◌≡◌, ◌≤◌, ◌<◌, ◌+◌, ◌^◌, true, List, ◌++◌, ◌∷◌, [], IfOk, IfSome, OnOk, OnErr, nat_le, if◌then◌else◌, None};
ghost use Rattle.std.specs.Option.{option_copied};
ghost use Rattle.mc_packet.specs.Choices.{has, is_track};
ghost use Rattle.mc_journal.specs.Films.{Film, rank};
ghost use Rattle.mc_cache.specs.Cache.{count_of, ranges_of};
ghost use Rattle.mc_cache.specs.Pruning.{ahead_in};
ghost use Rattle.mc_calls.specs.State.{DemuxState, end_in, forward_of, head_of, next_in};
ghost use Rattle.mc_calls.specs.Demuxers.{IsDemux, IsPlaced};
ghost use Rattle.mc_calls.specs.Readings.{Gives, IsBelow, Reads, ended_after, heads_after, mark_track, past, past_packets, peek_at, reading_of, record_of, waiting_for, with_head, with_track};
ghost use Rattle.mc_calls.specs.Keeping.{IsRoomy};
ghost use Rattle.mc_calls.specs.Film.{StandsFor};
ghost use Rattle.mc_calls.specs.Marks.{AreAmong, marks_of};
ghost use Rattle.mc_journal.specs.Callers.{Grew};

use crate::demux::Demux;
use crate::trim::trim;
use mc_calls::{DemuxError, Failure, Peek, Reading};
use mc_journal::{DemuxRecord, gave};
use mc_packet::{Choice, Ending, Heads, NoMemory, Packet, Pos, TrackNo};

/// As many records as a journal has where it is full.
pub(crate) const FULL: usize = 16_000_000;

pub(crate) fn is_track(selected: Option<TrackNo>, track: TrackNo) -> bool
    ensures { result ≡ is_track selected track }
{
    match selected {
        Some(selected) => selected == track,
        None => false,
    }
}

pub(crate) fn has(set: Choice, track: TrackNo) -> bool
    ensures { result ≡ has set track }
{
    is_track(set.video, track) || is_track(set.audio, track) || is_track(set.sub, track)
}

pub(crate) fn head_of(set: Choice, heads: &Heads, track: TrackNo) -> Option<Pos>
    ensures { result ≡ head_of set heads.now track }
{
    if is_track(set.video, track) {
        heads.video
    } else if is_track(set.audio, track) {
        heads.audio
    } else if is_track(set.sub, track) {
        heads.sub
    } else {
        None
    }
}

fn with_head(set: Choice, track: TrackNo, place: Pos, heads: Heads) -> Heads
    ensures { result ≡ with_head set track place heads }
{
    if is_track(set.video, track) {
        Heads {
            video: Some(place),
            ..heads
        }
    } else if is_track(set.audio, track) {
        Heads {
            audio: Some(place),
            ..heads
        }
    } else if is_track(set.sub, track) {
        Heads {
            sub: Some(place),
            ..heads
        }
    } else {
        heads
    }
}

fn mark_track(track: TrackNo, selected: Option<TrackNo>, marked: Option<TrackNo>) -> Option<TrackNo>
    ensures { result ≡ mark_track track selected marked }
{
    if is_track(selected, track) {
        selected
    } else {
        marked
    }
}

fn with_track(set: Choice, track: TrackNo, marked: Choice) -> Choice
    ensures { result ≡ with_track set track marked }
{
    Choice {
        video: mark_track(track, set.video, marked.video),
        audio: mark_track(track, set.audio, marked.audio),
        sub: mark_track(track, set.sub, marked.sub),
    }
}

fn peek_at(reading: &Reading) -> Peek
    ensures { result ≡ peek_at reading.now }
{
    match reading {
        Reading::Gave(packet) => Peek::Packet(packet.pos),
        Reading::End(_) | Reading::Fault { .. } | Reading::Wanting => Peek::Finish,
        _ => Peek::Wait,
    }
}

fn record_of(by: u32, track: TrackNo, reading: &Reading) -> Option<DemuxRecord>
    ensures { result ≡ record_of by track reading.now }
{
    match reading {
        Reading::Gave(packet) => Some(gave(by, packet)),
        Reading::End(ending) => Some(DemuxRecord::Ended {
            by,
            track,
            ending: *ending,
        }),
        Reading::Overfull { forward, max } => Some(DemuxRecord::Overfull {
            by,
            track,
            forward: *forward,
            max: *max,
        }),
        Reading::Fault { before, after } => Some(DemuxRecord::Faulted {
            by,
            track,
            before: *before,
            after: *after,
        }),
        Reading::Wanting => Some(DemuxRecord::Wanting { by, track }),
        _ => None,
    }
}

// What a reader is told that has to wait.
fn waiting_for(failure: Option<Failure>, forward: u64, max: u64) -> Reading
    ensures { result ≡ waiting_for failure forward max }
{
    match failure {
        Some(Failure::Failed { before, after }) => Reading::Fault { before, after },
        Some(Failure::Starved) => Reading::Wanting,
        None => {
            if max <= forward {
                Reading::Overfull { forward, max }
            } else {
                Reading::NotYet
            }
        }
    }
}

// The place just behind a packet's.
#[tactic(auto, unfolding(mc_journal::specs::Films::rank))]
pub(crate) fn past(pos: Pos) -> Pos
    requires { rank pos + 1 < 2 ^ 80 }
    ensures { result ≡ past pos }
{
    if pos.lane == u16::MAX {
        Pos {
            block: pos.block + 1,
            lane: 0,
        }
    } else {
        Pos {
            block: pos.block,
            lane: pos.lane + 1,
        }
    }
}

impl Demux {
    /// What a read of the track would answer now: a packet, the end of its readings, or something
    /// that changes once more was read. It takes no memory.
    pub fn peek(&self, track: TrackNo) -> Peek
        ensures value { result ≡ peek_at (reading_of track self.now) }
        ensures demux { IsDemux self.now }
    {
        if !has(self.set, track) {
            return Peek::Wait;
        }
        match self.next(track) {
            Some(packet) => Peek::Packet(packet.pos),
            None => peek_at(&self.past_packets(track)),
        }
    }

    // The packet of a track at its head.
    fn next(&self, track: TrackNo) -> Option<&Packet>
        ensures value { option_copied result
            ≡ next_in self.now.set self.now.heads track self.now.cache.current }
        ensures below { IfSome (option_copied result) (λ p. rank p.pos + 1 < 2 ^ 80) }
    {
        match head_of(self.set, &self.heads, track) {
            Some(head) => self.cache.first_at(track, head),
            None => None,
        }
    }

    // How the film ends, where the current range reaches so far and has a queue of the track.
    fn end_of(&self, track: TrackNo) -> Option<Ending>
        requires selected { has self.now.set track ≡ true }
        ensures value { result ≡ end_in track self.now.cache.current }
    {
        if has(self.waiting, track) {
            None
        } else {
            self.cache.ending()
        }
    }

    // What a reader is told where no packet is at its head.
    fn past_packets(&self, track: TrackNo) -> Reading
        requires selected { has self.now.set track ≡ true }
        ensures value { result ≡ past_packets (end_in track self.now.cache.current)
            self.now.failure (forward_of self.now) self.now.cache.limits.forward }
    {
        match self.end_of(track) {
            Some(ending) => Reading::End(ending),
            None => {
                let forward = self.cache.forward(&self.heads);
                waiting_for(self.failure, forward, self.cache.limits().forward)
            }
        }
    }

    // What a reader of the track is told.
    fn answer(&self, track: TrackNo) -> Result<Reading, NoMemory>
        ensures value { IfOk result (λ r. r ≡ reading_of track self.now) }
        ensures below { IfOk result IsBelow }
    {
        if !has(self.set, track) {
            return Ok(Reading::Unselected);
        }
        match self.next(track) {
            Some(packet) => Ok(Reading::Gave(packet.copy()?)),
            None => Ok(self.past_packets(track)),
        }
    }

    fn heads_after(&self, track: TrackNo, reading: &Reading) -> Heads
        requires { IsBelow reading.now }
        ensures { result ≡ heads_after track reading.now self.now }
    {
        match reading {
            Reading::Gave(packet) => with_head(self.set, track, past(packet.pos), self.heads),
            _ => self.heads,
        }
    }

    fn ended_after(&self, track: TrackNo, reading: &Reading) -> Choice
        ensures { result ≡ ended_after track reading.now self.now }
    {
        match reading {
            Reading::End(_) => with_track(self.set, track, self.ended),
            _ => self.ended,
        }
    }

    // Makes room in the journal for a record, for a drop of each packet and for two records more.
    pub(crate) fn make_room(&mut self) -> Result<(), NoMemory>
        ensures same { IsRoomy self.old self.new }
        ensures ok { OnOk result (count_of (ranges_of self.new.cache) + 3 ≤ self.new.spare) }
        ensures demux { IsDemux self.new }
    {
        let held = self.cache.held() as usize;
        self.journal.reserve(held + 64)
    }

    // Writes a record, moves the heads, and drops packets as the limit asks.
    fn give(&mut self, by: u32, own: DemuxRecord, heads: Heads, ended: Choice)
        requires room { count_of (ranges_of self.old.cache) + 3 ≤ self.old.spare }
        requires placed { IsPlaced
            self.old.set heads self.old.waiting self.old.seeking self.old.cache.current }
        requires ahead { ahead_in heads self.old.cache.current ≤ forward_of self.old }
        ensures value { Gives by own heads ended self.old self.new }
        ensures demux { IsDemux self.new }
    {
        self.journal.push_reserved(own);
        self.heads = heads;
        self.ended = ended;
        trim(by, &mut self.cache, &self.heads, &mut self.journal);
    }

    // Tells a reader what it is told, in the journal too.
    fn tell(
        &mut self,
        by: u32,
        track: TrackNo,
        reading: &Reading,
        own: DemuxRecord,
    ) -> Result<(), NoMemory>
        requires answer { reading.now ≡ reading_of track self.old }
        requires below { IsBelow reading.now }
        ensures ok { OnOk result (Gives by own
            (heads_after track reading.now self.old) (ended_after track reading.now self.old)
            self.old self.new) }
        ensures err { OnErr result (IsRoomy self.old self.new) }
        ensures demux { IsDemux self.new }
    {
        self.make_room()?;
        let heads = self.heads_after(track, reading);
        let ended = self.ended_after(track, reading);
        self.give(by, own, heads, ended);
        Ok(())
    }

    /// The next answer to the reader `by` of a track: its next packet, and the reader is behind it
    /// then; else the film's ending, where the track was read to it; else what failed, or memory that
    /// was wanting, until the next seek or selection; else that the cache is full; else `NotYet`. Each
    /// but `NotYet` and `Unselected` is recorded, and then packets behind the readers are dropped, as
    /// long as there are more octets of them than the limit. It is refused with `JournalFull` exactly
    /// where the journal has 16,000,000 records, and with `NoMemory`, and changes nothing then.
    pub fn read(&mut self, by: u32, track: TrackNo) -> Result<Reading, DemuxError>
        ensures value { Reads by track self.old result self.new }
        ensures grows { Grew by self.old.journal self.new.journal }
        ensures film { (film : Film) → StandsFor film self.old → StandsFor film self.new }
        ensures marks { AreAmong (marks_of self.old.cache) self.new.cache }
        ensures demux { IsDemux self.new }
    {
        if self.journal.len() >= FULL {
            return Err(DemuxError::JournalFull);
        }
        let reading = self.answer(track)?;
        match record_of(by, track, &reading) {
            Some(own) => {
                self.tell(by, track, &reading, own)?;
                Ok(reading)
            }
            None => Ok(reading),
        }
    }
}
