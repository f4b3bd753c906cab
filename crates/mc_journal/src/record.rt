ghost use Rattle.std.specs.Prelude.{◌≡◌};
ghost use Rattle.mc_journal.specs.Told.{gave_by};

use mc_packet::{CacheView, Choice, Dir, Ending, Mark, Packet, Pos, Starts, TrackNo, Why, sum};
use sqlite_items::Items;

/// How a seek is answered.
#[derive(Clone, Copy, Debug, PartialEq, Eq)]
pub enum Sought {
    /// From the cache, at once.
    Cached,
    /// It is sent on: its starts have to be found in the file.
    Sent,
}

/// Why packets went from the cache.
#[derive(Clone, Copy, Debug, PartialEq, Eq)]
pub enum Cause {
    /// The cached octets that no reader still has to be given, `back`, were more than the limit
    /// on them, `max`.
    Limit {
        /// The octets that lay behind the readers, in all ranges.
        back: u64,
        /// The most that may lie there.
        max: u64,
    },
    /// This many ranges stood, which is one too many; the one that was used longest ago went.
    TooMany {
        /// How many ranges stood, the new one among them.
        count: u32,
    },
    /// Other tracks were selected.
    TrackChanged,
    /// Two ranges that meet differ at this place: the current one has a packet there at the time
    /// `ours`, the other one at the time `other`, in nanoseconds, or none.
    Mismatch {
        /// The first place at which the two differ.
        pos: Pos,
        /// The time there in the current range, in nanoseconds, where it has a packet.
        ours: Option<i64>,
        /// The time there in the other range, in nanoseconds, where it has a packet.
        other: Option<i64>,
    },
}

/// The packets of one track that went from a range: those from the first place up to, but
/// without, the second.
#[derive(Clone, Copy, Debug, PartialEq, Eq)]
pub struct Removal {
    /// The track whose packets went.
    pub track: TrackNo,
    /// The place of the first of them.
    pub from: Pos,
    /// The first place behind them.
    pub to: Pos,
    /// Why they went.
    pub cause: Cause,
}

/// One thing that happened in a demuxer. Each record bears the number of the caller at whose call
/// it happened ([`by`](DemuxRecord::by)): [`DRIVER`](crate::DRIVER), [`CORE`](crate::CORE), a
/// [`reader`](crate::reader) or [`DEMUXER`](crate::DEMUXER). Times are in nanoseconds.
#[derive(Debug, Drop)]
pub enum DemuxRecord {
    /// The film was opened with these tracks selected.
    Opened {
        /// The caller's number.
        by: u32,
        /// The tracks that are selected at first.
        set: Choice,
    },
    /// A seek of the selected tracks to the time `t`, and how it was answered.
    Sought {
        /// The caller's number.
        by: u32,
        /// The tracks that were selected.
        set: Choice,
        /// The time that was sought, in nanoseconds.
        t: i64,
        /// Which keyframe was asked for: the last one at or before that time, or the first one at
        /// or after it.
        dir: Dir,
        /// How it was answered.
        how: Sought,
    },
    /// These tracks were selected at the time `at`; those of `added` were not read so far, and
    /// wait for their start.
    Switched {
        /// The caller's number.
        by: u32,
        /// The tracks that are selected from now on.
        set: Choice,
        /// Those of them that were not read so far.
        added: Choice,
        /// From which time they are wanted, in nanoseconds.
        at: i64,
    },
    /// Where the tracks start that a seek was sent for, or that waited.
    Found {
        /// The caller's number.
        by: u32,
        /// Where each track starts, and the mark from which the film is read on.
        starts: Starts,
    },
    /// The film was read on from a mark to the next one: the track that took packets of it, and
    /// the film's ending where it was reached.
    Fed {
        /// The caller's number.
        by: u32,
        /// The mark from which it was read.
        from: Mark,
        /// The mark up to which it was read.
        to: Mark,
        /// The track that took packets, if one did.
        took: Option<TrackNo>,
        /// How the film ends, where its end was reached.
        ending: Option<Ending>,
    },
    /// A read of the file failed: the shelf's count of faults before and after.
    Failed {
        /// The caller's number.
        by: u32,
        /// The shelf's count of faults before the read.
        before: u64,
        /// Its count after the read.
        after: u64,
    },
    /// Memory was wanting to read on.
    Starved {
        /// The caller's number.
        by: u32,
    },
    /// Packets went from the cache.
    Dropped {
        /// The caller's number.
        by: u32,
        /// Which packets went, and why.
        drop: Removal,
    },
    /// The current range and another one that it touches became one.
    Joined {
        /// The caller's number.
        by: u32,
    },
    /// A reader was given a packet: its place, its time in nanoseconds, the length and the
    /// checksum of its payload, and its marks.
    Gave {
        /// The caller's number.
        by: u32,
        /// The packet's track.
        track: TrackNo,
        /// Its place in the film.
        pos: Pos,
        /// Its time in nanoseconds.
        time: i64,
        /// How many octets its payload has.
        len: u64,
        /// The checksum of its payload.
        sum: u32,
        /// Whether decoding can start there: it is frame 0 of a keyframe block.
        sync: bool,
        /// Whether its block is marked as a keyframe.
        key: bool,
    },
    /// A reader came to the end of its track, and was told how the film ends.
    Ended {
        /// The caller's number.
        by: u32,
        /// The reader's track.
        track: TrackNo,
        /// How the film ends.
        ending: Ending,
    },
    /// A reader was told that nothing more is read for now: the octets ahead of the readers are
    /// `forward`, and the limit on them is `max`.
    Overfull {
        /// The caller's number.
        by: u32,
        /// The reader's track.
        track: TrackNo,
        /// The octets ahead of the readers in the current range.
        forward: u64,
        /// The most that may lie there before reading pauses.
        max: u64,
    },
    /// A reader was told of a read that failed, with its counts.
    Faulted {
        /// The caller's number.
        by: u32,
        /// The reader's track.
        track: TrackNo,
        /// The shelf's count of faults before the read.
        before: u64,
        /// Its count after the read.
        after: u64,
    },
    /// A reader was told that memory was wanting.
    Wanting {
        /// The caller's number.
        by: u32,
        /// The reader's track.
        track: TrackNo,
    },
    /// The cache was looked at.
    Shown {
        /// The caller's number.
        by: u32,
        /// What was shown of it.
        view: CacheView,
    },
    /// A seek or a selection was refused, and changed nothing.
    Refused {
        /// The caller's number.
        by: u32,
        /// Why it was refused.
        why: Why,
    },
}

/// The records of a demuxer, the oldest first.
pub type DemuxJournal = Items<DemuxRecord>;

/// The record of a packet that was given to the reader `by`.
pub fn gave(by: u32, packet: &Packet) -> DemuxRecord
    ensures { result ≡ gave_by by packet.now }
{
    DemuxRecord::Gave {
        by,
        track: packet.track,
        pos: packet.pos,
        time: packet.time,
        len: packet.body.len() as u64,
        sum: sum(packet.body.as_slice()),
        sync: packet.sync,
        key: packet.key,
    }
}
