ghost use Rattle.std.specs.Prelude.{◌≡◌, IfOk};
ghost use Rattle.mc_packet.specs.Choices.{head_of, span_of};

use crate::choice::Kind;
use crate::packet::{NoMemory, Pos};
use crate::walk::Ending;
use sqlite_items::Items;
use std::alloc::Global;

/// The place of each selected track's reader: it is given the first packet at or after it.
#[derive(Clone, Copy, Debug, PartialEq, Eq)]
pub struct Heads {
    /// The place of the video track's reader, if the track is selected and has one.
    pub video: Option<Pos>,
    /// The same of the audio track.
    pub audio: Option<Pos>,
    /// The same of the subtitle track.
    pub sub: Option<Pos>,
}

impl Heads {
    /// The place of a kind's reader, if it has one.
    pub fn of(&self, kind: Kind) -> Option<Pos>
        ensures { result ≡ head_of self.now kind }
    {
        match kind {
            Kind::Video => self.video,
            Kind::Audio => self.audio,
            Kind::Sub => self.sub,
        }
    }
}

/// What a range holds of each track: the packets from the first place up to, but without, the
/// second.
#[derive(Clone, Copy, Debug, PartialEq, Eq)]
pub struct Spans {
    /// The span of the video track, if the range holds one.
    pub video: Option<(Pos, Pos)>,
    /// The same of the audio track.
    pub audio: Option<(Pos, Pos)>,
    /// The same of the subtitle track.
    pub sub: Option<(Pos, Pos)>,
}

impl Spans {
    /// What the range holds of a kind's track, if it has a span.
    pub fn of(&self, kind: Kind) -> Option<(Pos, Pos)>
        ensures { result ≡ span_of self.now kind }
    {
        match kind {
            Kind::Video => self.video,
            Kind::Audio => self.audio,
            Kind::Sub => self.sub,
        }
    }
}

/// One cached range.
#[derive(Clone, Copy, Debug, PartialEq, Eq)]
pub struct RangeView {
    /// The times in nanoseconds between which a seek is served without reading, if there are any.
    pub bounds: Option<(i64, i64)>,
    /// What it holds of each track.
    pub spans: Spans,
}

/// Ranges in order of last use, the current one first.
pub type RangeViews = Items<RangeView>;

/// What a cache tells of itself, as mpv's `demuxer-cache-state` does.
#[derive(Debug, Drop)]
pub struct CacheView {
    /// The cached ranges, in order of last use.
    pub ranges: RangeViews,
    /// Octets ahead of the readers in the current range.
    pub forward: u64,
    /// All other cached octets.
    pub back: u64,
    /// The current range begins where the film does.
    pub bof: bool,
    /// How the film ends, where the current range reaches so far.
    pub ending: Option<Ending>,
    /// The reader's time in nanoseconds.
    pub time: Option<i64>,
    /// The lead was given a packet, or its end, since the last seek.
    pub playing: bool,
    /// Each selected track was read to its end.
    pub ended: bool,
}

impl CacheView {
    /// An equal view.
    pub fn copy(&self, alloc: Global) -> Result<CacheView, NoMemory>
        ensures { IfOk result (λ v. v ≡ self.now) }
    {
        Ok(CacheView {
            ranges: RangeViews::from_slice(alloc, self.ranges.as_slice())?,
            forward: self.forward,
            back: self.back,
            bof: self.bof,
            ending: self.ending,
            time: self.time,
            playing: self.playing,
            ended: self.ended,
        })
    }
}

/// How much a cache keeps, as mpv's `demuxer-max-bytes`, `demuxer-max-back-bytes` and
/// `demuxer-readahead-secs` do.
#[derive(Clone, Copy, Debug, PartialEq, Eq)]
pub struct Limits {
    /// Octets ahead of the readers.
    pub forward: u64,
    /// Octets behind them.
    pub back: u64,
    /// How many nanoseconds are read ahead.
    pub readahead: i64,
}

/// A short account of a demuxer.
#[derive(Clone, Copy, Debug, PartialEq, Eq)]
pub struct Status {
    /// The number of records in its journal.
    pub seq: u64,
    /// Octets ahead of the readers in the current range.
    pub forward: u64,
    /// All other cached octets.
    pub back: u64,
    /// Bit 0 is set where the current range has its ending, bits 1 to 7 are 0, and from bit 8 on
    /// stands the number of ranges.
    pub flags: u64,
}
