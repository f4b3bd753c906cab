ghost use Rattle.std.specs.Prelude.{◌≡◌, ◌↔◌, IsTrue, is_some};
ghost use Rattle.mc_packet.specs.Choices.{has, nothing, lead_of, is_empty, is_other, is_distinct, is_track, track_of, start_of, AtMark, AreAtMark};

use crate::walk::Mark;

/// A TrackNumber (RFC 9559, section 5.1.4.1.1).
pub type TrackNo = u64;

/// What a track carries: its TrackType (RFC 9559, section 5.1.4.1.3).
#[derive(Clone, Copy, Debug, PartialEq, Eq)]
pub enum Kind {
    /// TrackType 1.
    Video,
    /// TrackType 2.
    Audio,
    /// TrackType 17, a subtitle.
    Sub,
}

/// At most one selected track of each kind.
#[derive(Clone, Copy, Debug, PartialEq, Eq)]
pub struct Choice {
    /// The selected video track, if any.
    pub video: Option<TrackNo>,
    /// The selected audio track, if any.
    pub audio: Option<TrackNo>,
    /// The selected subtitle track, if any.
    pub sub: Option<TrackNo>,
}

impl Choice {
    /// The choice of no track.
    pub const NONE: Choice = Choice {
        video: None,
        audio: None,
        sub: None,
    };

    /// Whether no track is selected.
    pub fn is_empty(&self) -> bool
        ensures { result ≡ is_empty self.now }
    {
        self.sub.is_none() && self.lead().is_none()
    }

    /// Whether this track is selected.
    pub fn has(&self, track: TrackNo) -> bool
        ensures { result ≡ has self.now track }
    {
        is_track(self.video, track) || is_track(self.audio, track) || is_track(self.sub, track)
    }

    /// The selected track of a kind, if any.
    pub fn of(&self, kind: Kind) -> Option<TrackNo>
        ensures { result ≡ track_of self.now kind }
    {
        match kind {
            Kind::Video => self.video,
            Kind::Audio => self.audio,
            Kind::Sub => self.sub,
        }
    }

    /// The track that sets the pace: the selected video track, else the selected audio track.
    pub fn lead(&self) -> Option<TrackNo>
        ensures { result ≡ lead_of self.now }
    {
        self.video.or(self.audio)
    }

    /// Whether no track is selected under two kinds.
    pub fn is_distinct(&self) -> bool
        ensures { result ≡ is_distinct self.now }
    {
        is_other(self.video, self.audio)
            && is_other(self.video, self.sub)
            && is_other(self.audio, self.sub)
    }
}

fn is_track(selected: Option<TrackNo>, track: TrackNo) -> bool
    ensures { result ≡ is_track selected track }
{
    match selected {
        Some(number) => number == track,
        None => false,
    }
}

fn is_other(selected: Option<TrackNo>, other: Option<TrackNo>) -> bool
    ensures { result ≡ is_other selected other }
{
    match (selected, other) {
        (Some(a), Some(b)) => a != b,
        _ => true,
    }
}

/// Where a reading starts after a seek: an offset for each track, in octets from the file's start,
/// and a mark at or before each of them.
#[derive(Clone, Copy, Debug, PartialEq, Eq)]
pub struct Starts {
    /// The offset of the first block that the video track wants, if it is selected.
    pub video: Option<u64>,
    /// The same of the audio track.
    pub audio: Option<u64>,
    /// The same of the subtitle track.
    pub sub: Option<u64>,
    /// Where the reading itself starts.
    pub mark: Mark,
}

impl Starts {
    /// The start of a kind's track, if it has one.
    pub fn of(&self, kind: Kind) -> Option<u64>
        ensures { result ≡ start_of self.now kind }
    {
        match kind {
            Kind::Video => self.video,
            Kind::Audio => self.audio,
            Kind::Sub => self.sub,
        }
    }

    /// Whether the mark is at or before each start, as it has to be where a range is begun.
    pub fn are_at_mark(&self) -> bool
        ensures { IsTrue result ↔ AreAtMark self.now }
    {
        let mark = self.mark.pos;
        is_at_mark(mark, self.video) && is_at_mark(mark, self.audio) && is_at_mark(mark, self.sub)
    }
}

fn is_at_mark(mark: u64, start: Option<u64>) -> bool
    ensures { IsTrue result ↔ AtMark mark start }
{
    match start {
        Some(at) => mark <= at,
        None => true,
    }
}

/// Which keyframe a seek asks for, as mpv's `seek` with `keyframes` does in either direction.
#[derive(Clone, Copy, Debug, PartialEq, Eq)]
pub enum Dir {
    /// The last one at or before its target.
    Back,
    /// The first one at or after its target.
    Forward,
}

/// Why a seek or a selection is refused.
#[derive(Clone, Copy, Debug, PartialEq, Eq)]
pub enum Why {
    /// Nothing is selected.
    NoTrack,
    /// The film lists no such track.
    UnknownTrack(TrackNo),
    /// The track's blocks are encoded.
    Unsupported(TrackNo),
    /// A second track of one kind.
    TwoOfKind(TrackNo),
}
