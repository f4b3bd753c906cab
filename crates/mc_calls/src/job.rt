//! What a demuxer asks of whoever reads the film.
use mc_packet::{Choice, Dir, Mark, TrackNo};

/// What is to be done next for a demuxer. Each but `Idle` bears the demuxer's number, under which
/// its outcome is brought.
#[derive(Clone, Copy, Debug, PartialEq, Eq)]
pub enum Job {
    /// Find where the tracks of a seek that was sent start.
    SeekTo {
        /// The job's number.
        no: u64,
        /// The tracks that are looked for.
        set: Choice,
        /// The time of the seek, in nanoseconds.
        t: i64,
        /// Which keyframe is asked for: the last one at or before that time, or the first one at or
        /// after it.
        dir: Dir,
    },
    /// Find where tracks start that were selected while the film was read.
    Refresh {
        /// The job's number.
        no: u64,
        /// The tracks that are looked for.
        added: Choice,
        /// The track that leads, at whose keyframe a subtitle starts.
        lead: Option<TrackNo>,
        /// The time from which they are wanted, in nanoseconds.
        at: i64,
    },
    /// Go to a mark and read the part of the film there.
    Resume {
        /// The job's number.
        no: u64,
        /// From where the current range is read on.
        mark: Mark,
    },
    /// Read the part behind the last one.
    Read {
        /// The job's number.
        no: u64,
    },
    /// Nothing.
    Idle,
}
