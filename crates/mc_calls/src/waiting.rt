//! What a demuxer keeps of the last seek, the last selection and the last job.
use mc_packet::{Dir, TrackNo};

/// Where a seek goes that was sent.
#[derive(Clone, Copy, Debug, PartialEq, Eq)]
pub struct Target {
    /// The time that was asked for, in nanoseconds.
    pub t: i64,
    /// Which keyframe was asked for: the last one at or before that time, or the first one at or
    /// after it.
    pub dir: Dir,
}

/// The last selection.
#[derive(Clone, Copy, Debug, PartialEq, Eq)]
pub struct Switch {
    /// The track that led then: the selected video track, else the selected audio track. An added
    /// subtitle starts at its keyframe.
    pub lead: Option<TrackNo>,
    /// The time from which the added tracks are wanted, in nanoseconds.
    pub at: i64,
}

/// Why nothing is read on: what the last job came to.
#[derive(Clone, Copy, Debug, PartialEq, Eq)]
pub enum Failure {
    /// A read of the file failed.
    Failed {
        /// The shelf's count of faults before the read.
        before: u64,
        /// Its count after the read.
        after: u64,
    },
    /// Memory was wanting.
    Starved,
}
