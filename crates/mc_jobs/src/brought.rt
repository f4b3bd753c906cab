use mc_packet::{Chunk, Starts};

/// What the job of a demuxer came to.
#[derive(Debug, Drop)]
pub enum Brought {
    /// The part of the film from the mark at which the demuxer reads on.
    Chunk(Chunk),
    /// Where the tracks start that the job was to find.
    Starts(Starts),
    /// Nothing: a read of the file failed.
    Failed {
        /// The shelf's count of faults before the read.
        before: u64,
        /// Its count after the read.
        after: u64,
    },
    /// Nothing, for want of memory.
    Starved,
}
