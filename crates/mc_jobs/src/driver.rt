use mc_cursor::Cursor;
use mc_demux::Demux;
use mc_index::Index;

/// A demuxer, and what does its jobs over one file: a cursor, which reads the file's parts, and an
/// index, which finds where tracks start.
#[derive(Drop)]
pub struct Driver {
    /// What is cached and read, and what is to be done next.
    pub demux: Demux,
    /// Reads the parts of the film from a mark on.
    pub cursor: Cursor,
    /// Finds where tracks start.
    pub index: Index,
}
