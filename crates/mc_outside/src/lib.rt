//! The outside of the player: files that are read through `Shelf` and a text that is written
//! through `Sink`. Each counts its faults, and a fault is answered only where that count rose or
//! stands at its last value. `read_full` and `write_full` go on after short reads and writes.
//!
//! Shelves and sinks in memory tell what they hold, so that contracts can speak of it.
//! `FileShelf` and `StdSink` are the trusted edge over the system, and tell nothing.
#![tactic(auto)]

mod edge;
mod law;
mod listed;
mod memory;
mod named;
mod shelf;
mod sink;
mod slice;
mod spots;
mod texts;
mod window;

pub use edge::{FileShelf, StdSink};
pub use law::{grows_more, told_content};
pub use memory::{CleanShelf, MemShelf};
pub use named::{NamedFile, NamedFiles, NoMemory};
pub use shelf::{Failed, FileNo, ReadFault, Shelf, ShelfError, read_full};
pub use sink::{Sink, SinkError, write_full};
pub use slice::SliceShelf;
pub use spots::Spots;
pub use texts::{CleanSink, MemSink, Numbers};
