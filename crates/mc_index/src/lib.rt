//! Where a seek and a switch start to read a film, without a pass over all of it. It takes a cursor
//! and a shelf, reads heads alone, and keeps one entry for each 64th block element that it has read:
//! the mark at which that begins, and the last sync point of each video and audio track before it. A
//! look-up goes to the nearest entry, reads on from there, and no further than to a sync point
//! behind its time.
//!
//! `Index::find` answers on a regular film what `start_of` of `mc_journal/specs/Films` says over the
//! film's whole list, and `Index::find_switch` what `switch_start` says; `specs/Scans` says for which
//! films an index stands.
//!
//! A *sync point* is the first frame of a block that is marked as a keyframe. The block of a head is
//! told by its first frame, so that its `key` says whether that is one.
#![tactic(auto)]

mod entry;
mod find;
mod index;
mod law;
mod scan;
mod search;
mod starts;

pub use index::Index;
pub use law::block_marks;
pub use mc_packet::NoMemory;
