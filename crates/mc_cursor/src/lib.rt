//! Reads a Matroska film (RFC 9559) on demand. It takes a shelf and an opened file, and gives the
//! film's tracks and then its parts, one block element at a time, from any mark.
//!
//! `Cursor::begin` answers what `opened_film` of `mc_walk/specs/Opening` says of the file's octets,
//! and `next_chunk` gives the part that `chunk_at` of `mc_walk/specs/Parts` says stands at its mark;
//! `specs/Standing` says for which films a cursor stands. It reads an element's head with 12 octets,
//! a body with its own span, and of what it passes over the last octet. A body of more than 4,096
//! octets is looked at in its last octet first, so that none takes more memory than the file fills.
//! It passes over a block of a track that is not listed, or encoded, behind the block's first octets.
#![tactic(auto)]

mod block;
mod cursor;
mod error;
mod group;
mod head;
mod lace;
mod next;
mod opening;
mod reading;
mod span;
mod step;

pub use cursor::Cursor;
pub use error::{CursorError, OpenError};
pub use head::HeadChunk;
pub use mc_walk::BlockMark;
