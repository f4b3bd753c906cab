//! The words of a demuxer: packets and their places, endings and marks of a film, and the
//! views and limits of a cache. It takes nothing and reads nothing; every other crate speaks
//! in these types.
#![tactic(auto)]

mod cache;
mod checksum;
mod choice;
mod limits;
mod packet;
mod shape;
mod walk;

pub use cache::{CacheView, Heads, Limits, RangeView, RangeViews, Spans, Status};
pub use checksum::sum;
pub use choice::{Choice, Dir, Kind, Starts, TrackNo, Why};
pub use limits::{FILM_LIMIT, LARGEST_BLOCK, LARGEST_HEADER};
pub use packet::{NoMemory, Packet, Packets, Pos, weight};
pub use walk::{Chunk, Ending, Fault, Level, Mark};
