//! A queue of one track's packets: all that were read of the track from one place of the film up
//! to another, in file order. It takes packets behind the others, drops them from the front, is
//! united with another queue that it meets, and answers where its sync points stand. Contracts see
//! it as its track, its interval, its list of packets and its spare room (`specs/Queue`).
#![tactic(auto)]

mod block;
mod blocks;
mod differences;
mod following;
mod kept;
mod looking;
mod lookups;
mod merging;
mod parts;
mod place;
mod queue;
mod steps;
mod times;
mod wants;

pub use block::Block;
pub use differences::Difference;
pub use kept::Summary;
pub use mc_packet::NoMemory;
pub use place::{earlier, is_before, is_upto, later, rank_of};
pub use queue::{Queue, UnionError};
pub use steps::Steps;
