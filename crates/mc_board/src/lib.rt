//! A board with the last status of a demuxer, on which others look without entering its lock.
//! It takes the statuses of one poster, and gives each who looks the first status or a posted
//! one, never an older one than it saw: `NotNewer` of `specs/Statuses.antt`. A pass that is joined
//! to the poster has seen nothing newer than the last status posted.
#![tactic(auto)]

mod board;
mod law;

pub use board::{Board, BoardPass, Poster};
pub use mc_packet::NoMemory;
