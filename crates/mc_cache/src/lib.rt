//! The cache of a demuxer: the range that is read, other ranges in order of last use, and what
//! becomes of them when a seek is answered, a part of the film is fed, ranges are joined, tracks
//! are selected, or packets are dropped. Contracts see it as its ranges and its room
//! (`specs/Cache`); each call leaves the ranges of the rule (`specs/Changing`, `specs/Joining`), and
//! over a film's list that is the rule of `mc_journal` (`law`).
#![tactic(auto)]

mod cache;
mod joining;
mod law;
mod listing;
mod parts;
mod prepared;
mod removals;
mod rooms;
mod views;

pub use cache::{Cache, Joins};
pub use law::{
    added_films, chosen_films, fed_films, joined_films, joined_up_films, left_films, pruned_films,
    roomy_films, sought_films, started_films, switched_films, tidy_films, told_films, viewed_films,
};
pub use mc_journal::{Cause, Removal};
pub use mc_packet::NoMemory;
pub use removals::Drops;
