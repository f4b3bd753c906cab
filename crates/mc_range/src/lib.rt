//! A range of the cache: what was read of the selected tracks of a film without a gap. It has a
//! queue of packets for each of them, the mark from which it is read on, and the film's ending where
//! it was reached. It is fed parts of the film, joined with another range that it touches, and says
//! which seeks it serves and from where. Contracts see it as its set, its queues, its mark and its
//! ending (`specs/Range`).
#![tactic(auto)]

mod bounding;
mod cutting;
mod growing;
mod joining;
mod law;
mod place;
mod queues;
mod range;
mod serving;
mod tracks;

pub use cutting::Cut;
pub use law::{
    added_ranges, begun_ranges, cut_ranges, fed_ranges, joined_ranges, retracked_ranges,
    served_films, shown_ranges, touching_spans,
};
pub use mc_packet::NoMemory;
pub use mc_queue::UnionError;
pub use range::Range;
pub use tracks::spans_touch;
