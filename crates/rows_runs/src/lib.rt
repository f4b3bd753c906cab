//! Runs of the player in memory for rows (the form of a row is told on the first page of `rows`): what a
//! row's words write over a film and a script, and how they end. The arguments are the words, the name
//! of a film and, where one is read, a script: a text, or an array of its octets in hex.
#![tactic(auto)]

mod runs;
mod texts;

pub use runs::{Line, Outcome, Trouble, run_over, words_of};
pub use texts::{before_end, begins_with, from_seek, lines_of};
