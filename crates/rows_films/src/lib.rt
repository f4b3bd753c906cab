//! Films in memory for rows (the form of a row is told on the first page of `rows`): a row names a
//! film by its octets in hex, or as the front of another one with some octets changed, and later rows
//! read it by that name.
#![tactic(auto)]

mod films;
mod shelves;

pub use films::{Films, call_change, call_film};
pub use shelves::shelf_of;
