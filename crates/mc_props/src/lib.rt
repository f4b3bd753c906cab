//! The properties of a player: what a front end reads, sets and observes under names like `pause`,
//! `track-list` and `demuxer-cache-state`. A table takes entries and one reader of their places,
//! and its type keeps that the reader answers a stated function, the same wherever the fields of
//! the entry's mask are the same. It gives each property's value in a format, what setting it
//! writes, and what an observer has, as `specs/` says; `standard` reads the properties of mpv's
//! that a player of films has.
#![tactic(auto)]

mod cache_value;
mod entries;
mod facts;
pub mod fields;
pub mod meanings;
mod names;
mod properties;
mod reading;
mod reads;
mod refusal;
mod settings;
mod table;
mod track_values;
mod values;

pub use entries::{PropEntries, PropEntry};
pub use facts::Facts;
pub use mc_value::NoMemory;
pub use meanings::Meaning;
pub use properties::{Property, standard_entries};
pub use reading::Reading;
pub use reads::Reads;
pub use refusal::PropError;
pub use settings::Write;
pub use table::PropTable;
pub use values::standard;
