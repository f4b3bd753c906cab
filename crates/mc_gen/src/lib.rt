//! Generated films: Matroska films of known content and any length, for whoever measures or tests a
//! player. `specs/Generated` says what such a film of so many pictures is: its packets, its Clusters and
//! its octets; `generated_films` is the law that the house's own definition of reading (`mc_film`)
//! finds just these packets in it. `write_generated` writes it, piece by piece. `specs/Summary`
//! says what a right reader counts in it, and `summary_line` is the line that says so. The film of one
//! picture has 119 octets.
#![tactic(auto)]

mod clusters;
mod film;
mod front;
mod law;
mod pictures;
mod summary;

pub use film::write_generated;
pub use law::generated_films;
pub use summary::{Sums, summary_line};
