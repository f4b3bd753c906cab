//! The plain whole-film reader: it takes a film's octets and gives its scale, its tracks, its
//! packets in file order and how it ends, or why it is refused. It equals `specs/Film`, which is
//! the walk of `mc_walk` over the whole of the octets; its packets are the frames of the film's
//! block elements, each once and in order, and its parts from mark to mark, joined, are the film.
//! `chunk_at` reads one part from its mark on, and equals `specs/Chunks`.
//!
//! It is the second program for that definition, written apart from the reader on demand
//! (`mc_cursor`), which the player runs on. The tests read each film by both and compare, and the
//! laws of a whole film stand here. No program of the player needs it.
#![tactic(auto)]

mod chunk;
mod law;
mod opening;
mod step;
mod whole;

pub use chunk::{chunk_at, chunk_of_octets};
pub use law::film_packets;
pub use whole::{FilmError, WholeFilm, film, film_of_octets};
