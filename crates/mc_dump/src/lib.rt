//! Saves a part of a film, or of what is cached of it, as a Matroska film of its own (RFC 9559), after
//! mpv's `dump-cache`. `choose` takes packets and gives those of a span of time, from a keyframe on;
//! `write_film` takes tracks and packets and writes their film into any `Sink`, a block at a time,
//! with each payload written from where it lies.
//!
//! What is written is read back: by the house's own definition of reading (`mc_film`) the film has the
//! same tracks, and as many packets in the same order, each with the same track, time, key mark and
//! payload. `specs/Chosen` says which packets are chosen, `specs/Clustered` how they are cut into
//! Clusters, and `specs/Dumped` what is written and that it is read back so.
//!
//! Of a track all is written that `mc_tracks` reads. A film's CodecPrivate and its settings of
//! pictures and sound are not, so that a decoder that needs them has to have them from elsewhere.
//!
//! The packets of a film from 0.13 to 0.25 seconds, in nanoseconds, with track 1 as the lead, are
//! written into a sink in memory by
//!
//! ```
//! let whole = film(alloc, octets)?;
//! let (from, to) = (Some(130_000_000), Some(250_000_000));
//! let packets = choose(alloc, whole.packets.as_slice(), Some(1), from, to)?;
//! let mut sink = CleanSink::new(alloc);
//! if is_dumpable(&whole.tracks, packets.as_slice()) {
//!     write_film(alloc, &mut sink, whole.scale, &whole.tracks, packets.as_slice())?;
//! }
//! ```
//!
//! `dump_rows` makes these calls: its first rows write nine packets of a film of 228 octets as one of
//! 168 octets, and read it back.
#![tactic(auto)]

mod choosing;
mod cluster;
mod dumpable;
mod error;
mod film;
mod law;
mod scale;

pub use choosing::choose;
pub use dumpable::is_dumpable;
pub use error::DumpError;
pub use film::write_film;
pub use law::dumped_films;
