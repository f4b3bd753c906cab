//! The text of a written Matroska film (RFC 9559), and that it is read back as that film. `specs/Films`
//! says which octets a film of some tracks and Clusters is, each element in its shortest form;
//! `written_films` is the law that the house's own definition of reading (`mc_film`) gives back the
//! scale, the tracks, and the packets of the Clusters in order. Whoever writes such a text piece by
//! piece, as `mc_dump` and `mc_gen` do, stands on it.
//!
//! The calls append parts of the text to a `Vec`: what stands before the first Cluster, the head of a
//! Cluster, and a block up to its payload. A film of one packet is made by
//!
//! ```
//! let mut out = Vec::new(alloc);
//! write_front(alloc, &mut out, 1_000_000, tracks)?;
//! write_cluster_head(&mut out, 0, 9)?;
//! write_block_head(&mut out, 1, 0, true, b"abc")?;
//! out.extend_from_slice(b"abc")?;
//! ```
//!
//! where the block takes 9 octets: two of its head, four before its payload, and the payload.
#![tactic(auto)]

mod cluster;
mod front;
mod law;

pub use cluster::{write_block_head, write_cluster_head};
pub use front::{write_front, write_front_with};
pub use law::written_films;
