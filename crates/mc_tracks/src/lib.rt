//! Reads what stands before the packets of a Matroska film (RFC 9559): the EBML header, Info and
//! Tracks. It takes the octets of each and gives the scale and the list of tracks that
//! `specs/Header` says they stand for, or the one refusal.
#![tactic(auto)]

mod children;
mod choice;
mod entry;
mod fields;
mod header;
mod info;
mod law;
mod list;
mod refused;
mod selection;
mod track;
mod tracks;

pub use children::Master;
pub use choice::default_choice;
pub use header::parse_ebml_header;
pub use info::parse_info;
pub use law::{fitting_numbers, listed_tracks, new_numbers, selected_numbers};
pub use list::TrackList;
pub use refused::{Refused, TracksError};
pub use track::Track;
pub use tracks::parse_tracks;
