//! The fields of a list's facts, as bits of a mask.

/// The names of the list's films.
pub const NAMES: u32 = 1;
/// The place of the entry that is played next.
pub const POS: u32 = 2;
/// How often an entry was played.
pub const PLAYS: u32 = 4;
