ghost use Rattle.std.specs.Prelude.{◌≡◌};
ghost use Rattle.mc_tracks.specs.declared.refused.TracksError.TheVariants as failures;

use std::alloc::{AllocError, AllocFailed};

/// Why a film is not read. Offsets are in octets from the file's start.
#[derive(Clone, Copy, Debug, PartialEq, Eq)]
pub enum Refused {
    /// The file does not begin with an EBML header that stands whole, or a child of it does not, or
    /// an unsigned integer in it has more than 8 octets.
    NotEbml,
    /// The header asks for a later version of EBML or of Matroska, or for longer IDs or sizes.
    Version,
    /// The document is neither `matroska` nor `webm`.
    DocType,
    /// No Segment stands behind the header.
    NoSegment,
    /// No Info stands before the first Cluster.
    NoInfo,
    /// No Tracks stands before the first Cluster.
    NoTracks,
    /// The element at this offset has a bad head, has no size, runs past the end of its parent, is
    /// an unsigned integer of more than 8 octets, or is an Info or a Tracks of more than 16,777,216
    /// octets.
    Broken(u64),
    /// A TrackEntry whose TrackNumber is missing or 0.
    NoNumber,
    /// Two listed tracks of the same number.
    TwiceNumber,
    /// A TimestampScale of 0.
    ScaleZero,
    /// More than 64 listed tracks.
    TooMany,
}

/// Why tracks are not given.
#[derive(Clone, Copy, Debug, PartialEq, Eq)]
pub enum TracksError {
    /// The film is refused.
    Refused(Refused),
    /// Memory was wanting.
    NoMemory,
}

impl From<Refused> for TracksError {
    ghost from_gives = { λ r e. e ≡ failures.Refused r };

    fn from(r: Refused) -> TracksError {
        TracksError::Refused(r)
    }
}

impl From<AllocError> for TracksError {
    ghost from_gives = { λ _ e. e ≡ failures.NoMemory };

    fn from(_e: AllocError) -> TracksError {
        TracksError::NoMemory
    }
}

impl<T: Drop> From<AllocFailed<T>> for TracksError {
    ghost from_gives = { λ _ e. e ≡ failures.NoMemory };

    fn from(_e: AllocFailed<T>) -> TracksError {
        TracksError::NoMemory
    }
}
