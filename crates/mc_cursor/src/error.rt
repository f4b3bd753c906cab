ghost use Rattle.std.specs.Prelude.{◌≡◌};
ghost use Rattle.mc_cursor.specs.declared.error.CursorError.TheVariants as failures;
ghost use Rattle.mc_cursor.specs.declared.error.OpenError.TheVariants as refusals;

use mc_outside::ReadFault;
use mc_tracks::{Refused, TracksError};
use std::alloc::{AllocError, AllocFailed};

/// Why a cursor gave nothing. It stands where it stood, so that the call can be made again.
#[derive(Clone, Copy, Debug, PartialEq, Eq)]
pub enum CursorError {
    /// A read failed: the shelf's count of faults rose, or stands at its last value.
    ReadFault,
    NoMemory,
}

/// Why a film was not opened.
#[derive(Clone, Copy, Debug, PartialEq, Eq)]
pub enum OpenError {
    /// What stands before the Clusters is refused.
    Refused(Refused),
    /// A read failed: the shelf's count of faults rose, or stands at its last value.
    ReadFault,
    NoMemory,
}

impl From<ReadFault> for CursorError {
    ghost from_gives = { λ _ e. e ≡ failures.ReadFault };

    fn from(_e: ReadFault) -> CursorError {
        CursorError::ReadFault
    }
}

impl From<AllocError> for CursorError {
    ghost from_gives = { λ _ e. e ≡ failures.NoMemory };

    fn from(_e: AllocError) -> CursorError {
        CursorError::NoMemory
    }
}

impl<T: Drop> From<AllocFailed<T>> for CursorError {
    ghost from_gives = { λ _ e. e ≡ failures.NoMemory };

    fn from(_e: AllocFailed<T>) -> CursorError {
        CursorError::NoMemory
    }
}

impl From<ReadFault> for OpenError {
    ghost from_gives = { λ _ e. e ≡ refusals.ReadFault };

    fn from(_e: ReadFault) -> OpenError {
        OpenError::ReadFault
    }
}

impl From<AllocError> for OpenError {
    ghost from_gives = { λ _ e. e ≡ refusals.NoMemory };

    fn from(_e: AllocError) -> OpenError {
        OpenError::NoMemory
    }
}

impl From<Refused> for OpenError {
    ghost from_gives = { λ r e. e ≡ refusals.Refused r };

    fn from(r: Refused) -> OpenError {
        OpenError::Refused(r)
    }
}

impl From<CursorError> for OpenError {
    ghost use Rattle.mc_cursor.specs.Begins.{open_error};

    ghost from_gives = { λ c e. e ≡ open_error c };

    fn from(e: CursorError) -> OpenError {
        match e {
            CursorError::ReadFault => OpenError::ReadFault,
            CursorError::NoMemory => OpenError::NoMemory,
        }
    }
}

impl From<TracksError> for OpenError {
    ghost use Rattle.mc_cursor.specs.Begins.{refusal};

    ghost from_gives = { λ t e. e ≡ refusal t };

    fn from(e: TracksError) -> OpenError {
        match e {
            TracksError::Refused(r) => OpenError::Refused(r),
            TracksError::NoMemory => OpenError::NoMemory,
        }
    }
}
