use mc_ring::Event;
use std::alloc::{AllocError, AllocFailed};

/// Why a client's call was refused.
#[derive(Clone, Copy, Debug, PartialEq, Eq)]
pub enum ClientError {
    /// There are 1,000 observers already, or no event of the number can be switched off and on.
    InvalidParameter,
    /// There was no memory for the observer, or for the number that is switched off.
    NoMemory,
}

impl From<AllocError> for ClientError {
    ghost use Rattle.std.specs.Prelude.{◌≡◌};
    ghost use Rattle.mc_client.specs.declared.refusal.ClientError.TheVariants.{NoMemory};

    ghost from_gives = { λ _ e. e ≡ NoMemory };

    fn from(_error: AllocError) -> ClientError {
        ClientError::NoMemory
    }
}

impl<T: Drop> From<AllocFailed<T>> for ClientError {
    ghost use Rattle.std.specs.Prelude.{◌≡◌};
    ghost use Rattle.mc_client.specs.declared.refusal.ClientError.TheVariants.{NoMemory};

    ghost from_gives = { λ _ e. e ≡ NoMemory };

    fn from(_failed: AllocFailed<T>) -> ClientError {
        ClientError::NoMemory
    }
}

/// What became of an event.
#[derive(Debug, Drop)]
pub enum Pushed {
    /// It stands in the ring.
    Kept,
    /// There was no place for it, and it is handed back.
    Dropped(Event),
    /// The client switched it off, and it is handed back.
    Off(Event),
}
