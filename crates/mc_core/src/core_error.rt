use std::alloc::AllocError;

/// Why a call of a core was refused. The core is then as it was.
#[derive(Clone, Copy, Debug, PartialEq, Eq)]
pub enum CoreError {
    /// No living client has the number.
    UnknownClient,
    /// A living client has the name.
    NameTaken,
    /// There are 64 clients.
    TooMany,
    /// A ring has room for 1 to 100,000 events.
    BadSize,
    /// The journal had 16,000,000 records when the call began.
    JournalFull,
    /// There was no memory for what the call keeps or answers.
    NoMemory,
}

impl From<AllocError> for CoreError {
    ghost use Rattle.std.specs.Prelude.{◌≡◌};
    ghost use Rattle.mc_core.specs.declared.core_error.CoreError.TheVariants.{NoMemory};

    ghost from_gives = { λ _ e. e ≡ NoMemory };

    fn from(_error: AllocError) -> CoreError {
        CoreError::NoMemory
    }
}
