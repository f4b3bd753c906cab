ghost use Rattle.std.specs.Prelude.{◌≡◌};
ghost use Rattle.mc_props.specs.Refusals.{error_number};

use mc_value::ValueError;
use std::alloc::AllocError;

/// Why a property is not given or not set.
#[derive(Clone, Copy, Debug, PartialEq, Eq)]
pub enum PropError {
    /// No entry has the name.
    NotFound,
    /// The property may not be set.
    ReadOnly,
    /// The property has no value now, or the path leads nowhere in it.
    Unavailable,
    /// The value has no form in the format that is asked for or wanted.
    PropertyFormat,
    /// No track of the kind has that number.
    NoSuchTrack,
    /// The track is encoded, so that it cannot be read.
    Unsupported,
    /// There was no memory for the answer.
    NoMemory,
}

impl PropError {
    /// The error's number in libmpv's `client.h`, with which a request for the property is
    /// answered: `PROPERTY_ERROR` (-11) for one that may not be set, and where no track has the
    /// number.
    pub fn number(self) -> i32
        ensures { result ≡ error_number self }
    {
        match self {
            PropError::NotFound => -8,
            PropError::PropertyFormat => -9,
            PropError::Unavailable => -10,
            PropError::ReadOnly | PropError::NoSuchTrack => -11,
            PropError::Unsupported => -18,
            PropError::NoMemory => -2,
        }
    }
}

impl From<AllocError> for PropError {
    ghost use Rattle.std.specs.Prelude.{◌≡◌};
    ghost use Rattle.mc_props.specs.declared.refusal.PropError.TheVariants.{NoMemory};

    ghost from_gives = { λ _ e. e ≡ NoMemory };

    fn from(_error: AllocError) -> PropError {
        PropError::NoMemory
    }
}

impl From<ValueError> for PropError {
    ghost use Rattle.std.specs.Prelude.{◌≡◌};
    ghost use Rattle.mc_props.specs.Refusals.{refused_as};

    ghost from_gives = { λ v e. e ≡ refused_as v };

    fn from(error: ValueError) -> PropError {
        match error {
            ValueError::NoMemory => PropError::NoMemory,
            ValueError::PropertyFormat | ValueError::BadSeconds => PropError::PropertyFormat,
        }
    }
}
