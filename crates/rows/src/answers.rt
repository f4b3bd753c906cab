use std::alloc::{AllocError, AllocFailed};
use std::num::TryFromIntError;

/// Why a row has no answer.
#[derive(Clone, Copy, Debug, PartialEq, Eq)]
pub enum RowError {
    /// The row is no call with its arguments.
    BadRow,
    /// There was no memory for the call or its answer.
    NoMemory,
}

impl RowError {
    /// What the row is answered.
    pub fn text(self) -> &'static str {
        match self {
            RowError::BadRow => "bad row",
            RowError::NoMemory => "no memory",
        }
    }
}

impl From<AllocError> for RowError {
    fn from(_error: AllocError) -> RowError {
        RowError::NoMemory
    }
}

impl<T: Drop> From<AllocFailed<T>> for RowError {
    fn from(_error: AllocFailed<T>) -> RowError {
        RowError::NoMemory
    }
}

impl From<TryFromIntError> for RowError {
    fn from(_error: TryFromIntError) -> RowError {
        RowError::BadRow
    }
}

/// Appends `true` or `false`.
pub fn push_flag(out: &mut String, flag: bool) -> Result<(), AllocError> {
    out.push_str(if flag { "true" } else { "false" })
}
