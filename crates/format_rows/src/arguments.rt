use rows::{Json, RowError, number_in};
use std::alloc::AllocError;
use std::fmt::Write;

/// A number that is not negative.
pub fn natural_in(argument: &Json<'_>) -> Result<u64, RowError> {
    Ok(u64::try_from(number_in(argument)?)?)
}

/// An offset in memory.
pub fn offset_in(argument: &Json<'_>) -> Result<usize, RowError> {
    Ok(usize::try_from(number_in(argument)?)?)
}

/// A number where it is not 0.
pub fn some_in(argument: &Json<'_>) -> Result<Option<u64>, RowError> {
    match natural_in(argument)? {
        0 => Ok(None),
        number => Ok(Some(number)),
    }
}

/// Appends octets as hex digits.
pub fn push_octets(out: &mut String, octets: &[u8]) -> Result<(), AllocError> {
    for octet in octets {
        write!(out, "{octet:02x}")?;
    }
    Ok(())
}

/// Appends a number, or `none`.
pub fn push_some(out: &mut String, number: Option<u64>) -> Result<(), AllocError> {
    match number {
        Some(number) => write!(out, "{number}"),
        None => out.push_str("none"),
    }
}
