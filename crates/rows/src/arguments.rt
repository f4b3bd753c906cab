ghost use Rattle.std.specs.Prelude.{◌<◌, IfOk};

use crate::answers::RowError;
use json::Value as Json;
use std::alloc::Global;

/// What a table of names has for a name.
pub fn named<W: Copy>(words: &[(&str, W)], name: &str) -> Result<W, RowError> {
    for (word, meant) in words {
        if *word == name {
            return Ok(*meant);
        }
    }
    Err(RowError::BadRow)
}

/// Refuses a row that has arguments.
pub fn none(arguments: &[Json<'_>]) -> Result<(), RowError> {
    match arguments {
        [] => Ok(()),
        _ => Err(RowError::BadRow),
    }
}

/// The one argument of a row.
pub fn one<'r, 'a>(arguments: &'r [Json<'a>]) -> Result<&'r Json<'a>, RowError> {
    match arguments {
        [argument] => Ok(argument),
        _ => Err(RowError::BadRow),
    }
}

/// The two arguments of a row.
pub fn two<'r, 'a>(arguments: &'r [Json<'a>]) -> Result<(&'r Json<'a>, &'r Json<'a>), RowError> {
    match arguments {
        [first, second] => Ok((first, second)),
        _ => Err(RowError::BadRow),
    }
}

/// The three arguments of a row.
pub fn three<'r, 'a>(
    arguments: &'r [Json<'a>],
) -> Result<(&'r Json<'a>, &'r Json<'a>, &'r Json<'a>), RowError> {
    match arguments {
        [first, second, third] => Ok((first, second, third)),
        _ => Err(RowError::BadRow),
    }
}

/// A text of a row.
pub fn text_in<'a>(argument: &Json<'a>) -> Result<&'a str, RowError> {
    argument.as_str().ok_or(RowError::BadRow)
}

/// A whole number of a row; `u32::try_from(number_in(argument)?)?` is a smaller one.
pub fn number_in(argument: &Json<'_>) -> Result<i64, RowError> {
    argument.as_i64().ok_or(RowError::BadRow)
}

/// A flag of a row.
pub fn flag_in(argument: &Json<'_>) -> Result<bool, RowError> {
    argument.as_bool().ok_or(RowError::BadRow)
}

/// The items of an array of a row.
pub fn items_in<'r, 'a>(argument: &'r Json<'a>) -> Result<&'r [Json<'a>], RowError> {
    match argument {
        Json::Array(items) => Ok(items.as_slice()),
        _ => Err(RowError::BadRow),
    }
}

/// Octets of a row, from a text of two hex digits for each.
pub fn octets_in(alloc: Global, argument: &Json<'_>) -> Result<Vec<u8>, RowError> {
    let mut octets = Vec::new(alloc);
    for pair in text_in(argument)?.as_bytes().chunks(2) {
        octets.push(octet_of(pair)?)?;
    }
    Ok(octets)
}

fn octet_of(pair: &[u8]) -> Result<u8, RowError> {
    match pair {
        [high, low] => Ok(digit_of(*high)? * 16 + digit_of(*low)?),
        _ => Err(RowError::BadRow),
    }
}

fn digit_of(octet: u8) -> Result<u8, RowError>
    ensures { IfOk result (λ digit. digit < 16) }
{
    match octet {
        b'0'..=b'9' => Ok(octet - b'0'),
        b'A'..=b'F' => Ok(octet - b'A' + 10),
        b'a'..=b'f' => Ok(octet - b'a' + 10),
        _ => Err(RowError::BadRow),
    }
}
