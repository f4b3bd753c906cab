ghost use Rattle.std.specs.Prelude.{◌≡◌};
ghost use Rattle.mc_ebml.specs.Written.{is_id, has_no_zero};

use crate::arguments::{natural_in, push_octets};
use mc_ebml::{Size, write_coded, write_element, write_head, write_text, write_uint};
use rows::{Json, RowError, number_in, octets_in, one, text_in, two};
use std::alloc::Global;

// The numbers that are coded have at most so many bits.
const CODED: u64 = 1 << 56;

fn is_id(id: u32) -> bool
    ensures { result ≡ is_id id }
{
    matches!(
        id,
        0x80..=0xFF | 0x4000..=0x7FFF | 0x20_0000..=0x3F_FFFF | 0x1000_0000..=0x1FFF_FFFF
    )
}

fn has_no_zero(text: &[u8]) -> bool
    ensures { result ≡ has_no_zero text.now }
{
    text.iter().all(|octet| 0 < *octet)
}

/// The head of an element; a size of -1 is an unknown one.
pub fn call_write_head(
    alloc: Global,
    arguments: &[Json<'_>],
    out: &mut String,
) -> Result<(), RowError> {
    let (id, size) = two(arguments)?;
    let id = u32::try_from(number_in(id)?)?;
    let size = match number_in(size)? {
        -1 => Size::Unknown,
        size => Size::Known(u64::try_from(size)?),
    };
    if !is_id(id) || matches!(size, Size::Known(size) if size >= CODED - 1) {
        return Err(RowError::BadRow);
    }
    let mut octets = Vec::new(alloc);
    write_head(&mut octets, id, size)?;
    Ok(push_octets(out, octets.as_slice())?)
}

/// An element whose body is an unsigned integer.
pub fn call_write_uint(
    alloc: Global,
    arguments: &[Json<'_>],
    out: &mut String,
) -> Result<(), RowError> {
    let (id, number) = two(arguments)?;
    let (id, number) = (u32::try_from(number_in(id)?)?, natural_in(number)?);
    if !is_id(id) {
        return Err(RowError::BadRow);
    }
    let mut octets = Vec::new(alloc);
    write_uint(&mut octets, id, number)?;
    Ok(push_octets(out, octets.as_slice())?)
}

/// An element whose body is a text.
pub fn call_write_text(
    alloc: Global,
    arguments: &[Json<'_>],
    out: &mut String,
) -> Result<(), RowError> {
    let (id, text) = two(arguments)?;
    let (id, text) = (u32::try_from(number_in(id)?)?, text_in(text)?);
    let is_short = (text.len() as u64) < CODED - 1;
    if !is_id(id) || !is_short || !has_no_zero(text.as_bytes()) {
        return Err(RowError::BadRow);
    }
    let mut octets = Vec::new(alloc);
    write_text(&mut octets, id, text)?;
    Ok(push_octets(out, octets.as_slice())?)
}

/// A coded number.
pub fn call_write_coded(
    alloc: Global,
    arguments: &[Json<'_>],
    out: &mut String,
) -> Result<(), RowError> {
    let number = natural_in(one(arguments)?)?;
    if number >= CODED {
        return Err(RowError::BadRow);
    }
    let mut octets = Vec::new(alloc);
    write_coded(&mut octets, number)?;
    Ok(push_octets(out, octets.as_slice())?)
}

/// An element of any body.
pub fn call_write_element(
    alloc: Global,
    arguments: &[Json<'_>],
    out: &mut String,
) -> Result<(), RowError> {
    let (id, body) = two(arguments)?;
    let (id, body) = (u32::try_from(number_in(id)?)?, octets_in(alloc, body)?);
    if !is_id(id) || body.len() as u64 >= CODED - 1 {
        return Err(RowError::BadRow);
    }
    let mut octets = Vec::new(alloc);
    write_element(&mut octets, id, body.as_slice())?;
    Ok(push_octets(out, octets.as_slice())?)
}
