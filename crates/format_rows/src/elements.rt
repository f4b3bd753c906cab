use crate::arguments::offset_in;
use mc_ebml::{EbmlError, Size, read_coded, read_head, read_id, read_size, read_text, read_uint};
use rows::{Json, RowError, octets_in, one, two};
use std::alloc::{AllocError, Global};
use std::fmt::Write;

fn push_error(out: &mut String, error: EbmlError) -> Result<(), AllocError> {
    out.push_str(match error {
        EbmlError::Short => "Short",
        EbmlError::BadId => "BadId",
        EbmlError::BadSize => "BadSize",
        EbmlError::BadUint => "BadUint",
        EbmlError::BadText => "BadText",
    })
}

fn push_size(out: &mut String, size: Size) -> Result<(), AllocError> {
    match size {
        Size::Known(size) => write!(out, "{size}"),
        Size::Unknown => out.push_str("unknown"),
    }
}

/// The ID at an offset, and the offset behind it.
pub fn call_id(alloc: Global, arguments: &[Json<'_>], out: &mut String) -> Result<(), RowError> {
    let (octets, at) = two(arguments)?;
    let (octets, at) = (octets_in(alloc, octets)?, offset_in(at)?);
    if at > octets.len() {
        return Err(RowError::BadRow);
    }
    match read_id(octets.as_slice(), at) {
        Ok((id, behind)) => Ok(write!(out, "{id:x} up to {behind}")?),
        Err(error) => Ok(push_error(out, error)?),
    }
}

/// The size at an offset, and the offset behind it.
pub fn call_size(alloc: Global, arguments: &[Json<'_>], out: &mut String) -> Result<(), RowError> {
    let (octets, at) = two(arguments)?;
    let (octets, at) = (octets_in(alloc, octets)?, offset_in(at)?);
    if at > octets.len() {
        return Err(RowError::BadRow);
    }
    match read_size(octets.as_slice(), at) {
        Ok((size, behind)) => {
            push_size(out, size)?;
            Ok(write!(out, " up to {behind}")?)
        }
        Err(error) => Ok(push_error(out, error)?),
    }
}

/// The coded number with which octets begin, and how many octets it takes.
pub fn call_coded(alloc: Global, arguments: &[Json<'_>], out: &mut String) -> Result<(), RowError> {
    let octets = octets_in(alloc, one(arguments)?)?;
    match read_coded(octets.as_slice(), 0) {
        Ok(coded) => Ok(write!(out, "{} in {}", coded.value, coded.width)?),
        Err(error) => Ok(push_error(out, error)?),
    }
}

/// The head with which octets begin: its ID, its size, and where its body begins.
pub fn call_head(alloc: Global, arguments: &[Json<'_>], out: &mut String) -> Result<(), RowError> {
    let octets = octets_in(alloc, one(arguments)?)?;
    match read_head(octets.as_slice(), 0) {
        Ok(head) => {
            write!(out, "{:x} ", head.id)?;
            push_size(out, head.size)?;
            Ok(write!(out, " at {}", head.body)?)
        }
        Err(error) => Ok(push_error(out, error)?),
    }
}

/// The unsigned integer that a body is.
pub fn call_uint(alloc: Global, arguments: &[Json<'_>], out: &mut String) -> Result<(), RowError> {
    let octets = octets_in(alloc, one(arguments)?)?;
    match read_uint(octets.as_slice()) {
        Ok(number) => Ok(write!(out, "{number}")?),
        Err(error) => Ok(push_error(out, error)?),
    }
}

/// The text that a body is.
pub fn call_text(alloc: Global, arguments: &[Json<'_>], out: &mut String) -> Result<(), RowError> {
    let octets = octets_in(alloc, one(arguments)?)?;
    match read_text(octets.as_slice()) {
        Ok(text) => Ok(write!(out, "[{text}]")?),
        Err(error) => Ok(push_error(out, error)?),
    }
}
