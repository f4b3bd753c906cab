ghost use Rattle.std.specs.Prelude.{◌+◌, ◌^◌, ◌<◌, IfOk};

use crate::drip::DripShelf;
use crate::fake::FakeFiles;
use mc_outside::{
    CleanShelf, Failed, FileNo, FileShelf, MemShelf, NamedFile, NamedFiles, Shelf, ShelfError,
    SliceShelf, Spots, read_full,
};
use rows::{Json, RowError, items_in, none, octets_in, one, text_in, three, two};
use std::alloc::{AllocError, Global};
use std::fmt::Write;
use std::fs;

/// What a row asks of a shelf.
#[derive(Clone, Copy)]
pub enum Asked {
    Open,
    Read,
    Full,
    Patterned,
    Faults,
}

/// The shelf that lives from row to row.
#[derive(Drop)]
pub enum Held<'a> {
    Clean(CleanShelf),
    Mem(MemShelf),
    Drip(DripShelf),
    Host(FileShelf<'a, HostRuntime>),
    Fake(FileShelf<'a, FakeFiles>),
}

/// A whole number of a row, of at most 64 bits.
pub fn place_in(argument: &Json<'_>) -> Result<u64, RowError> {
    argument.as_u64().ok_or(RowError::BadRow)
}

fn file_in(argument: &Json<'_>) -> Result<FileNo, RowError> {
    Ok(FileNo(u32::try_from(place_in(argument)?)?))
}

fn size_in(argument: &Json<'_>) -> Result<u32, RowError> {
    Ok(u32::try_from(place_in(argument)?)?)
}

// A file of a row: its name and its octets.
fn named_file(alloc: Global, argument: &Json<'_>) -> Result<NamedFile, RowError> {
    let (name, octets) = two(items_in(argument)?)?;
    let octets = octets_in(alloc, octets)?;
    Ok(NamedFile::new(alloc, text_in(name)?, octets.as_slice())?)
}

fn files_in(alloc: Global, argument: &Json<'_>) -> Result<NamedFiles, RowError> {
    let mut files = NamedFiles::new(alloc);
    for item in items_in(argument)? {
        files.push(named_file(alloc, item)?)?;
    }
    Ok(files)
}

// A spot of a row: a file's place in its list, and an octet's place in the file.
fn spot_in(argument: &Json<'_>) -> Result<(u32, u64), RowError> {
    let (file, place) = two(items_in(argument)?)?;
    Ok((size_in(file)?, place_in(place)?))
}

fn spots_in(alloc: Global, argument: &Json<'_>) -> Result<Spots, RowError> {
    let mut spots = Spots::new(alloc);
    for item in items_in(argument)? {
        spots.push(spot_in(item)?)?;
    }
    Ok(spots)
}

/// A shelf of the files of a row.
pub fn clean(alloc: Global, arguments: &[Json<'_>]) -> Result<CleanShelf, RowError> {
    Ok(CleanShelf::new(files_in(alloc, one(arguments)?)?))
}

/// A shelf of the files of a row, with spots.
pub fn mem(alloc: Global, arguments: &[Json<'_>]) -> Result<MemShelf, RowError> {
    let (files, spots) = two(arguments)?;
    let spots = spots_in(alloc, spots)?;
    Ok(MemShelf::new(files_in(alloc, files)?, spots))
}

/// Makes the call on the shelf that is held.
pub fn answer_held(
    alloc: Global,
    held: &mut Held<'_>,
    asked: Asked,
    arguments: &[Json<'_>],
    out: &mut String,
) -> Result<(), RowError> {
    match held {
        Held::Clean(shelf) => answer(alloc, shelf, asked, arguments, out),
        Held::Mem(shelf) => answer(alloc, shelf, asked, arguments, out),
        Held::Drip(shelf) => answer(alloc, shelf, asked, arguments, out),
        Held::Host(shelf) => answer(alloc, shelf, asked, arguments, out),
        Held::Fake(shelf) => answer(alloc, shelf, asked, arguments, out),
    }
}

fn answer<S: Shelf>(
    alloc: Global,
    shelf: &mut S,
    asked: Asked,
    arguments: &[Json<'_>],
    out: &mut String,
) -> Result<(), RowError> {
    match asked {
        Asked::Open => Ok(call_open(shelf, text_in(one(arguments)?)?, out)?),
        Asked::Read => call_read(alloc, shelf, arguments, out),
        Asked::Full => call_full(alloc, shelf, arguments, out),
        Asked::Patterned => call_patterned(alloc, shelf, arguments, out),
        Asked::Faults => {
            none(arguments)?;
            Ok(write!(out, "{}", shelf.fault_count())?)
        }
    }
}

fn call_open<S: Shelf>(shelf: &mut S, name: &str, out: &mut String) -> Result<(), AllocError> {
    match shelf.open_file(name) {
        Ok(file) => write!(out, "{}", file.0),
        Err(ShelfError::NotFound) => out.push_str("NotFound"),
        Err(ShelfError::Failed) => out.push_str("Failed"),
        Err(ShelfError::NoMemory) => out.push_str("NoMemory"),
    }
}

// How many octets were read, and the buffer, which held `EE` in each place before.
fn push_read(out: &mut String, count: usize, buf: &[u8]) -> Result<(), AllocError> {
    write!(out, "{count}:")?;
    for octet in buf {
        write!(out, "{:02X}", *octet)?;
    }
    Ok(())
}

fn call_read<S: Shelf>(
    alloc: Global,
    shelf: &mut S,
    arguments: &[Json<'_>],
    out: &mut String,
) -> Result<(), RowError> {
    let (file, pos, size) = three(arguments)?;
    let (file, pos) = (file_in(file)?, place_in(pos)?);
    let mut buf = vec![in alloc; 0xEEu8; size_in(size)? as usize]?;
    match shelf.read_at(file, pos, buf.as_mut_slice()) {
        Ok(count) => Ok(push_read(out, count, buf.as_slice())?),
        Err(Failed) => Ok(out.push_str("Failed")?),
    }
}

// A place and a size of a row whose sum has 64 bits.
fn span_in(pos: &Json<'_>, size: &Json<'_>) -> Result<(u64, u32), RowError>
    ensures { IfOk result (λ r. r.0 + r.1 < 2 ^ 64) }
{
    let pos = place_in(pos)?;
    let size = size_in(size)?;
    match pos.checked_add(size as u64) {
        Some(_) => Ok((pos, size)),
        None => Err(RowError::BadRow),
    }
}

fn call_full<S: Shelf>(
    alloc: Global,
    shelf: &mut S,
    arguments: &[Json<'_>],
    out: &mut String,
) -> Result<(), RowError> {
    let (file, pos, size) = three(arguments)?;
    let file = file_in(file)?;
    let (pos, size) = span_in(pos, size)?;
    let mut buf = vec![in alloc; 0xEEu8; size as usize]?;
    match read_full(shelf, file, pos, buf.as_mut_slice()) {
        Ok(count) => Ok(push_read(out, count, buf.as_slice())?),
        Err(_) => Ok(out.push_str("ReadFault")?),
    }
}

// The octet at a place of a file whose octets tell where they stand.
fn octet_at(place: u64) -> u8 {
    (place % 251) as u8
}

fn is_patterned(pos: u64, octets: &[u8]) -> bool {
    let mut place = pos;
    for octet in octets {
        if *octet != octet_at(place) {
            return false;
        }
        place = place.saturating_add(1);
    }
    true
}

// How many octets were read of a file that `make` wrote, and whether each stands in its place.
fn call_patterned<S: Shelf>(
    alloc: Global,
    shelf: &mut S,
    arguments: &[Json<'_>],
    out: &mut String,
) -> Result<(), RowError> {
    let (file, pos, size) = three(arguments)?;
    let file = file_in(file)?;
    let (pos, size) = span_in(pos, size)?;
    let mut buf = vec![in alloc; 0u8; size as usize]?;
    match read_full(shelf, file, pos, buf.as_mut_slice()) {
        Ok(count) => Ok(write!(out, "{count} {}", is_patterned(pos, &buf[..count]))?),
        Err(_) => Ok(out.push_str("ReadFault")?),
    }
}

/// Writes a file of so many octets that tell where they stand.
pub fn call_make(
    rt: &HostRuntime,
    arguments: &[Json<'_>],
    out: &mut String,
) -> Result<(), RowError> {
    let (path, count) = two(arguments)?;
    let (path, count) = (text_in(path)?, size_in(count)?);
    let mut octets = Vec::new(rt.alloc());
    for place in 0..count {
        octets.push(octet_at(place as u64))?;
    }
    push_done(out, fs::write(rt, path, octets.as_slice()).is_ok())
}

/// Writes a file of the octets of a row.
pub fn call_write_file(
    rt: &HostRuntime,
    arguments: &[Json<'_>],
    out: &mut String,
) -> Result<(), RowError> {
    let (path, octets) = two(arguments)?;
    let path = text_in(path)?;
    let octets = octets_in(rt.alloc(), octets)?;
    push_done(out, fs::write(rt, path, octets.as_slice()).is_ok())
}

/// Removes a file.
pub fn call_remove(
    rt: &HostRuntime,
    arguments: &[Json<'_>],
    out: &mut String,
) -> Result<(), RowError> {
    push_done(out, fs::remove_file(rt, text_in(one(arguments)?)?).is_ok())
}

fn push_done(out: &mut String, done: bool) -> Result<(), RowError> {
    Ok(out.push_str(if done { "done" } else { "refused" })?)
}

/// Opens a name on a shelf that lends the octets of the row under another one, and reads there.
pub fn call_slice(alloc: Global, arguments: &[Json<'_>], out: &mut String) -> Result<(), RowError> {
    let [name, octets, asked, reads @ ..] = arguments else {
        return Err(RowError::BadRow);
    };
    let (name, asked) = (text_in(name)?, text_in(asked)?);
    let octets = octets_in(alloc, octets)?;
    let mut shelf = SliceShelf::new(name, octets.as_slice());
    push_slice(alloc, &mut shelf, asked, reads, out)
}

fn push_slice(
    alloc: Global,
    shelf: &mut SliceShelf<'_>,
    asked: &str,
    reads: &[Json<'_>],
    out: &mut String,
) -> Result<(), RowError> {
    call_open(shelf, asked, out)?;
    out.push_str(" ")?;
    call_read(alloc, shelf, reads, out)
}
