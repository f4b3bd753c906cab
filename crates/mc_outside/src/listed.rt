// Reads of files that stand in a list.
ghost use Rattle.std.specs.Prelude.{◌≡◌, ◌++◌, length, drop, Some, option_map};
ghost use Rattle.std.specs.Option.{option_copied};
ghost use Rattle.mc_outside.specs.Shelf.{Reads, InBounds};
ghost use Rattle.mc_outside.specs.Named.{first_named, place_of, numbered, part_of, told_at};

use crate::named::NamedFile;
use crate::shelf::{FileNo, ShelfError};

/// The number of the first file of that name: its place in the list.
pub(crate) fn number(files: &[NamedFile], name: &str) -> Result<FileNo, ShelfError>
    ensures { result ≡ numbered (place_of files.now name.now) }
{
    match place(files, name) {
        None => Err(ShelfError::NotFound),
        Some(place) => match u32::try_from(place) {
            Ok(number) => Ok(FileNo(number)),
            Err(_) => Err(ShelfError::NoMemory),
        },
    }
}

fn place(files: &[NamedFile], name: &str) -> Option<usize>
    ensures { result ≡ place_of files.now name.now }
{
    files.iter().position(|f| f.name() == name)
}

fn first<'a>(files: &'a [NamedFile], name: &str) -> Option<&'a NamedFile>
    ensures { option_copied result ≡ first_named files.now name.now }
{
    files.iter().find(|f| f.name() == name)
}

// The octets that stand under the name of a file.
fn octets(files: &[NamedFile], file: FileNo) -> Option<&[u8]>
    ensures { option_map (λ (b : _). b.now) result ≡ told_at files.now file.0 }
{
    let named = files.get(file.0 as usize)?;
    let first = first(files, named.name())?;
    Some(first.body())
}

/// Copies the part of some octets that begins at a place, as far as the buffer has room.
pub(crate) fn copy_part(octets: &[u8], pos: u64, buf: &mut [u8]) -> usize
    ensures bounds { InBounds pos buf.new result }
    ensures octets { Reads (Some octets.now) pos buf.new result }
    ensures count { result ≡ length (part_of (Some octets.now) pos (length buf.old)) }
    ensures filled { buf.new
        ≡ part_of (Some octets.now) pos (length buf.old) ++ drop result buf.old }
{
    let len = octets.len();
    if pos >= len as u64 {
        return 0;
    }
    let (_, rest) = octets.split_at(pos as usize);
    let count = buf.len().min(rest.len());
    let (front, _) = rest.split_at(count);
    buf[..count].copy_from_slice(front);
    count
}

/// Reads a file of the list into the front of the buffer, as far as the one has octets and the
/// other room.
pub(crate) fn read_listed(files: &[NamedFile], file: FileNo, pos: u64, buf: &mut [u8]) -> usize
    ensures bounds { InBounds pos buf.new result }
    ensures octets { Reads (told_at files.now file.0) pos buf.new result }
    ensures count { result ≡ length (part_of (told_at files.now file.0) pos (length buf.old)) }
{
    match octets(files, file) {
        None => 0,
        Some(octets) => copy_part(octets, pos, buf),
    }
}
