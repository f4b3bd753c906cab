use mc_cursor::{Cursor, OpenError};
use mc_outside::{FileNo, MemShelf, NamedFile, NamedFiles, Shelf, Spots};
use rows::RowError;
use std::alloc::Global;

/// A shelf in memory with one film, and the film's cursor.
#[derive(Drop)]
pub struct Opened {
    /// The shelf that has the film.
    pub shelf: MemShelf,
    /// The cursor on it.
    pub cursor: Cursor,
}

/// A shelf with a film, whose read of the octet at a spot fails once, and the film's number there.
pub fn shelf_of(
    alloc: Global,
    film: &[u8],
    spot: Option<u64>,
) -> Result<(MemShelf, FileNo), RowError> {
    let mut files = NamedFiles::new(alloc);
    files.push(NamedFile::new(alloc, "film.mkv", film)?)?;
    let mut spots = Spots::new(alloc);
    if let Some(place) = spot {
        spots.push((0, place))?;
    }
    let mut shelf = MemShelf::new(files, spots);
    match shelf.open_file("film.mkv") {
        Ok(file) => Ok((shelf, file)),
        Err(_) => Err(RowError::BadRow),
    }
}

/// The film of that shelf at its opening.
pub fn begin(
    alloc: Global,
    mut shelf: MemShelf,
    file: FileNo,
) -> Result<Result<Opened, OpenError>, RowError> {
    match Cursor::begin(alloc, &mut shelf, file) {
        Ok(cursor) => Ok(Ok(Opened { shelf, cursor })),
        Err(OpenError::NoMemory) => Err(RowError::NoMemory),
        Err(error) => Ok(Err(error)),
    }
}
