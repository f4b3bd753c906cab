use index_tests::CountingShelf;
use mc_cursor::{Cursor, OpenError};
use mc_index::Index;
use mc_outside::{CleanShelf, NamedFile, NamedFiles, Shelf};
use rows::RowError;
use std::alloc::Global;

/// A film in memory with a cursor and an index of it.
#[derive(Drop)]
pub struct Reading {
    /// The shelf that has the film, and counts what is read.
    pub shelf: CountingShelf<CleanShelf>,
    /// The cursor on it.
    pub cursor: Cursor,
    /// The index of its tracks.
    pub index: Index,
}

/// A film of these octets at its opening. One that is refused is no row.
pub fn reading_of(alloc: Global, film: &[u8]) -> Result<Reading, RowError> {
    let mut files = NamedFiles::new(alloc);
    files.push(NamedFile::new(alloc, "film.mkv", film)?)?;
    let mut shelf = CountingShelf::new(CleanShelf::new(files));
    let Ok(file) = shelf.open_file("film.mkv") else {
        return Err(RowError::BadRow);
    };
    match Cursor::begin(alloc, &mut shelf, file) {
        Ok(cursor) => {
            let index = Index::new(alloc, cursor.tracks())?;
            Ok(Reading {
                shelf,
                cursor,
                index,
            })
        }
        Err(OpenError::NoMemory) => Err(RowError::NoMemory),
        Err(_) => Err(RowError::BadRow),
    }
}
