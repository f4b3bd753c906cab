use crate::same::{are_the_film, is_same_chunk};
use mc_cursor::Cursor;
use mc_outside::{MemShelf, Shelf};
use mc_packet::{Chunk, Ending, Packets};
use rows::RowError;
use rows_films::shelf_of;
use std::alloc::Global;

// The most chunks that are read of a film.
const MOST: usize = 1000;

// The next chunk, which is read twice from the same mark; None where the second is another one.
fn twice(cursor: &mut Cursor, shelf: &mut MemShelf) -> Option<Chunk> {
    let from = cursor.mark();
    let chunk = cursor.next_chunk(shelf).ok()?;
    cursor.goto(from);
    let again = cursor.next_chunk(shelf).ok()?;
    if is_same_chunk(&chunk, &again) {
        Some(chunk)
    } else {
        None
    }
}

/// A cursor at the beginning of the film of a shelf.
pub fn cursor_of(alloc: Global, shelf: &mut MemShelf) -> Option<Cursor> {
    let file = shelf.open_file("film.mkv").ok()?;
    Cursor::begin(alloc, shelf, file).ok()
}

// The packets of a film's chunks, one chunk behind the other, and its ending.
fn joined(alloc: Global, cursor: &mut Cursor, shelf: &mut MemShelf) -> Option<(Packets, Ending)> {
    let mut packets = Packets::new(alloc);
    for _ in 0..MOST {
        let chunk = twice(cursor, shelf)?;
        packets.append(chunk.packets).ok()?;
        if let Some(ending) = chunk.ending {
            return Some((packets, ending));
        }
    }
    None
}

/// Whether a film read on demand is the film read whole.
pub fn reads_alike(alloc: Global, octets: &[u8]) -> Result<bool, RowError> {
    let mut shelf = shelf_of(alloc, octets, None, None)?;
    let read = match cursor_of(alloc, &mut shelf) {
        Some(mut cursor) => joined(alloc, &mut cursor, &mut shelf),
        None => None,
    };
    Ok(are_the_film(alloc, octets, read))
}
