ghost use Rattle.std.specs.Prelude.{◌≡◌, Ok, IfOk, IfSome};
ghost use Rattle.mc_walk.specs.Parts.{opening_mark};
ghost use Rattle.mc_film.specs.Film.{film_of};
ghost use Rattle.mc_film.specs.Chunks.{IsMarkIn};

use crate::chunks::cursor_of;
use crate::same::{are_the_film, is_same_chunk};
use mc_cursor::Cursor;
use mc_film::{WholeFilm, chunk_at, film};
use mc_outside::MemShelf;
use mc_packet::{Chunk, Ending, Level, Mark, NoMemory, Packets};
use rows::RowError;
use rows_films::shelf_of;
use std::alloc::Global;

// The most parts that are read of a film.
const MOST: usize = 1000;

// The part of a film at a mark; None where it is not the chunk that a cursor reads.
fn part_alike(
    alloc: Global,
    octets: &[u8],
    whole: &WholeFilm,
    mark: Mark,
    cursor: &mut Cursor,
    shelf: &mut MemShelf,
) -> Result<Option<Chunk>, NoMemory>
    requires film { film_of octets.now ≡ Ok whole.now }
    requires mark { IsMarkIn octets.now mark }
    ensures { IfOk result (λ found. IfSome found (λ part. IsMarkIn octets.now part.to)) }
{
    let part = chunk_at(alloc, octets, whole, mark)?;
    match cursor.next_chunk(shelf) {
        Ok(chunk) if is_same_chunk(&part, &chunk) => Ok(Some(part)),
        _ => Ok(None),
    }
}

// The packets of a film's parts, one part behind the other, and its ending; None where a part is
// not the chunk that a cursor reads.
fn joined_parts(
    alloc: Global,
    octets: &[u8],
    whole: &WholeFilm,
    cursor: &mut Cursor,
    shelf: &mut MemShelf,
) -> Result<Option<(Packets, Ending)>, NoMemory>
    requires film { film_of octets.now ≡ Ok whole.now }
    requires opening { IsMarkIn octets.now opening_mark }
{
    let mut mark = Mark {
        pos: 0,
        level: Level::Segment,
    };
    let mut packets = Packets::new(alloc);
    for _ in 0..MOST {
        let Some(part) = part_alike(alloc, octets, whole, mark, cursor, shelf)? else {
            return Ok(None);
        };
        mark = part.to;
        packets.append(part.packets)?;
        if let Some(ending) = part.ending {
            return Ok(Some((packets, ending)));
        }
    }
    Ok(None)
}

fn read_parts(alloc: Global, octets: &[u8]) -> Result<Option<(Packets, Ending)>, NoMemory> {
    let mut shelf = shelf_of(alloc, octets, None, None)?;
    match (film(alloc, octets), cursor_of(alloc, &mut shelf)) {
        (Ok(whole), Some(mut cursor)) => {
            joined_parts(alloc, octets, &whole, &mut cursor, &mut shelf)
        }
        _ => Ok(None),
    }
}

/// Whether a film's parts are a cursor's chunks and, joined, the film read whole.
pub fn parts_alike(alloc: Global, octets: &[u8]) -> Result<bool, RowError> {
    let read = read_parts(alloc, octets)?;
    Ok(are_the_film(alloc, octets, read))
}
