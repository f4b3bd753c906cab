use crate::written::{pictures_in, written};
use index_tests::CountingShelf;
use mc_cursor::Cursor;
use mc_index::Index;
use mc_outside::{Shelf, SliceShelf};
use mc_packet::Dir;
use mc_tracks::default_choice;
use rows::{Json, RowError, items_in, number_in, three};
use rows_packets::block_in;
use std::alloc::Global;
use std::fmt::Write;

// What a film or a shelf refuses makes a bad row.
fn bad<E: Drop>(_cause: E) -> RowError {
    RowError::BadRow
}

// How many octets of a film are read by the last of some seeks back to these times, one after the other;
// by the first one together with the opening.
fn octets_read(alloc: Global, film: &[u8], times: &[Json<'_>]) -> Result<u64, RowError> {
    let mut shelf = CountingShelf::new(SliceShelf::new("film", film));
    let file = shelf.open_file("film").map_err(bad)?;
    let mut cursor = Cursor::begin(alloc, &mut shelf, file).map_err(bad)?;
    let mut index = Index::new(alloc, cursor.tracks())?;
    let set = default_choice(cursor.tracks());
    let mut octets = 0;
    for time in times {
        index
            .find(&mut cursor, &mut shelf, set, number_in(time)?, Dir::Back)
            .map_err(bad)?;
        octets = shelf.take_count();
    }
    Ok(octets)
}

/// `["seeks",N,[TIME,..],MOST]`: opens the film of N pictures through a shelf that counts, and seeks to
/// these times in nanoseconds, one after the other. Answers whether the last seek read fewer than MOST
/// octets, where it is the first one together with the opening; else how many.
pub fn call_seeks(alloc: Global, arguments: &[Json<'_>], out: &mut String) -> Result<(), RowError> {
    let (n, times, most) = three(arguments)?;
    let film = written(alloc, pictures_in(n)?)?;
    let most = block_in(most)?;
    let octets = octets_read(alloc, film.text(), items_in(times)?)?;
    if octets < most {
        Ok(write!(out, "fewer than {most}")?)
    } else {
        Ok(write!(out, "{octets}")?)
    }
}
