use index_tests::CountingShelf;
use mc_cursor::Cursor;
use mc_index::Index;
use mc_outside::Shelf;
use mc_packet::{Choice, Dir, Starts};
use mc_tracks::default_choice;
use std::alloc::Global;
use std::io::{Error, ErrorKind, Result};

/// A film on a shelf, with a cursor and an index of it.
#[derive(Drop)]
pub struct Reading<S: Shelf> {
    shelf: CountingShelf<S>,
    cursor: Cursor,
    index: Index,
    set: Choice,
}

// What a film or a shelf refuses is told without its cause.
fn unreadable<E: Drop>(_cause: E) -> Error {
    Error::from(ErrorKind::InvalidData)
}

impl<S: Shelf + Drop> Reading<S> {
    /// Opens the film of that name, with its default tracks.
    pub fn open(alloc: Global, shelf: S, name: &str) -> Result<Reading<S>> {
        let mut shelf = CountingShelf::new(shelf);
        let file = shelf.open_file(name).map_err(unreadable)?;
        let cursor = Cursor::begin(alloc, &mut shelf, file).map_err(unreadable)?;
        let index = Index::new(alloc, cursor.tracks())?;
        let set = default_choice(cursor.tracks());
        Ok(Reading {
            shelf,
            cursor,
            index,
            set,
        })
    }

    /// Where a seek back to a time in nanoseconds starts.
    pub fn find(&mut self, t: i64) -> Result<Starts> {
        self.index
            .find(&mut self.cursor, &mut self.shelf, self.set, t, Dir::Back)
            .map_err(unreadable)
    }

    /// The time of the block element at which a reading starts, in nanoseconds.
    pub fn time_of(&mut self, starts: Starts) -> Result<i64> {
        self.cursor.goto(starts.mark);
        let head = self.cursor.next_head(&mut self.shelf).map_err(unreadable)?;
        Ok(head.block.map_or(0, |block| block.time))
    }

    /// One pass over all heads of the film: how many block elements it has.
    pub fn pass(&mut self) -> Result<u64> {
        for blocks in 0..u64::MAX {
            let head = self.cursor.next_head(&mut self.shelf).map_err(unreadable)?;
            if head.ending.is_some() {
                return Ok(blocks);
            }
        }
        Ok(u64::MAX)
    }

    /// How many block elements the index has come past.
    pub fn blocks(&self) -> u64 {
        self.index.blocks()
    }

    /// How many entries the index keeps.
    pub fn entries(&self) -> usize {
        self.index.entries()
    }

    /// How many octets the shelf gave since this was asked last.
    pub fn take_count(&mut self) -> u64 {
        self.shelf.take_count()
    }
}
