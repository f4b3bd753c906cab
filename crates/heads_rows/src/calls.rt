use crate::made::{Film, MadeShelf, PARTS};
use mc_cursor::{Cursor, CursorError, OpenError};
use mc_outside::FileNo;
use mc_packet::Ending;
use rows::{Json, RowError, Table, named, octets_in};
use std::alloc::Global;
use std::fmt::Write;

/// The calls; nothing lives from row to row.
#[derive(Drop)]
pub struct HeadsTable;

// How a film is walked.
#[derive(Clone, Copy)]
enum Walk {
    // By the first packets of blocks.
    Heads,
    // By the packets of blocks.
    Chunks,
}

const WORDS: [(&str, Walk); 2] = [("heads", Walk::Heads), ("chunks", Walk::Chunks)];

impl Table for HeadsTable {
    fn call(
        &mut self,
        alloc: Global,
        name: &str,
        arguments: &[Json<'_>],
        out: &mut String,
    ) -> Result<(), RowError> {
        let walk = named(&WORDS, name)?;
        let [lead, payload, tail, most] = arguments else {
            return Err(RowError::BadRow);
        };
        let most = u64_in(most)?;
        call_walk(alloc, walk, film_of(alloc, lead, payload, tail)?, most, out)
    }
}

// An EBML header, a Segment of unknown size, Info, and two tracks: 1 video, 2 audio that is encoded.
const OPENING: [u8; 80] = [
    0x1A, 0x45, 0xDF, 0xA3, 0x8B, 0x42, 0x82, 0x88, 0x6D, 0x61, 0x74, 0x72, 0x6F, 0x73, 0x6B, 0x61,
    0x18, 0x53, 0x80, 0x67, 0xFF, 0x15, 0x49, 0xA9, 0x66, 0x87, 0x2A, 0xD7, 0xB1, 0x83, 0x0F, 0x42,
    0x40, 0x16, 0x54, 0xAE, 0x6B, 0xAA, 0xAE, 0x91, 0xD7, 0x81, 0x01, 0x73, 0xC5, 0x81, 0x01, 0x83,
    0x81, 0x01, 0x86, 0x85, 0x56, 0x5F, 0x56, 0x50, 0x39, 0xAE, 0x95, 0xD7, 0x81, 0x02, 0x73, 0xC5,
    0x81, 0x02, 0x83, 0x81, 0x02, 0x86, 0x86, 0x41, 0x5F, 0x4F, 0x50, 0x55, 0x53, 0x6D, 0x80, 0x80,
];

// Where a Cluster has its Timestamp: behind an ID of 4 octets, a size of 4, and a head of 2.
const TIMESTAMP: u64 = 10;

fn u64_in(argument: &Json<'_>) -> Result<u64, RowError> {
    argument.as_u64().ok_or(RowError::BadRow)
}

// The film whose Clusters begin and end so, around a payload of so many octets.
fn film_of(
    alloc: Global,
    lead: &Json<'_>,
    payload: &Json<'_>,
    tail: &Json<'_>,
) -> Result<Film, RowError> {
    let mut opening = Vec::new(alloc);
    opening.extend_from_slice(&OPENING)?;
    Ok(Film {
        opening,
        lead: octets_in(alloc, lead)?,
        number_at: TIMESTAMP,
        payload: u64_in(payload)?,
        tail: octets_in(alloc, tail)?,
    })
}

// Walks the film from its opening on.
fn call_walk(
    alloc: Global,
    walk: Walk,
    film: Film,
    most: u64,
    out: &mut String,
) -> Result<(), RowError> {
    let mut shelf = MadeShelf::new(film);
    match Cursor::begin(alloc, &mut shelf, FileNo(0)) {
        Ok(mut cursor) => push_walk(&mut cursor, &mut shelf, walk, most, out),
        Err(OpenError::NoMemory) => Err(RowError::NoMemory),
        Err(_) => Err(RowError::BadRow),
    }
}

// How many blocks the film gives and how it ends, and whether the walk reads few octets for each.
fn push_walk(
    cursor: &mut Cursor,
    shelf: &mut MadeShelf,
    walk: Walk,
    most: u64,
    out: &mut String,
) -> Result<(), RowError> {
    shelf.take_count();
    let (blocks, ending) = walked(cursor, shelf, walk)?;
    write!(out, "{blocks} {ending:?} ")?;
    let count = shelf.take_count();
    if count < most.saturating_mul(PARTS) {
        Ok(out.push_str("under")?)
    } else {
        Ok(write!(out, "{count}")?)
    }
}

// The most parts of a film that are walked.
const MOST: u64 = 100;

// How many parts have a packet, up to the film's ending.
fn walked(
    cursor: &mut Cursor,
    shelf: &mut MadeShelf,
    walk: Walk,
) -> Result<(u64, Option<Ending>), RowError> {
    let mut blocks = 0u64;
    for _ in 0..MOST {
        let (has, ending) = match step(cursor, shelf, walk) {
            Ok(step) => step,
            Err(CursorError::NoMemory) => return Err(RowError::NoMemory),
            Err(CursorError::ReadFault) => return Err(RowError::BadRow),
        };
        if has {
            blocks = blocks.saturating_add(1);
        }
        if ending.is_some() {
            return Ok((blocks, ending));
        }
    }
    Ok((blocks, None))
}

// Whether the next part has a packet, and the film's ending where it stands there.
fn step(
    cursor: &mut Cursor,
    shelf: &mut MadeShelf,
    walk: Walk,
) -> Result<(bool, Option<Ending>), CursorError> {
    match walk {
        Walk::Heads => {
            let head = cursor.next_head(shelf)?;
            Ok((head.block.is_some(), head.ending))
        }
        Walk::Chunks => {
            let chunk = cursor.next_chunk(shelf)?;
            Ok((!chunk.packets.as_slice().is_empty(), chunk.ending))
        }
    }
}
