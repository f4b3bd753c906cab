use crate::opened::{Opened, begin, shelf_of};
use crate::print::{push_chunk, push_cursor, push_failure, push_head, push_refusal};
use mc_outside::Shelf;
use mc_packet::{Level, Mark};
use rows::{Json, RowError, Table, named, none, octets_in, one, three, two};
use std::alloc::{AllocError, Global};
use std::fmt::Write;

/// The calls over one film; `open` takes another.
#[derive(Drop)]
pub struct CursorTable {
    opened: Option<Opened>,
}

impl CursorTable {
    /// No film yet.
    pub fn new() -> CursorTable {
        CursorTable { opened: None }
    }
}

#[derive(Clone, Copy)]
enum Word {
    Open,
    Walk,
    Chunk,
    Head,
    Goto,
    Mark,
    Faults,
}

const WORDS: [(&str, Word); 7] = [
    ("open", Word::Open),
    ("walk", Word::Walk),
    ("chunk", Word::Chunk),
    ("head", Word::Head),
    ("goto", Word::Goto),
    ("mark", Word::Mark),
    ("faults", Word::Faults),
];

impl Table for CursorTable {
    fn call(
        &mut self,
        alloc: Global,
        name: &str,
        arguments: &[Json<'_>],
        out: &mut String,
    ) -> Result<(), RowError> {
        match named(&WORDS, name)? {
            Word::Open => {
                self.opened = call_open(alloc, arguments, out)?;
                Ok(())
            }
            Word::Walk => call_walk(alloc, arguments, out),
            word => match &mut self.opened {
                Some(opened) => answer(opened, word, arguments, out),
                None => Err(RowError::BadRow),
            },
        }
    }
}

fn answer(
    opened: &mut Opened,
    word: Word,
    arguments: &[Json<'_>],
    out: &mut String,
) -> Result<(), RowError> {
    match word {
        Word::Goto => call_goto(opened, arguments, out),
        Word::Chunk => {
            none(arguments)?;
            Ok(call_chunk(opened, out)?)
        }
        Word::Head => {
            none(arguments)?;
            Ok(call_head(opened, out)?)
        }
        Word::Mark => {
            none(arguments)?;
            Ok(push_cursor(out, &opened.cursor)?)
        }
        Word::Faults => {
            none(arguments)?;
            Ok(write!(out, "{}", opened.shelf.fault_count())?)
        }
        Word::Open | Word::Walk => Err(RowError::BadRow),
    }
}

// A whole number of a row, or `null`.
fn number_or_null(argument: &Json<'_>) -> Result<Option<u64>, RowError> {
    match argument {
        Json::Null => Ok(None),
        number => match number.as_u64() {
            Some(number) => Ok(Some(number)),
            None => Err(RowError::BadRow),
        },
    }
}

// The film of the row, and the place of the octet whose read fails once, or `null`.
fn call_open(
    alloc: Global,
    arguments: &[Json<'_>],
    out: &mut String,
) -> Result<Option<Opened>, RowError> {
    let (film, spot) = two(arguments)?;
    let film = octets_in(alloc, film)?;
    let (shelf, file) = shelf_of(alloc, film.as_slice(), number_or_null(spot)?)?;
    match begin(alloc, shelf, file)? {
        Ok(opened) => {
            push_cursor(out, &opened.cursor)?;
            Ok(Some(opened))
        }
        Err(error) => {
            push_refusal(out, error)?;
            Ok(None)
        }
    }
}

// Where each block of the film stands, and its ending.
fn call_walk(alloc: Global, arguments: &[Json<'_>], out: &mut String) -> Result<(), RowError> {
    let film = octets_in(alloc, one(arguments)?)?;
    let (shelf, file) = shelf_of(alloc, film.as_slice(), None)?;
    match begin(alloc, shelf, file)? {
        Ok(mut opened) => Ok(push_walk(&mut opened, out)?),
        Err(error) => Ok(push_refusal(out, error)?),
    }
}

// The most parts that are walked.
const PARTS: u32 = 1_000;

fn push_walk(opened: &mut Opened, out: &mut String) -> Result<(), AllocError> {
    for _ in 0..PARTS {
        match opened.cursor.next_chunk(&mut opened.shelf) {
            Err(error) => return push_failure(out, error),
            Ok(chunk) => {
                for packet in chunk.packets.as_slice() {
                    write!(out, "{}.{} ", packet.pos.block, packet.pos.lane)?;
                }
                if let Some(ending) = chunk.ending {
                    return write!(out, "{ending:?}");
                }
            }
        }
    }
    out.push_str("goes on")
}

// A mark of the film: its offset, and the time and the end of its Cluster, one of which may be
// `null`; among the Segment's children both are.
fn call_goto(
    opened: &mut Opened,
    arguments: &[Json<'_>],
    out: &mut String,
) -> Result<(), RowError> {
    let (pos, time, end) = three(arguments)?;
    let pos = pos.as_u64().ok_or(RowError::BadRow)?;
    let level = match (number_or_null(time)?, number_or_null(end)?) {
        (None, None) => Level::Segment,
        (time, end) => Level::Cluster { time, end },
    };
    opened.cursor.goto(Mark { pos, level });
    Ok(push_cursor(out, &opened.cursor)?)
}

fn call_chunk(opened: &mut Opened, out: &mut String) -> Result<(), AllocError> {
    match opened.cursor.next_chunk(&mut opened.shelf) {
        Ok(chunk) => push_chunk(out, &chunk),
        Err(error) => push_failure(out, error),
    }
}

fn call_head(opened: &mut Opened, out: &mut String) -> Result<(), AllocError> {
    match opened.cursor.next_head(&mut opened.shelf) {
        Ok(head) => push_head(out, &head),
        Err(error) => push_failure(out, error),
    }
}
