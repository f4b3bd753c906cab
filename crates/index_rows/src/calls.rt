use crate::reading::{Reading, reading_of};
use index_tests::long_film;
use mc_cursor::CursorError;
use mc_packet::{Choice, Dir, Level, Mark, Starts, TrackNo};
use rows::{Json, RowError, Table, named, none, number_in, octets_in, one, text_in, three};
use std::alloc::{AllocError, Global};
use std::fmt::Write;

/// The calls over one film; `open` and `long` take another.
#[derive(Drop)]
pub struct IndexTable {
    reading: Option<Reading>,
}

impl IndexTable {
    /// No film yet.
    pub fn new() -> IndexTable {
        IndexTable { reading: None }
    }
}

#[derive(Clone, Copy)]
enum Word {
    Open,
    Long,
    Find,
    Switch,
    Block,
    Blocks,
    Entries,
    Fewer,
}

const WORDS: [(&str, Word); 8] = [
    ("open", Word::Open),
    ("long", Word::Long),
    ("find", Word::Find),
    ("find_switch", Word::Switch),
    ("block", Word::Block),
    ("blocks", Word::Blocks),
    ("entries", Word::Entries),
    ("fewer", Word::Fewer),
];

impl Table for IndexTable {
    fn call(
        &mut self,
        alloc: Global,
        name: &str,
        arguments: &[Json<'_>],
        out: &mut String,
    ) -> Result<(), RowError> {
        match named(&WORDS, name)? {
            Word::Open => {
                self.reading = Some(call_open(alloc, arguments)?);
                Ok(out.push_str("opened")?)
            }
            Word::Long => {
                self.reading = Some(call_long(alloc, arguments)?);
                Ok(out.push_str("opened")?)
            }
            word => match &mut self.reading {
                Some(reading) => answer(reading, word, arguments, out),
                None => Err(RowError::BadRow),
            },
        }
    }
}

fn answer(
    reading: &mut Reading,
    word: Word,
    arguments: &[Json<'_>],
    out: &mut String,
) -> Result<(), RowError> {
    match word {
        Word::Find => call_find(reading, arguments, out),
        Word::Switch => call_switch(reading, arguments, out),
        Word::Fewer => call_fewer(reading, arguments, out),
        Word::Block => call_block(reading, arguments, out),
        Word::Blocks => {
            none(arguments)?;
            Ok(write!(out, "{}", reading.index.blocks())?)
        }
        Word::Entries => {
            none(arguments)?;
            Ok(write!(out, "{}", reading.index.entries())?)
        }
        Word::Open | Word::Long => Err(RowError::BadRow),
    }
}

fn call_open(alloc: Global, arguments: &[Json<'_>]) -> Result<Reading, RowError> {
    let film = octets_in(alloc, one(arguments)?)?;
    reading_of(alloc, film.as_slice())
}

fn call_long(alloc: Global, arguments: &[Json<'_>]) -> Result<Reading, RowError> {
    none(arguments)?;
    let film = long_film(alloc)?;
    reading_of(alloc, film.as_slice())
}

// A track of a row, or `null`.
fn track_in(argument: &Json<'_>) -> Result<Option<TrackNo>, RowError> {
    match argument {
        Json::Null => Ok(None),
        number => match number.as_u64() {
            Some(track) => Ok(Some(track)),
            None => Err(RowError::BadRow),
        },
    }
}

// A time of a row, in nanoseconds.
fn time_in(argument: &Json<'_>) -> Result<i64, RowError> {
    number_in(argument)?
        .checked_mul(1_000_000)
        .ok_or(RowError::BadRow)
}

fn dir_in(argument: &Json<'_>) -> Result<Dir, RowError> {
    named(
        &[("back", Dir::Back), ("forward", Dir::Forward)],
        text_in(argument)?,
    )
}

// A video, an audio and a subtitle track, a time, and the direction.
fn call_find(
    reading: &mut Reading,
    arguments: &[Json<'_>],
    out: &mut String,
) -> Result<(), RowError> {
    let [video, audio, sub, time, dir] = arguments else {
        return Err(RowError::BadRow);
    };
    let set = Choice {
        video: track_in(video)?,
        audio: track_in(audio)?,
        sub: track_in(sub)?,
    };
    let found = reading.index.find(
        &mut reading.cursor,
        &mut reading.shelf,
        set,
        time_in(time)?,
        dir_in(dir)?,
    );
    Ok(push_found(out, found)?)
}

// The added tracks, the lead, and a time.
fn call_switch(
    reading: &mut Reading,
    arguments: &[Json<'_>],
    out: &mut String,
) -> Result<(), RowError> {
    let [video, audio, sub, lead, time] = arguments else {
        return Err(RowError::BadRow);
    };
    let added = Choice {
        video: track_in(video)?,
        audio: track_in(audio)?,
        sub: track_in(sub)?,
    };
    let found = reading.index.find_switch(
        &mut reading.cursor,
        &mut reading.shelf,
        added,
        track_in(lead)?,
        time_in(time)?,
    );
    Ok(push_found(out, found)?)
}

// The block element that is read from a mark on: its offset, and the time and the end of its Cluster.
fn call_block(
    reading: &mut Reading,
    arguments: &[Json<'_>],
    out: &mut String,
) -> Result<(), RowError> {
    let (pos, time, end) = three(arguments)?;
    reading.cursor.goto(Mark {
        pos: pos.as_u64().ok_or(RowError::BadRow)?,
        level: Level::Cluster {
            time: time.as_u64(),
            end: end.as_u64(),
        },
    });
    Ok(push_block(reading, out)?)
}

fn push_block(reading: &mut Reading, out: &mut String) -> Result<(), AllocError> {
    match reading.cursor.next_head(&mut reading.shelf) {
        Ok(head) => match head.block {
            Some(block) => write!(out, "{block:?}"),
            None => out.push_str("none"),
        },
        Err(error) => write!(out, "{error:?}"),
    }
}

// Whether the shelf gave fewer octets than so many since this was asked last.
fn call_fewer(
    reading: &mut Reading,
    arguments: &[Json<'_>],
    out: &mut String,
) -> Result<(), RowError> {
    let most = one(arguments)?.as_u64().ok_or(RowError::BadRow)?;
    let count = reading.shelf.take_count();
    Ok(out.push_str(if count < most { "true" } else { "false" })?)
}

fn push_start(out: &mut String, start: Option<u64>) -> Result<(), AllocError> {
    match start {
        Some(place) => write!(out, " {place}"),
        None => out.push_str(" -"),
    }
}

fn push_found(out: &mut String, found: Result<Starts, CursorError>) -> Result<(), AllocError> {
    match found {
        Ok(starts) => {
            out.push_str("at")?;
            push_start(out, starts.video)?;
            push_start(out, starts.audio)?;
            push_start(out, starts.sub)?;
            write!(out, " from {:?}", starts.mark)
        }
        Err(error) => write!(out, "{error:?}"),
    }
}
