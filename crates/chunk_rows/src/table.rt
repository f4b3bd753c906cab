use crate::chunks::reads_alike;
use crate::parts::parts_alike;
use mc_film::{FilmError, film};
use rows::{Json, RowError, Table, named, number_in, one, push_flag, three};
use rows_films::{Films, call_change, call_film};
use std::alloc::Global;
use std::fmt::Write;

/// The calls over films; `film` and `change` name one.
#[derive(Drop)]
pub struct ChunkTable {
    films: Films,
}

impl ChunkTable {
    pub fn new(alloc: Global) -> ChunkTable {
        ChunkTable {
            films: Films::new(alloc),
        }
    }
}

#[derive(Clone, Copy)]
enum Word {
    Film,
    Change,
    Whole,
    Chunks,
    Parts,
    EachCut,
}

const WORDS: [(&str, Word); 6] = [
    ("film", Word::Film),
    ("change", Word::Change),
    ("whole", Word::Whole),
    ("chunks", Word::Chunks),
    ("parts", Word::Parts),
    ("each_cut", Word::EachCut),
];

impl Table for ChunkTable {
    fn call(
        &mut self,
        alloc: Global,
        name: &str,
        arguments: &[Json<'_>],
        out: &mut String,
    ) -> Result<(), RowError> {
        let films = &mut self.films;
        match named(&WORDS, name)? {
            Word::Film => call_film(alloc, films, arguments, out),
            Word::Change => call_change(alloc, films, arguments, out),
            Word::Whole => call_whole(alloc, films, arguments, out),
            Word::Chunks => call_chunks(alloc, films, arguments, out),
            Word::Parts => call_parts(alloc, films, arguments, out),
            Word::EachCut => call_each_cut(alloc, films, arguments, out),
        }
    }
}

// How many packets a film has and how it ends, or why it is refused.
fn call_whole(
    alloc: Global,
    films: &Films,
    arguments: &[Json<'_>],
    out: &mut String,
) -> Result<(), RowError> {
    match film(alloc, films.octets(one(arguments)?)?) {
        Ok(film) => {
            let (packets, ending) = (film.packets.len(), film.ending);
            Ok(write!(out, "{packets} packets, {ending:?}")?)
        }
        Err(FilmError::Refused(refused)) => Ok(write!(out, "refused {refused:?}")?),
        Err(FilmError::NoMemory) => Err(RowError::NoMemory),
    }
}

fn call_chunks(
    alloc: Global,
    films: &Films,
    arguments: &[Json<'_>],
    out: &mut String,
) -> Result<(), RowError> {
    let alike = reads_alike(alloc, films.octets(one(arguments)?)?)?;
    Ok(push_flag(out, alike)?)
}

fn call_parts(
    alloc: Global,
    films: &Films,
    arguments: &[Json<'_>],
    out: &mut String,
) -> Result<(), RowError> {
    let alike = parts_alike(alloc, films.octets(one(arguments)?)?)?;
    Ok(push_flag(out, alike)?)
}

// A film is cut to each length from one up to another: how many of them are read on demand as they
// are read whole, and the first that is not.
fn call_each_cut(
    alloc: Global,
    films: &Films,
    arguments: &[Json<'_>],
    out: &mut String,
) -> Result<(), RowError> {
    let (film, from, to) = three(arguments)?;
    let octets = films.octets(film)?;
    let from = u16::try_from(number_in(from)?)?;
    let to = u16::try_from(number_in(to)?)?;
    for len in from..to {
        let front = octets.get(..len as usize).ok_or(RowError::BadRow)?;
        if !reads_alike(alloc, front)? {
            return Ok(write!(out, "cut to {len} it differs")?);
        }
    }
    Ok(write!(out, "alike from {from} to {to}")?)
}
