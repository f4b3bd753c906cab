use crate::calls::{call_bad, call_end_of, call_lines, call_run, call_spot};
use crate::exits::call_says;
use rows::{Json, RowError, Table, named};
use rows_films::{Films, call_change, call_film};
use std::alloc::Global;

/// The calls over films; `film` and `change` name one.
#[derive(Drop)]
pub struct RunTable {
    films: Films,
}

impl RunTable {
    pub fn new(alloc: Global) -> RunTable {
        RunTable {
            films: Films::new(alloc),
        }
    }
}

#[derive(Clone, Copy)]
enum Word {
    Film,
    Change,
    Run,
    Spot,
    Bad,
    Lines,
    EndOf,
    Says,
}

const WORDS: [(&str, Word); 8] = [
    ("film", Word::Film),
    ("change", Word::Change),
    ("run", Word::Run),
    ("spot", Word::Spot),
    ("bad", Word::Bad),
    ("lines", Word::Lines),
    ("end_of", Word::EndOf),
    ("says", Word::Says),
];

impl Table for RunTable {
    fn call(
        &mut self,
        alloc: Global,
        name: &str,
        arguments: &[Json<'_>],
        out: &mut String,
    ) -> Result<(), RowError> {
        let films = &mut self.films;
        match named(&WORDS, name)? {
            Word::Film => call_film(alloc, films, arguments, out),
            Word::Change => call_change(alloc, films, arguments, out),
            Word::Run => call_run(alloc, films, arguments, out),
            Word::Spot => call_spot(alloc, films, arguments, out),
            Word::Bad => call_bad(alloc, films, arguments, out),
            Word::Lines => call_lines(alloc, films, arguments, out),
            Word::EndOf => call_end_of(alloc, films, arguments, out),
            Word::Says => call_says(arguments, out),
        }
    }
}
