use crate::looks::call_looks;
use crate::sweeps::{Sweep, call_sweep};
use rows::{Json, RowError, Table, named};
use rows_films::{Films, call_film};
use std::alloc::Global;

/// The calls over films; `film` names one.
#[derive(Drop)]
pub struct SweepTable {
    films: Films,
}

impl SweepTable {
    pub fn new(alloc: Global) -> SweepTable {
        SweepTable {
            films: Films::new(alloc),
        }
    }
}

#[derive(Clone, Copy)]
enum Word {
    Film,
    Looks,
    Each(Sweep),
}

const WORDS: [(&str, Word); 7] = [
    ("film", Word::Film),
    ("looks", Word::Looks),
    ("each_told", Word::Each(Sweep::Told)),
    ("each_sought", Word::Each(Sweep::Sought)),
    ("each_told_twice", Word::Each(Sweep::ToldTwice)),
    ("each_written", Word::Each(Sweep::Written)),
    ("each_cut", Word::Each(Sweep::Cut)),
];

impl Table for SweepTable {
    fn call(
        &mut self,
        alloc: Global,
        name: &str,
        arguments: &[Json<'_>],
        out: &mut String,
    ) -> Result<(), RowError> {
        let films = &mut self.films;
        match named(&WORDS, name)? {
            Word::Film => call_film(alloc, films, arguments, out),
            Word::Looks => call_looks(alloc, films, arguments, out),
            Word::Each(sweep) => call_sweep(alloc, films, sweep, arguments, out),
        }
    }
}
