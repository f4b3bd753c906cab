use crate::calls::{call_affected, call_find, call_get, call_see, call_set};
use crate::facts::facts_named;
use crate::own::{OwnTable, Silence};
use mc_props::meanings::Standard;
use mc_props::{Facts, PropTable, Reads};
use rows::{Json, RowError, Table, named, none, one, text_in};
use std::alloc::Global;
use std::fmt::Write;

/// The calls of the table of standard properties; `own ..` are those of another one.
#[derive(Drop)]
pub struct PropsTable<F: Reads<Standard>, G: Reads<Silence>> {
    table: PropTable<F, Standard>,
    facts: Facts,
    own: OwnTable<G>,
}

impl<F: Reads<Standard>, G: Reads<Silence>> PropsTable<F, G> {
    /// The table at these facts, beside the other.
    pub fn new(table: PropTable<F, Standard>, facts: Facts, own: OwnTable<G>) -> PropsTable<F, G> {
        PropsTable { table, facts, own }
    }
}

#[derive(Clone, Copy)]
enum Word {
    Facts,
    Get,
    Set,
    See,
    Find,
    Entries,
    Affected,
}

const WORDS: [(&str, Word); 7] = [
    ("facts", Word::Facts),
    ("get", Word::Get),
    ("set", Word::Set),
    ("see", Word::See),
    ("find", Word::Find),
    ("entries", Word::Entries),
    ("affected", Word::Affected),
];

impl<F: Reads<Standard>, G: Reads<Silence>> Table for PropsTable<F, G> {
    fn call(
        &mut self,
        alloc: Global,
        name: &str,
        arguments: &[Json<'_>],
        out: &mut String,
    ) -> Result<(), RowError> {
        if let Some(word) = name.strip_prefix("own ") {
            return self.own.call(alloc, word, arguments, out);
        }
        match named(&WORDS, name)? {
            Word::Facts => {
                self.facts = facts_named(alloc, text_in(one(arguments)?)?)?;
                Ok(out.push_str("known")?)
            }
            word => answer(alloc, &self.table, &self.facts, word, arguments, out),
        }
    }
}

fn answer<F: Reads<Standard>>(
    alloc: Global,
    table: &PropTable<F, Standard>,
    facts: &Facts,
    word: Word,
    arguments: &[Json<'_>],
    out: &mut String,
) -> Result<(), RowError> {
    match word {
        Word::Get => call_get(alloc, table, facts, arguments, out),
        Word::Set => call_set(alloc, table, facts, arguments, out),
        Word::See => call_see(alloc, table, facts, arguments, out),
        Word::Find => call_find(table, arguments, out),
        Word::Entries => {
            none(arguments)?;
            Ok(write!(out, "{}", table.entries().len())?)
        }
        Word::Affected => call_affected(table, arguments, out),
        Word::Facts => Err(RowError::BadRow),
    }
}
