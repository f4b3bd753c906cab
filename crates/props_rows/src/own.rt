use crate::calls::{call_get, call_set};
use crate::facts::facts_named;
use mc_props::{Facts, Meaning, PropEntries, PropEntry, PropTable, Reads, fields};
use mc_value::{NoMemory, Text};
use rows::{Json, RowError, Table, named, one, text_in};
use std::alloc::Global;

/// A front end's own property, which says whether nothing can be heard.
#[derive(Drop)]
pub struct Silence;

impl Meaning for Silence {
    ghost use Rattle.mc_value.specs.declared.value.Value.TheVariants as value;
    ghost use Rattle.mc_props.specs.declared.reading.Reading.TheVariants.{Is};

    ghost value = { λ place f. Is (value.Flag f.mute) };
}

/// The calls of a table of that property alone, under the name `silent`.
#[derive(Drop)]
pub struct OwnTable<G: Reads<Silence>> {
    table: PropTable<G, Silence>,
    facts: Facts,
}

impl<G: Reads<Silence>> OwnTable<G> {
    /// The table of the reader, at the first facts of a player.
    pub fn new(alloc: Global, reader: G) -> Result<OwnTable<G>, NoMemory>
        requires { G.answers reader 0 }
    {
        let mut entries = PropEntries::new(alloc);
        entries.push(PropEntry {
            name: Text::new(alloc, "silent")?,
            mask: fields::MUTE,
            writable: false,
        })?;
        Ok(OwnTable {
            table: PropTable::new(alloc, entries, reader),
            facts: Facts::new(alloc),
        })
    }
}

#[derive(Clone, Copy)]
enum Word {
    Facts,
    Get,
    Set,
}

const WORDS: [(&str, Word); 3] = [
    ("facts", Word::Facts),
    ("get", Word::Get),
    ("set", Word::Set),
];

impl<G: Reads<Silence>> Table for OwnTable<G> {
    fn call(
        &mut self,
        alloc: Global,
        name: &str,
        arguments: &[Json<'_>],
        out: &mut String,
    ) -> Result<(), RowError> {
        match named(&WORDS, name)? {
            Word::Facts => {
                self.facts = facts_named(alloc, text_in(one(arguments)?)?)?;
                Ok(out.push_str("known")?)
            }
            Word::Get => call_get(alloc, &self.table, &self.facts, arguments, out),
            Word::Set => call_set(alloc, &self.table, &self.facts, arguments, out),
        }
    }
}
