use crate::calls::{call_affected, call_fill, call_find, call_get, call_step, push_list};
use crate::lines::{call_long, call_octets, call_parse};
use crate::own::Own;
use crate::plays::call_play;
use mc_playlist::{ListReads, ListTable, Playlist};
use rows::{Json, RowError, Table, named, none};
use std::alloc::Global;

/// A list, and the table of its properties.
#[derive(Drop)]
pub struct PlaylistTable<F: ListReads<Own>> {
    table: ListTable<F, Own>,
    playlist: Playlist,
}

impl<F: ListReads<Own>> PlaylistTable<F> {
    /// An empty list.
    pub fn new(alloc: Global, table: ListTable<F, Own>) -> PlaylistTable<F> {
        PlaylistTable {
            table,
            playlist: Playlist::new(alloc),
        }
    }
}

#[derive(Clone, Copy)]
enum Word {
    New,
    Step,
    Fill,
    List,
    Get,
    Find,
    Affected,
    Parse,
    Octets,
    Long,
    Play,
}

const WORDS: [(&str, Word); 11] = [
    ("new", Word::New),
    ("step", Word::Step),
    ("fill", Word::Fill),
    ("list", Word::List),
    ("get", Word::Get),
    ("find", Word::Find),
    ("affected", Word::Affected),
    ("parse", Word::Parse),
    ("octets", Word::Octets),
    ("long", Word::Long),
    ("play", Word::Play),
];

impl<F: ListReads<Own>> Table for PlaylistTable<F> {
    fn call(
        &mut self,
        alloc: Global,
        name: &str,
        arguments: &[Json<'_>],
        out: &mut String,
    ) -> Result<(), RowError> {
        match named(&WORDS, name)? {
            Word::New => {
                none(arguments)?;
                self.playlist = Playlist::new(alloc);
                Ok(push_list(out, self.playlist.facts())?)
            }
            Word::Step => call_step(alloc, &mut self.playlist, arguments, out),
            Word::Fill => call_fill(alloc, &mut self.playlist, arguments, out),
            word => answer(alloc, &self.table, &self.playlist, word, arguments, out),
        }
    }
}

fn answer<F: ListReads<Own>>(
    alloc: Global,
    table: &ListTable<F, Own>,
    playlist: &Playlist,
    word: Word,
    arguments: &[Json<'_>],
    out: &mut String,
) -> Result<(), RowError> {
    match word {
        Word::List => Ok(push_list(out, playlist.facts())?),
        Word::Get => call_get(alloc, table, playlist.facts(), arguments, out),
        Word::Find => call_find(table, arguments, out),
        Word::Affected => call_affected(table, arguments, out),
        Word::Parse => call_parse(alloc, arguments, out),
        Word::Octets => call_octets(alloc, arguments, out),
        Word::Long => call_long(alloc, arguments, out),
        Word::Play => call_play(alloc, table, arguments, out),
        Word::New | Word::Step | Word::Fill => Err(RowError::BadRow),
    }
}
