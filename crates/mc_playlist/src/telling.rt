//! The text of a script, record by record.

ghost use Rattle.std.specs.Prelude.{◌≡◌, ◌++◌, [], OnOk, string_bytes};
ghost use Rattle.mc_playlist.specs.Fields.{AgreeOutside, act_fields};
ghost use Rattle.mc_playlist.specs.Records.{acted, after_act};
ghost use Rattle.mc_playlist.specs.Steps.{IsList};
ghost use Rattle.mc_playlist.specs.Telling.{Tells, told_of};
ghost use Rattle.mc_playlist.specs.Text.{film_of, nothing_told, refused_text, runs_left, watches_after, watches_left};
ghost use Rattle.mc_playlist.specs.Watches.{Current, KeepsCurrent, watched};

use crate::acts::ListAct;
use crate::facts::ListFacts;
use crate::meanings::ListMeaning;
use crate::places::place_or_first;
use crate::playlist::Playlist;
use crate::reads::ListReads;
use crate::steps::ListError;
use crate::table::ListTable;
use crate::text::{FilmRun, push_changes, push_played};
use crate::watches::Watches;
use mc_value::NoMemory;
use std::alloc::{AllocError, Global};

/// A script's text so far, and what is known behind its last line.
#[derive(Drop)]
pub struct Telling<'r> {
    /// The list.
    pub playlist: Playlist,
    /// What is watched, and what was last told of it.
    pub watches: Watches,
    /// The runs of the films still to come.
    pub runs: &'r [FilmRun],
    /// The text.
    pub text: String,
}

impl<'r> Telling<'r> {
    /// At the script's start.
    pub fn new(alloc: Global, runs: &'r [FilmRun]) -> Telling<'r>
        ensures known { told_of result ≡ nothing_told runs.now }
        ensures text { string_bytes result.text ≡ [] }
    {
        Telling {
            playlist: Playlist::new(alloc),
            watches: Watches::new(alloc),
            runs,
            text: String::new(alloc),
        }
    }

    /// Appends the lines of a line of the script.
    pub fn tell<F: ListReads<M>, M: ListMeaning>(
        &mut self,
        alloc: Global,
        table: &ListTable<F, M>,
        act: &ListAct,
    ) -> Result<(), NoMemory>
        requires { Current M.value table.now self.old.playlist self.old.watches }
        ensures { OnOk result (Tells M.value table.now act.now self.old self.new) }
    {
        let place = film_of(act, self.playlist.facts());
        push_played(
            alloc,
            &mut self.text,
            place,
            self.playlist.facts(),
            self.runs,
        )?;
        self.runs = runs_left(place, self.runs);
        perform(&mut self.text, &mut self.playlist, table, act)?;
        watch(&mut self.watches, table, act)?;
        let changes = self
            .watches
            .changes(table, self.playlist.facts(), act.fields())?;
        push_changes(alloc, &mut self.text, changes.as_slice())
    }
}

// The place of the film that a line plays.
fn film_of(act: &ListAct, facts: &ListFacts) -> Option<u32>
    requires { IsList facts.now }
    ensures { result ≡ film_of act.now facts.now }
{
    match act {
        ListAct::Play => facts.pos,
        ListAct::PlayAll => place_or_first(facts.pos, facts.names.as_slice().len() as u32),
        ListAct::Step(_) | ListAct::Watch(_) => None,
    }
}

// The runs without the first, where a film was played.
fn runs_left<'r>(place: Option<u32>, runs: &'r [FilmRun]) -> &'r [FilmRun]
    ensures { result.now ≡ runs_left place runs.now }
{
    match (place, runs) {
        (Some(_), [_, rest @ ..]) => rest,
        _ => runs,
    }
}

// Does what a line asks of the list, and says where it is refused.
fn perform<F: ListReads<M>, M: ListMeaning>(
    text: &mut String,
    playlist: &mut Playlist,
    table: &ListTable<F, M>,
    act: &ListAct,
) -> Result<(), NoMemory>
    ensures list { OnOk result (playlist.new ≡ after_act table.now playlist.old act.now) }
    ensures text { OnOk result (string_bytes text.new ≡
        string_bytes text.old ++ refused_text (acted table.now act.now playlist.old)) }
    ensures fields { AgreeOutside (act_fields act.now) playlist.old playlist.new }
{
    match playlist.act(table, act) {
        Ok(()) => Ok(()),
        Err(ListError::NoMemory) => Err(AllocError),
        Err(_) => text.push_str("refused\n"),
    }
}

// Watches what a line asks for; a name that the table lacks is refused elsewhere.
fn watch<F: ListReads<M>, M: ListMeaning>(
    watches: &mut Watches,
    table: &ListTable<F, M>,
    act: &ListAct,
) -> Result<(), NoMemory>
    ensures watches { OnOk result (watches.new ≡ watches_after table.now act.now watches.old) }
    ensures current { KeepsCurrent M.value table.now watches.old watches.new }
{
    match act {
        ListAct::Watch(name) => watch_name(watches, table, name.as_str()),
        ListAct::Step(_) | ListAct::Play | ListAct::PlayAll => Ok(()),
    }
}

fn watch_name<F: ListReads<M>, M: ListMeaning>(
    watches: &mut Watches,
    table: &ListTable<F, M>,
    name: &str,
) -> Result<(), NoMemory>
    ensures watches { OnOk result (watches.new ≡
        watches_left (watched table.now name.now watches.old) watches.old) }
    ensures current { KeepsCurrent M.value table.now watches.old watches.new }
{
    match watches.watch(table, name) {
        Ok(()) => Ok(()),
        Err(ListError::NoMemory) => Err(AllocError),
        Err(_) => Ok(()),
    }
}
