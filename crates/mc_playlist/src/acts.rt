ghost use Rattle.std.specs.Prelude.{◌≡◌, IfOk};
ghost use Rattle.mc_playlist.specs.Fields.{act_fields, step_fields};

use crate::fields::{NAMES, PLAYS, POS};
use crate::steps::{ListError, ListStep};
use mc_value::{NoMemory, Text};
use sqlite_items::Items;

/// What a line of a list's script asks for.
#[derive(Debug, Drop)]
pub enum ListAct {
    /// A line that changes the list.
    Step(ListStep),
    /// `play`: the film at the list's place is run, and then was played.
    Play,
    /// `play all`: films are played from the list's place on, or from the first where it has none,
    /// until it has none.
    PlayAll,
    /// `watch NAME`: the property's changes are told from now on.
    Watch(Text),
}

/// The lines of a list's script that ask for something, in order: the number of the line, counted
/// from 1 over all lines, and what it asks for.
pub type ListScript = Items<(u32, ListAct)>;

/// What became of a line. A `play all` that isn't refused has a record for each film.
#[derive(Debug, Drop)]
pub struct ListRecord {
    /// The line's number, counted from 1.
    pub line: u32,
    /// What it asked for.
    pub act: ListAct,
    /// Why it was refused, where it was.
    pub refused: Option<ListError>,
}

/// What became of the lines of a script, in order.
pub type ListJournal = Items<ListRecord>;

impl ListStep {
    /// The fields of the list's facts (`fields`) that the step may change.
    pub fn fields(&self) -> u32
        ensures { result ≡ step_fields self.now }
    {
        match self {
            ListStep::Add(_) => NAMES,
            ListStep::Remove(_) | ListStep::Move(..) | ListStep::Clear => NAMES | POS,
            ListStep::Next | ListStep::Prev | ListStep::Jump(_) => POS,
            ListStep::Played => POS | PLAYS,
        }
    }
}

impl ListAct {
    /// An equal act.
    pub fn copy(&self) -> Result<ListAct, NoMemory>
        ensures { IfOk result (λ a. a ≡ self.now) }
    {
        Ok(match self {
            ListAct::Step(step) => ListAct::Step(step.copy()?),
            ListAct::Play => ListAct::Play,
            ListAct::PlayAll => ListAct::PlayAll,
            ListAct::Watch(name) => ListAct::Watch(name.copy()?),
        })
    }

    /// The fields of the list's facts (`fields`) that the line may change.
    pub fn fields(&self) -> u32
        ensures { result ≡ act_fields self.now }
    {
        match self {
            ListAct::Step(step) => step.fields(),
            ListAct::Play | ListAct::PlayAll => POS | PLAYS,
            ListAct::Watch(_) => 0,
        }
    }
}
