ghost use Rattle.std.specs.Prelude.{◌≡◌, IfOk};

use mc_value::{NoMemory, Text};
use std::alloc::{AllocError, AllocFailed};

/// A change of a list of films, after mpv's commands for its playlist. Places are counted from 0.
#[derive(Debug, Drop)]
pub enum ListStep {
    /// `add NAME`: the name goes last.
    Add(Text),
    /// `remove I`: entry I goes. The list's place falls by one where I is less; where it is I it
    /// stays, and is none at the end.
    Remove(u32),
    /// `move I J`: entry I goes before what was entry J, or last where J is the number of entries.
    /// The list's place stays with its entry.
    Move(u32, u32),
    /// `clear`: all entries but the one at the list's place go.
    Clear,
    /// `next`: the list's place rises by one, or is 0 from none.
    Next,
    /// `prev`: the list's place falls by one.
    Prev,
    /// `jump I`: the list's place is I.
    Jump(u32),
    /// The entry at the list's place was played: the place rises by one, or is none at the end.
    Played,
}

impl ListStep {
    /// An equal step.
    pub fn copy(&self) -> Result<ListStep, NoMemory>
        ensures { IfOk result (λ s. s ≡ self.now) }
    {
        Ok(match self {
            ListStep::Add(name) => ListStep::Add(name.copy()?),
            ListStep::Remove(at) => ListStep::Remove(*at),
            ListStep::Move(from, before) => ListStep::Move(*from, *before),
            ListStep::Clear => ListStep::Clear,
            ListStep::Next => ListStep::Next,
            ListStep::Prev => ListStep::Prev,
            ListStep::Jump(at) => ListStep::Jump(*at),
            ListStep::Played => ListStep::Played,
        })
    }
}

/// Why a list, a line of its script or a table of its properties refused what was asked.
#[derive(Clone, Copy, Debug, PartialEq, Eq)]
pub enum ListError {
    /// No property has the name.
    NotFound,
    /// No entry is at the place that was wanted.
    NoEntry {
        /// The place that was wanted, counted from 0.
        index: u32,
        /// How many entries there are.
        count: u32,
    },
    /// There are 10,000 entries already.
    TooMany,
    /// The script has more than 16,777,216 octets.
    TooLong,
    /// The script is not UTF-8.
    NotUtf8,
    /// The first line outside the grammar.
    BadLine {
        /// The line's number, counted from 1.
        line: u32,
    },
    /// There was no memory for the step or the answer.
    NoMemory,
}

impl From<AllocError> for ListError {
    ghost use Rattle.std.specs.Prelude.{◌≡◌};
    ghost use Rattle.mc_playlist.specs.declared.steps.ListError.TheVariants.{NoMemory};

    ghost from_gives = { λ _ e. e ≡ NoMemory };

    fn from(_error: AllocError) -> ListError {
        ListError::NoMemory
    }
}

impl<T: Drop> From<AllocFailed<T>> for ListError {
    ghost use Rattle.std.specs.Prelude.{◌≡◌};
    ghost use Rattle.mc_playlist.specs.declared.steps.ListError.TheVariants.{NoMemory};

    ghost from_gives = { λ _ e. e ≡ NoMemory };

    fn from(_failed: AllocFailed<T>) -> ListError {
        ListError::NoMemory
    }
}
