ghost use Rattle.std.specs.Prelude.{◌≡◌, ◌↔◌, IsTrue, IfOk, Option};
ghost use Rattle.mc_client.specs.Polls.{change_of};
ghost use Rattle.mc_client.specs.Watches.{Shown};

use mc_ring::Event;
use mc_value::{Format, NoMemory, Text, Value};
use std::alloc::Global;

/// A property that a client observes.
#[derive(Debug, Drop)]
pub struct Watch {
    /// The observer's number.
    pub id: u64,
    /// The property's name, and behind a slash the path into its value.
    pub name: Text,
    /// The format in which its value is given.
    pub format: Format,
    /// The place of the property in the table, if there is one of its name.
    pub entry: Option<u32>,
    /// Whether its value may be another one than was last given.
    pub flagged: bool,
    /// The format and the value that were last given.
    pub given: Option<(Format, Value)>,
}

impl Watch {
    /// Whether these were the last that it was given.
    pub fn was_given(&self, shown: &(Format, Value)) -> bool
        ensures { IsTrue result ↔ (self.now.given ≡ Option.Some shown.now) }
    {
        match &self.given {
            Some((format, value)) => *format == shown.0 && value.equals(&shown.1),
            None => false,
        }
    }

    /// The event that tells it of these.
    pub fn change(&self, alloc: Global, shown: &(Format, Value)) -> Result<Event, NoMemory>
        ensures { IfOk result (λ e. e ≡ change_of self.now shown.now) }
    {
        Ok(Event::Change {
            id: self.id,
            name: self.name.copy()?,
            format: shown.0,
            value: shown.1.copy(alloc)?,
        })
    }
}
