ghost use Rattle.std.specs.Prelude.{◌≡◌, IfOk, false};
ghost use Rattle.mc_playlist.specs.Watches.{change_to, is_due, same_reading, was_given};

use crate::table::mask_at;
use mc_props::fields::share_field;
use mc_props::{PropEntry, Reading};
use mc_value::{NoMemory, Text};
use sqlite_items::Items;
use std::alloc::Global;

/// A property that is watched.
#[derive(Debug, Drop)]
pub struct Watched {
    /// Its name.
    pub name: Text,
    /// The place of its entry in the table.
    pub place: u32,
    /// What it showed when that was last told, if it ever was.
    pub given: Option<Reading>,
}

/// A watched property and what it shows now.
#[derive(Debug, Drop)]
pub struct Change {
    /// The property's name.
    pub name: Text,
    /// What it shows.
    pub reading: Reading,
}

/// Changes of watched properties, in the order of watching.
pub type Changes = Items<Change>;

impl Watched {
    /// Whether it was never given, or may show something else where fields of a mask change, in a
    /// table of these entries.
    pub fn is_due(&self, entries: &[PropEntry], mask: u32) -> bool
        ensures { result ≡ is_due entries.now mask self.now }
    {
        self.given.is_none() || share_field(mask_at(entries, self.place), mask)
    }

    /// Whether this was what it was last given.
    pub fn was_given(&self, reading: &Reading) -> bool
        ensures { result ≡ was_given self.now.given reading.now }
    {
        match &self.given {
            Some(given) => are_same(given, reading),
            None => false,
        }
    }

    /// The change that tells that it shows this.
    pub fn change(&self, alloc: Global, reading: &Reading) -> Result<Change, NoMemory>
        ensures { IfOk result (λ c. c ≡ change_to self.now reading.now) }
    {
        Ok(Change {
            name: self.name.copy()?,
            reading: copy_reading(alloc, reading)?,
        })
    }
}

fn are_same(reading: &Reading, other: &Reading) -> bool
    ensures { result ≡ same_reading reading.now other.now }
{
    match (reading, other) {
        (Reading::Is(value), Reading::Is(own)) => value.equals(own),
        (Reading::Unavailable, Reading::Unavailable) => true,
        _ => false,
    }
}

fn copy_reading(alloc: Global, reading: &Reading) -> Result<Reading, NoMemory>
    ensures { IfOk result (λ r. r ≡ reading.now) }
{
    match reading {
        Reading::Is(value) => Ok(Reading::Is(value.copy(alloc)?)),
        Reading::Unavailable => Ok(Reading::Unavailable),
    }
}
