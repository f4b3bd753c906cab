//! What follows a taken request or an outcome, made ready before anything changes.
ghost use Rattle.std.specs.Prelude.{◌≡◌, IfOk, length};
ghost use Rattle.std.specs.List.{AllByRecursion};
ghost use Rattle.mc_ring.specs.declared.event.Event.TheVariants as event;
ghost use Rattle.mc_deeds.specs.Follow.{IsTwice};

use mc_dispatch::ClientNo;
use mc_props::Facts;
use mc_ring::Event;
use mc_value::{NoMemory, Words, copy_words};
use std::alloc::Global;

/// An event for a ring, and an equal one for the journal.
#[derive(Debug, Drop)]
pub struct Twice {
    /// The one that is pushed.
    pub event: Event,
    /// The one that the journal keeps.
    pub told: Event,
}

/// What follows, with the memory that it takes.
#[derive(Drop)]
pub enum Follow {
    /// Nothing.
    Nothing,
    /// The facts are written, of which the mask's fields changed.
    Writes {
        /// The fields, as bits.
        mask: u32,
        /// The facts.
        facts: Facts,
    },
    /// Words go to each client.
    Sends {
        /// The words.
        words: Words,
        /// One for each client.
        events: Vec<Twice>,
    },
    /// Words go to one client.
    SendsTo {
        /// The client.
        client: ClientNo,
        /// The words.
        event: Twice,
    },
    /// The player ends.
    Quits,
    /// A file was opened.
    Loads {
        /// The facts with it.
        facts: Facts,
    },
    /// A seek was served.
    Seeks,
}

/// A message, twice.
pub(crate) fn message(alloc: Global, words: &Words) -> Result<Twice, NoMemory>
    ensures { IfOk result (λ p. IsTwice (event.Message words.now) p) }
{
    let event = copy_words(alloc, words.as_slice())?;
    let told = copy_words(alloc, words.as_slice())?;
    Ok(Twice {
        event: Event::Message { words: event },
        told: Event::Message { words: told },
    })
}

/// A message for each of so many clients.
pub(crate) fn messages(alloc: Global, words: &Words, count: usize) -> Result<Vec<Twice>, NoMemory>
    ensures all { IfOk result (λ ps. AllByRecursion (IsTwice (event.Message words.now)) ps.items) }
    ensures long { IfOk result (λ ps. length ps.items ≡ count) }
{
    let mut events = Vec::with_capacity(alloc, count)?;
    for _ in 0..count {
        events.push(message(alloc, words)?)?;
    }
    Ok(events)
}
