ghost use Rattle.std.specs.Coded.{codes};
ghost use Rattle.std.proofs.Props.{props};
ghost use Rattle.mc_value.specs.contracts.value.Value as value;
ghost use Rattle.mc_props.specs.Standard.{standard_of};
ghost use Rattle.mc_client.specs.Watches.{Fresh};

use crate::changes::{reach_end, set_pause};
use mc_client::{Client, ClientError, Pushed};
use mc_props::meanings::Standard;
use mc_props::{Facts, PropTable, Reads};
use mc_ring::{Event, QueueFull, RingError};
use mc_value::{Format, NoMemory, Text};
use std::alloc::Global;

/// A client, and the properties and facts for which it is fresh.
#[derive(Drop)]
pub struct Held<F: Reads<Standard>> {
    table: PropTable<F, Standard>,
    facts: Facts,
    client: Client,
    ghost fresh: { Fresh standard_of table facts client.watches } by { Prim.hlevel (props, codes, value.the_row.coded) },
}

// A file is loaded, of which nothing was read yet.
fn loaded(alloc: Global) -> Result<Facts, NoMemory> {
    let facts = Facts::new(alloc);
    Ok(Facts {
        path: Some(Text::new(alloc, "night.mkv")?),
        loaded: true,
        ..facts
    })
}

impl<F: Reads<Standard>> Held<F> {
    /// A client without a name, whose ring has one place.
    pub fn new(alloc: Global, table: PropTable<F, Standard>) -> Result<Held<F>, RingError> {
        let client = Client::new(alloc, Text::new(alloc, "")?, 1)?;
        Ok(Held {
            table,
            facts: loaded(alloc)?,
            client,
        })
    }

    /// Another client in its place.
    pub fn renew(&mut self, alloc: Global, name: Text, size: u32) -> Result<(), RingError> {
        let facts = loaded(alloc)?;
        let client = Client::new(alloc, name, size)?;
        self.facts = facts;
        self.client = client;
        Ok(())
    }

    /// The client, to read.
    pub fn client(&self) -> &Client {
        &self.client
    }

    /// The event that a poll would answer.
    pub fn next(&self) -> Result<Event, NoMemory> {
        self.client.next(&self.table, &self.facts)
    }

    /// Takes the next event.
    pub fn poll(&mut self) -> Result<Event, NoMemory> {
        self.client.poll(&self.table, &self.facts)
    }

    /// Observes a property.
    pub fn observe(&mut self, id: u64, name: Text, format: Format) -> Result<(), ClientError> {
        let entry = self.table.find(name.as_str());
        self.client.observe(id, name, format, entry)
    }

    /// Ends the observers of a number.
    pub fn unobserve(&mut self, id: u64) -> u32 {
        self.client.unobserve(id)
    }

    /// Pauses the player, or lets it go on.
    pub fn set_pause(&mut self, pause: bool) {
        set_pause(&mut self.client, &self.table, &mut self.facts, pause);
    }

    /// Lets the cache reach the end of its film.
    pub fn reach_end(&mut self) {
        reach_end(&mut self.client, &self.table, &mut self.facts);
    }

    /// Pushes an event; `None` where rings hold no such event.
    pub fn push(&mut self, event: Event) -> Option<Pushed> {
        if !event.enters_ring() {
            return None;
        }
        Some(self.client.push(event))
    }

    /// Switches the event of a number.
    pub fn request_event(&mut self, number: u32, on: bool) -> Result<(), ClientError> {
        self.client.request_event(number, on)
    }

    /// Sets a place aside.
    pub fn request(&mut self) -> Result<(), QueueFull> {
        self.client.request()
    }

    /// Gives a place back; whether there was one.
    pub fn unreserve(&mut self) -> bool {
        if self.client.reserved() == 0 {
            return false;
        }
        self.client.unreserve();
        true
    }

    /// Pushes the reply to a command; whether it had a place.
    pub fn reply(&mut self, id: u64, error: i32) -> bool {
        if self.client.reserved() == 0 {
            return false;
        }
        self.client.reply(Event::CommandReply { id, error });
        true
    }
}
