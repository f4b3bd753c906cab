ghost use Rattle.std.specs.Prelude.{◌≡◌};
ghost use Rattle.mc_client.specs.Law.{IsAllowed, IsStep, done_answer};
ghost use Rattle.mc_client.specs.Watches.{present};

use crate::client::Client;
use crate::refusal::{ClientError, Pushed};
use mc_props::meanings::Meaning;
use mc_props::{Facts, PropTable, Reads};
use mc_ring::{Event, QueueFull};
use mc_value::{Format, Text};

/// A call of a client, as data.
#[derive(Debug, Drop)]
pub enum ClientCall {
    /// A place for a reply is set aside.
    Request,
    /// A place is given back.
    Unreserve,
    /// An event is pushed.
    Push(Event),
    /// A reply is pushed.
    Reply(Event),
    /// The event of a number is switched on or off.
    Switch {
        number: u32,
        on: bool,
    },
    /// A property is observed.
    Observe {
        id: u64,
        name: Text,
        format: Format,
        entry: Option<u32>,
    },
    /// The observers of a number end.
    Unobserve(u64),
    /// The fields of a mask have changed.
    Flag(u32),
    /// The next event is taken.
    Poll,
}

/// The answer to a `ClientCall`.
#[derive(Debug, Drop)]
pub enum ClientAnswer {
    /// It was done.
    Done,
    /// No place was set aside.
    Full(QueueFull),
    /// It was refused.
    Refused(ClientError),
    /// What became of the event.
    Pushed(Pushed),
    /// How many observers ended.
    Removed(u32),
    /// The next event.
    Event(Event),
    /// There was no memory for the next event.
    NoMemory,
}

impl Client {
    /// Makes the call, and gives its answer: a step of `specs/Law.antt`, over which the law of a
    /// client's calls is stated at `Client::new`.
    pub fn apply<F: Reads<M>, M: Meaning>(
        &mut self,
        table: &PropTable<F, M>,
        facts: &Facts,
        call: ClientCall,
    ) -> ClientAnswer
        requires allowed { IsAllowed M.value table.now facts.now self.old call }
        ensures step { IsStep table.now (present M.value facts.now) self.old call result self.new }
    {
        match call {
            ClientCall::Request => match self.request() {
                Ok(()) => ClientAnswer::Done,
                Err(full) => ClientAnswer::Full(full),
            },
            ClientCall::Unreserve => {
                self.unreserve();
                ClientAnswer::Done
            }
            ClientCall::Push(event) => ClientAnswer::Pushed(self.push(event)),
            ClientCall::Reply(reply) => {
                self.reply(reply);
                ClientAnswer::Done
            }
            ClientCall::Switch { number, on } => done(self.request_event(number, on)),
            ClientCall::Observe {
                id,
                name,
                format,
                entry,
            } => done(self.observe(id, name, format, entry)),
            ClientCall::Unobserve(id) => ClientAnswer::Removed(self.unobserve(id)),
            ClientCall::Flag(mask) => {
                self.flag(table, mask);
                ClientAnswer::Done
            }
            ClientCall::Poll => match self.poll(table, facts) {
                Ok(event) => ClientAnswer::Event(event),
                Err(_) => ClientAnswer::NoMemory,
            },
        }
    }
}

fn done(made: Result<(), ClientError>) -> ClientAnswer
    ensures { result ≡ done_answer made }
{
    match made {
        Ok(()) => ClientAnswer::Done,
        Err(error) => ClientAnswer::Refused(error),
    }
}
