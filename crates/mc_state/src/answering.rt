//! Calls that are answered at once.
ghost use Rattle.std.specs.Prelude.{◌≡◌, ◌<◌, ◌≤◌, IfOk, OnErr, OnOk, None as Nothing};
ghost use Rattle.slab.specs.Slab.{ContainsKey};
ghost use Rattle.mc_dispatch.specs.declared.call.Call.TheVariants as call;
ghost use Rattle.mc_player.specs.Rules.{done_if};
ghost use Rattle.mc_player.specs.declared.record.Answer.TheVariants as answer;
ghost use Rattle.mc_player.specs.declared.record.CoreRecord.TheVariants.{Called};
ghost use Rattle.mc_state.specs.Steps.{IsAsBefore, Wrote};
ghost use Rattle.mc_state.specs.Stands.{IsQuiet};

use crate::state::State;
use mc_deeds::{next_at, observe_at, poll_at, switch_at, unobserve_at};
use mc_dispatch::{Call, ClientNo};
use mc_player::{Answer, CoreRecord};
use mc_props::Reads;
use mc_props::meanings::Meaning;
use mc_ring::Event;
use mc_value::{Format, NoMemory, Text};

/// The answer to a call that was done, or refused with -4.
pub fn done_if(done: bool) -> Answer
    ensures { result ≡ done_if done }
{
    if done {
        Answer::Ok
    } else {
        Answer::Refused(-4)
    }
}

impl<F: Reads<M>, M: Meaning> State<F, M> {
    /// Makes room for so many records more.
    pub fn make_room(&mut self, count: usize) -> Result<(), NoMemory>
        ensures same { IsAsBefore self.old self.new }
        ensures ok { OnOk result (count ≤ self.new.spare) }
    {
        self.journal.reserve(count)
    }

    /// The next event of a client.
    pub fn poll(&mut self, by: u32, c: ClientNo) -> Result<Event, NoMemory>
        requires quiet { IsQuiet M.value self.old }
        requires lives { ContainsKey self.old.clients c.0 }
        requires room { 0 < self.old.spare }
        ensures still { (self.new.out ≡ self.old.out) × (self.new.facts ≡ self.old.facts) }
        ensures ok { IfOk result
            (λ e. Wrote self.old self.new (Called by c Nothing call.Poll (answer.Event e))) }
        ensures err { OnErr result (IsAsBefore self.old self.new) }
    {
        let at = c.0 as usize;
        let told = next_at(&self.clients, &self.table, &self.facts, at)?;
        let event = poll_at(&mut self.clients, &self.table, &self.facts, at)?;
        self.journal.push_reserved(CoreRecord::Called {
            by,
            client: c,
            ticket: None,
            call: Call::Poll,
            answer: Answer::Event(told),
        });
        Ok(event)
    }

    /// A client observes a property; not so where it has 1,000 observers.
    pub fn observe(
        &mut self,
        by: u32,
        c: ClientNo,
        id: u64,
        name: Text,
        format: Format,
    ) -> Result<bool, NoMemory>
        requires quiet { IsQuiet M.value self.old }
        requires lives { ContainsKey self.old.clients c.0 }
        requires room { 0 < self.old.spare }
        ensures still { (self.new.out ≡ self.old.out) × (self.new.facts ≡ self.old.facts) }
        ensures ok { IfOk result (λ b. Wrote self.old self.new
            (Called by c Nothing (call.Observe id name format) (done_if b))) }
        ensures err { OnErr result (IsAsBefore self.old self.new) }
    {
        let told = name.copy()?;
        let entry = self.table.find(name.as_str());
        let at = c.0 as usize;
        let done = observe_at(&mut self.clients, at, id, name, format, entry)?;
        self.journal.push_reserved(CoreRecord::Called {
            by,
            client: c,
            ticket: None,
            call: Call::Observe {
                id,
                name: told,
                format,
            },
            answer: done_if(done),
        });
        Ok(done)
    }

    /// A client's observers of a number end. It answers how many there were.
    pub fn unobserve(&mut self, by: u32, c: ClientNo, id: u64) -> u32
        requires quiet { IsQuiet M.value self.old }
        requires lives { ContainsKey self.old.clients c.0 }
        requires room { 0 < self.old.spare }
        ensures still { (self.new.out ≡ self.old.out) × (self.new.facts ≡ self.old.facts) }
        ensures wrote { Wrote self.old self.new
            (Called by c Nothing (call.Unobserve id) (answer.Removed result)) }
    {
        let count = unobserve_at(&mut self.clients, c.0 as usize, id);
        self.journal.push_reserved(CoreRecord::Called {
            by,
            client: c,
            ticket: None,
            call: Call::Unobserve { id },
            answer: Answer::Removed(count),
        });
        count
    }

    /// The events of a number are switched on or off for a client; not so where none can be.
    pub fn switch(&mut self, by: u32, c: ClientNo, number: u32, on: bool) -> Result<bool, NoMemory>
        requires quiet { IsQuiet M.value self.old }
        requires lives { ContainsKey self.old.clients c.0 }
        requires room { 0 < self.old.spare }
        ensures still { (self.new.out ≡ self.old.out) × (self.new.facts ≡ self.old.facts) }
        ensures ok { IfOk result (λ b. Wrote self.old self.new
            (Called by c Nothing (call.Event number on) (done_if b))) }
        ensures err { OnErr result (IsAsBefore self.old self.new) }
    {
        let done = switch_at(&mut self.clients, c.0 as usize, number, on)?;
        self.journal.push_reserved(CoreRecord::Called {
            by,
            client: c,
            ticket: None,
            call: Call::Event { number, on },
            answer: done_if(done),
        });
        Ok(done)
    }
}
