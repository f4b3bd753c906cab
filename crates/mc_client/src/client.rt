ghost use Rattle.std.specs.Prelude.{◌≡◌, ◌<◌, ◌≤◌, ◌⊎◌, ◌↔◌, true, false, length, filter, Err, IsTrue, IsOk, IfOk, OnOk, OnErr, All};
ghost use Rattle.mc_ring.specs.Event.{enters_ring};
ghost use Rattle.mc_ring.specs.Ring.{is_full, reserve_answer};
ghost use Rattle.mc_ring.specs.declared.ring.RingError.TheVariants.{BadSize};
ghost use Rattle.mc_client.specs.Client.{IsClient, Switches, after_flag, after_observe, after_push_of, after_reply_of, after_request, after_return, after_switch, after_unobserve, can_switch, has_off, is_reply, new_client, push_answer_of};
ghost use Rattle.mc_client.specs.Law.{KeepsLaw};
ghost use Rattle.mc_client.specs.Polls.{IsQuietAt, IsSolePoll, Polled, WouldPoll};
ghost use Rattle.mc_client.specs.Seen.{now_of, poll_of, seen_after, seen_by};
ghost use Rattle.mc_client.specs.Watches.{Fresh, IsPlaced, KeepsFresh, KeepsFreshAt, Refreshes, has_id, new_watch, present};
ghost use Rattle.mc_client.specs.declared.refusal.ClientError.TheVariants.{InvalidParameter};

use crate::refusal::{ClientError, Pushed};
use crate::watch::Watch;
use crate::watches::{flag_watches, next_change, poll_watches};
use indexmap::IndexSet;
use mc_props::meanings::Meaning;
use mc_props::{Facts, PropTable, Reads};
use mc_ring::{Event, QueueFull, Ring, RingError};
use mc_value::{Format, NoMemory, Text};
use std::alloc::Global;
use std::marker::Model;

const MAX_WATCHES: usize = 1_000;

/// A client: its ring, its observers, and the events that it switched off.
#[derive(Drop)]
pub struct Client {
    // both are set by `new`, and then read alone
    alloc: Global,
    name: Text,
    // written by requests, pushes, replies and polls
    ring: Ring,
    // `observe` adds one, `unobserve` takes some out, `flag` raises flags, and a poll clears them
    // and notes what it gives; at most 1,000
    watches: Vec<Watch>,
    // the numbers that `request_event` switched off and not on again
    off: IndexSet<u32>,
}

impl Model for Client {
    ghost use Rattle.std.specs.Prelude.{◌≤◌, length};
    ghost use Rattle.std.specs.Coded.{codes};
    ghost use Rattle.mc_value.specs.contracts.value.Value as value;
    ghost use Rattle.mc_client.specs.Client.{ClientState};

    ghost Value = { ClientState };

    ghost coded = { Prim.hlevel (codes, value.the_row.coded) };

    ghost view = { λ c. record {
      name = c.name;
      ring = c.ring;
      watches = c.watches.items;
      off = c.off.keys;
    } };

    ghost invariant = { λ c. length c.watches.items ≤ 1000 };
}

impl Client {
    /// A client of this name that observes nothing and has switched nothing off. Its ring has room
    /// for `size` events and places set aside, from 1 to 100,000.
    ///
    /// Of every list of calls that follow, with their answers: each is at most one call of the
    /// ring, of which the ring's law holds. So polls give events in the order in which they were
    /// kept, a reply that was accepted was polled or is held, each accepted request has its place
    /// until its reply comes, and an overflow is polled between an event that was dropped and the
    /// next that is kept.
    pub fn new(alloc: Global, name: Text, size: u32) -> Result<Client, RingError>
        ensures bad_size { (result ≡ Err BadSize) ↔ ((size ≡ 0) ⊎ (100000 < size)) }
        ensures made { IfOk result (λ c. c ≡ new_client name size) }
        ensures law { IfOk result (λ c. KeepsLaw size c) }
    {
        let ring = Ring::new(alloc, size)?;
        Ok(Client {
            alloc,
            name,
            ring,
            watches: Vec::new(alloc),
            off: IndexSet::new(alloc),
        })
    }

    /// Its name.
    pub fn name(&self) -> &Text
        ensures { result.now ≡ self.now.name }
    {
        &self.name
    }

    /// Whether the ring refuses a request and drops an event: no place is free, or an overflow is
    /// still to be polled.
    pub fn is_full(&self) -> bool
        ensures value { result ≡ is_full self.now.ring }
        ensures client { IsClient self.now }
    {
        self.ring.is_full()
    }

    /// The places that are set aside for replies.
    pub fn reserved(&self) -> u32
        ensures { result ≡ self.now.ring.reserved }
    {
        self.ring.reserved()
    }

    /// Whether the events of a number are switched off.
    pub fn is_off(&self, number: u32) -> bool
        ensures { result ≡ has_off self.now number }
    {
        self.off.contains(&number)
    }

    /// Sets a place in the ring aside for the reply to a request. It is refused exactly where the
    /// ring refuses one; the client then stays as it was.
    pub fn request(&mut self) -> Result<(), QueueFull>
        ensures value { result ≡ reserve_answer self.old.ring }
        ensures after { self.new ≡ after_request self.old }
        ensures name { self.new.name ≡ self.old.name }
        ensures watches { self.new.watches ≡ self.old.watches }
    {
        self.ring.reserve()
    }

    /// Gives a place that was set aside back, where its request comes to nothing.
    pub fn unreserve(&mut self)
        requires has_place { 0 < self.old.ring.reserved }
        ensures after { self.new ≡ after_return self.old }
        ensures name { self.new.name ≡ self.old.name }
        ensures watches { self.new.watches ≡ self.old.watches }
    {
        self.ring.unreserve();
    }

    /// Takes an event in, behind the others. An event that is switched off is handed back, and
    /// nothing else changes; another one is dropped exactly where the ring drops it.
    pub fn push(&mut self, event: Event) -> Pushed
        requires kind { IsTrue (enters_ring event) }
        ensures value { result ≡ push_answer_of self.old event }
        ensures after { self.new ≡ after_push_of self.old event }
        ensures name { self.new.name ≡ self.old.name }
        ensures watches { self.new.watches ≡ self.old.watches }
    {
        if self.off.contains(&event.number()) {
            return Pushed::Off(event);
        }
        match self.ring.push_event(event) {
            mc_ring::Pushed::Kept => Pushed::Kept,
            mc_ring::Pushed::Dropped(event) => Pushed::Dropped(event),
        }
    }

    /// Takes a reply in, behind the events, at a place that was set aside, which it uses up.
    pub fn reply(&mut self, reply: Event)
        requires has_place { 0 < self.old.ring.reserved }
        requires kind { IsTrue (is_reply reply) }
        ensures after { self.new ≡ after_reply_of self.old reply }
        ensures name { self.new.name ≡ self.old.name }
        ensures watches { self.new.watches ≡ self.old.watches }
    {
        self.ring.push_reply(reply);
    }

    /// Switches the event of a number on or off: 6, 7 or 8 of a file, 16 for messages, 20 or 21 of
    /// a seek. Each is on in a new client, and then as the last such call with its number has it.
    /// After an error the client is as before.
    pub fn request_event(&mut self, number: u32, on: bool) -> Result<(), ClientError>
        ensures refused { (result ≡ Err InvalidParameter) ↔ (can_switch number ≡ false) }
        ensures after { OnOk result (self.new ≡ after_switch self.old number on) }
        ensures switched { OnOk result (Switches self.old self.new number on) }
        ensures err { OnErr result (self.new ≡ self.old) }
        ensures name { self.new.name ≡ self.old.name }
        ensures watches { self.new.watches ≡ self.old.watches }
    {
        if !can_switch(number) {
            return Err(ClientError::InvalidParameter);
        }
        if on {
            self.switch_on(number);
            return Ok(());
        }
        self.switch_off(number)?;
        Ok(())
    }

    fn switch_on(&mut self, number: u32)
        ensures after { self.new ≡ after_switch self.old number true }
        ensures switched { Switches self.old self.new number true }
    {
        self.off.shift_remove(&number);
    }

    fn switch_off(&mut self, number: u32) -> Result<(), NoMemory>
        ensures after { OnOk result (self.new ≡ after_switch self.old number false) }
        ensures switched { OnOk result (Switches self.old self.new number false) }
        ensures err { OnErr result (self.new ≡ self.old) }
    {
        self.off.insert(number)?;
        Ok(())
    }

    /// Observes a property in a format, under a number; `entry` is the place of its name in the
    /// table. It is flagged, so that a poll gives its value. `InvalidParameter` comes exactly where
    /// there are 1,000 observers; after an error the client is as before.
    pub fn observe(
        &mut self,
        id: u64,
        name: Text,
        format: Format,
        entry: Option<u32>,
    ) -> Result<(), ClientError>
        ensures refused { (result ≡ Err InvalidParameter) ↔ (1000 ≤ length self.old.watches) }
        ensures after { OnOk result (self.new ≡
            after_observe self.old (new_watch id name format entry)) }
        ensures err { OnErr result (self.new ≡ self.old) }
        ensures fresh { KeepsFreshAt name entry self.old.watches self.new.watches }
    {
        if self.watches.len() >= MAX_WATCHES {
            return Err(ClientError::InvalidParameter);
        }
        self.watches.push(Watch {
            id,
            name,
            format,
            entry,
            flagged: true,
            given: None,
        })?;
        Ok(())
    }

    /// Ends all observers of a number, and answers how many there were.
    pub fn unobserve(&mut self, id: u64) -> u32
        ensures count { result ≡ length (filter (has_id id) self.old.watches) }
        ensures after { self.new ≡ after_unobserve self.old id }
        ensures fresh { KeepsFresh self.old.watches self.new.watches }
    {
        let count = self.watches.iter().filter(|watch| watch.id == id).count();
        self.watches.retain(|watch| watch.id != id);
        count as u32
    }

    /// Notes that the fields of a mask have changed: it flags the observers whose properties depend
    /// on one of them, without reading a value. A client that was fresh for facts is then fresh for
    /// all facts that differ from them in those fields alone.
    pub fn flag<F: Reads<M>, M: Meaning>(&mut self, table: &PropTable<F, M>, mask: u32)
        requires { All (IsPlaced table.now) self.old.watches }
        ensures after { self.new ≡ after_flag self.old table.now mask }
        ensures fresh { Refreshes M.value table.now mask self.old.watches self.new.watches }
    {
        let _entries = table.entries();
        self.flag_all(table, mask);
    }

    fn flag_all<F: Reads<M>, M: Meaning>(&mut self, table: &PropTable<F, M>, mask: u32)
        requires { All (IsPlaced table.now) self.old.watches }
        ensures { self.new ≡ after_flag self.old table.now mask }
    {
        flag_watches(&mut self.watches, table, mask);
    }

    /// The ring's oldest event; else one overflow where the ring is choked, which it isn't
    /// afterwards; else what the first observer has that was last given something else; else
    /// `None`: each observer was then last given what it has. The ring's events and an overflow
    /// take no memory. After an error the client is as before.
    pub fn poll<F: Reads<M>, M: Meaning>(
        &mut self,
        table: &PropTable<F, M>,
        facts: &Facts,
    ) -> Result<Event, NoMemory>
        requires { Fresh M.value table.now facts.now self.old.watches }
        // The event, and the client after it: in the places of its observers, and as functions of
        // what is observed.
        ensures value { IfOk result (λ e. Polled (present M.value facts.now) self.old e self.new) }
        ensures answer { IfOk result
            (λ e. e ≡ poll_of (now_of M.value table.now facts.now) self.old) }
        ensures seen { IfOk result (λ e. seen_by self.new ≡
            seen_after (now_of M.value table.now facts.now) e (seen_by self.old)) }
        ensures kind { IfOk result (λ e. 0 < length self.old.ring.events → IsTrue (enters_ring e)) }
        // When there may be no memory, and what is left then.
        ensures err { OnErr result (self.new ≡ self.old) }
        ensures memory { 0 < length self.old.ring.events → IsOk result }
        ensures overflow { self.old.ring.choked ≡ true → IsOk result }
        // Flags and what was last given say the truth afterwards, and no event means no news.
        ensures fresh { Fresh M.value table.now facts.now self.new.watches }
        ensures settled { IfOk result
            (λ e. IsQuietAt (present M.value facts.now) e self.new.watches) }
    {
        self.take_next(table, facts)
    }

    fn take_next<F: Reads<M>, M: Meaning>(
        &mut self,
        table: &PropTable<F, M>,
        facts: &Facts,
    ) -> Result<Event, NoMemory>
        requires { Fresh M.value table.now facts.now self.old.watches }
        ensures value { IfOk result (λ e. Polled (present M.value facts.now) self.old e self.new) }
        ensures err { OnErr result (self.new ≡ self.old) }
        ensures memory { 0 < length self.old.ring.events → IsOk result }
        ensures overflow { self.old.ring.choked ≡ true → IsOk result }
        ensures kind { IfOk result (λ e. 0 < length self.old.ring.events → IsTrue (enters_ring e)) }
    {
        if let Some(event) = self.ring.pop() {
            return Ok(event);
        }
        if self.ring.take_overflow() {
            return Ok(Event::Overflow);
        }
        poll_watches(self.alloc, &mut self.watches, table, facts)
    }

    /// An event equal to the one that `poll` would answer. Nothing changes.
    pub fn next<F: Reads<M>, M: Meaning>(
        &self,
        table: &PropTable<F, M>,
        facts: &Facts,
    ) -> Result<Event, NoMemory>
        requires { Fresh M.value table.now facts.now self.now.watches }
        ensures value { IfOk result (λ e. WouldPoll (present M.value facts.now) self.now e) }
        ensures answer { IfOk result
            (λ e. e ≡ poll_of (now_of M.value table.now facts.now) self.now) }
        ensures same { IfOk result (λ r. IsSolePoll (present M.value facts.now) self.now r) }
    {
        self.see_next(table, facts)
    }

    fn see_next<F: Reads<M>, M: Meaning>(
        &self,
        table: &PropTable<F, M>,
        facts: &Facts,
    ) -> Result<Event, NoMemory>
        requires { Fresh M.value table.now facts.now self.now.watches }
        ensures { IfOk result (λ e. WouldPoll (present M.value facts.now) self.now e) }
    {
        if let Some(event) = self.ring.first() {
            return event.copy(self.alloc);
        }
        if self.ring.choked() {
            return Ok(Event::Overflow);
        }
        next_change(self.alloc, &self.watches, table, facts)
    }
}

/// Whether a client may switch the event of a number off and on.
fn can_switch(number: u32) -> bool
    ensures { result ≡ can_switch number }
{
    matches!(number, 6 | 7 | 8 | 16 | 20 | 21)
}
