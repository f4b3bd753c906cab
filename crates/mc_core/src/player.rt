ghost use Rattle.std.specs.Prelude.{◌≡◌, ◌∷◌, IfOk, IsSomeAnd, None as Nothing, OnErr, OnOk, length, nat_le};
ghost use Rattle.mc_player.specs.Facts.{after_did, with_view};
ghost use Rattle.mc_player.specs.Journals.{named};
ghost use Rattle.mc_player.specs.Rules.{IsOutcome};
ghost use Rattle.mc_player.specs.declared.record.CoreRecord.TheVariants.{Created, Destroyed, Did, Learned};
ghost use Rattle.mc_core.specs.Calls.{Answers};
ghost use Rattle.mc_core.specs.Core.{IsCore, history, new_core, table_in};
ghost use Rattle.mc_core.specs.Errors.{Refuses, full_or, refusal_of_call, refusal_of_client};
ghost use Rattle.mc_state.specs.Growth.{Adds, Grew, is_effect, is_news};
ghost use Rattle.mc_core.specs.Working.{Works, out_by};

use crate::calls::{answer, create, destroy};
use crate::core_error::CoreError;
use crate::doing::done;
use crate::learning::learn;
use crate::working::work;
use mc_dispatch::{Call, ClientNo};
use mc_packet::CacheView;
use mc_player::{Answer, CoreJournal, Order, Outcome};
use mc_props::meanings::Meaning;
use mc_props::{Facts, PropTable, Reads};
use mc_state::State;
use mc_value::Text;
use std::alloc::Global;
use std::marker::Model;

const MAX_RECORDS: usize = 16_000_000;

/// A player's core: its clients, their observers and requests, what the player knows of itself, and
/// a journal of all that happened. After an error it is as it was.
///
/// Contracts see it as the record of `specs/Core`; a journal is read with its newest record first.
/// The type keeps `IsCore`: each record of the journal was allowed, so that the laws of `mc_player`
/// hold of it.
#[derive(Drop)]
pub struct Core<F: Reads<M>, M: Meaning> {
    // written by each call; between two calls nothing is due
    state: State<F, M>,
}

impl<F: Reads<M>, M: Meaning> Model for Core<F, M> {
    ghost use Rattle.std.specs.Coded.{codes};
    ghost use Rattle.mc_value.specs.contracts.value.Value as value;
    ghost use Rattle.mc_core.specs.Core.{CoreView};
    ghost use Rattle.mc_state.specs.Stands.{IsQuiet};

    ghost Value = { CoreView };

    ghost coded = { Prim.hlevel (codes, value.the_row.coded) };

    ghost view = { λ c. record {
      entries = c.state.entries;
      facts = c.state.facts;
      out = c.state.out;
      journal = c.state.journal;
    } };

    ghost invariant = { λ c. IsQuiet M.value c.state };
}

impl<F: Reads<M>, M: Meaning> Core<F, M> {
    /// A core with these properties, in which nothing has happened.
    pub fn new(alloc: Global, table: PropTable<F, M>) -> Self
        ensures { result ≡ new_core table }
    {
        Core {
            state: State::new(alloc, table),
        }
    }

    /// What the player knows of itself.
    pub fn facts(&self) -> &Facts
        ensures { result.now ≡ self.now.facts }
    {
        self.state.facts()
    }

    /// The order that is out: its outcome is still to be told.
    pub fn order(&self) -> Option<Order>
        ensures { result ≡ self.now.out }
    {
        self.state.out()
    }

    /// The living client of a name.
    pub fn named(&self, name: &Text) -> Option<ClientNo>
        ensures { result ≡ named (history self.now) name.now }
    {
        self.state.named(name)
    }

    /// All that happened, the oldest record first.
    pub fn journal(&self) -> &CoreJournal
        ensures same { result.now.items ≡ self.now.journal }
        ensures core { IsCore M.value self.now }
    {
        self.state.stands();
        self.state.journal()
    }

    /// The journal, which outlives the core.
    pub fn into_journal(self) -> CoreJournal
        ensures { result.items ≡ self.journal }
    {
        self.state.into_journal()
    }

    fn is_full(&self) -> bool
        ensures { result ≡ nat_le 16000000 (length (history self.now)) }
    {
        self.state.journal().len() >= MAX_RECORDS
    }

    /// A client comes, with room for `size` events and places for replies in its ring. Refused in
    /// this order: `JournalFull`; `NameTaken` where a living client has the name; `TooMany` where
    /// there are 64; `BadSize` where the size is not from 1 to 100,000; `NoMemory`.
    pub fn create_client(&mut self, by: u32, name: Text, size: u32) -> Result<ClientNo, CoreError>
        ensures refused { Refuses result (full_or (history self.old)
            (refusal_of_client (history self.old) name size)) }
        ensures made { IfOk result
            (λ c. history self.new ≡ Created by c name size ∷ history self.old) }
        ensures grows { OnOk result (Grew by (history self.old) (history self.new)) }
        ensures still { (self.new.out ≡ self.old.out) × (self.new.facts ≡ self.old.facts) }
        ensures table { self.new.entries ≡ self.old.entries }
        ensures err { OnErr result (self.new ≡ self.old) }
    {
        if self.is_full() {
            return Err(CoreError::JournalFull);
        }
        create(&mut self.state, by, name, size)
    }

    /// A client goes, and its queued requests with it. Refused in this order: `JournalFull`,
    /// `UnknownClient`, `NoMemory`.
    pub fn destroy(&mut self, by: u32, c: ClientNo) -> Result<(), CoreError>
        ensures refused { Refuses result (full_or (history self.old)
            (refusal_of_call (table_in M.value self.old) c (history self.old))) }
        ensures gone { OnOk result (history self.new ≡ Destroyed by c ∷ history self.old) }
        ensures grows { OnOk result (Grew by (history self.old) (history self.new)) }
        ensures still { (self.new.out ≡ self.old.out) × (self.new.facts ≡ self.old.facts) }
        ensures table { self.new.entries ≡ self.old.entries }
        ensures err { OnErr result (self.new ≡ self.old) }
    {
        if self.is_full() {
            return Err(CoreError::JournalFull);
        }
        if !self.state.knows(c) {
            return Err(CoreError::UnknownClient);
        }
        Ok(destroy(&mut self.state, by, c)?)
    }

    /// A client's call. `Command`, `Get` and `Set` are requests: `Refused(-4)` comes where a
    /// command has no words, a `Get` has no format, or what is set is no text, flag or number, and
    /// `Refused(-1)` where the client's ring has no place for the reply; else the request waits for
    /// its reply. Refused in this order: `JournalFull`, `UnknownClient`, `NoMemory`.
    pub fn call(&mut self, by: u32, c: ClientNo, call: Call) -> Result<Answer, CoreError>
        ensures refused { Refuses result (full_or (history self.old)
            (refusal_of_call (table_in M.value self.old) c (history self.old))) }
        ensures answers { IfOk result
            (λ a. Answers by c call a (history self.old) (history self.new)) }
        ensures grows { OnOk result (Grew by (history self.old) (history self.new)) }
        ensures still { (self.new.out ≡ self.old.out) × (self.new.facts ≡ self.old.facts) }
        ensures table { self.new.entries ≡ self.old.entries }
        ensures err { OnErr result (self.new ≡ self.old) }
    {
        if self.is_full() {
            return Err(CoreError::JournalFull);
        }
        if !self.state.knows(c) {
            return Err(CoreError::UnknownClient);
        }
        Ok(answer(&mut self.state, by, c, call)?)
    }

    /// Takes in what the demuxer's cache tells of itself: observers of it may have news, and a
    /// restart that is due is told to each client. Refused in this order: `JournalFull`,
    /// `NoMemory`.
    pub fn learn(&mut self, by: u32, view: CacheView) -> Result<(), CoreError>
        ensures refused { Refuses result (full_or (history self.old) Nothing) }
        ensures adds { OnOk result
            (Adds is_news by (Learned by view ∷ history self.old) (history self.new)) }
        ensures facts { OnOk result (self.new.facts ≡ with_view self.old.facts view) }
        ensures grows { OnOk result (Grew by (history self.old) (history self.new)) }
        ensures out { self.new.out ≡ self.old.out }
        ensures table { self.new.entries ≡ self.old.entries }
        ensures err { OnErr result (self.new ≡ self.old) }
    {
        if self.is_full() {
            return Err(CoreError::JournalFull);
        }
        Ok(learn(&mut self.state, by, view)?)
    }

    /// What the demuxer is to do next. The first order is `Load`. Then the oldest request is taken:
    /// it asks for a seek or a selection, or is worked wholly and replied to (`Finished`). `Idle`
    /// comes just where none waits, or a request ended the player. Refused in this order:
    /// `JournalFull`, `NoMemory`.
    pub fn work(&mut self, by: u32) -> Result<Order, CoreError>
        requires none_out { self.old.out ≡ Nothing }
        ensures refused { Refuses result (full_or (history self.old) Nothing) }
        ensures works { IfOk result (λ o. Works (table_in M.value self.old) by
            (history self.old) o (history self.new)) }
        ensures out { IfOk result (λ o. self.new.out ≡ out_by o) }
        ensures grows { OnOk result (Grew by (history self.old) (history self.new)) }
        ensures table { self.new.entries ≡ self.old.entries }
        ensures err { OnErr result (self.new ≡ self.old) }
    {
        if self.is_full() {
            return Err(CoreError::JournalFull);
        }
        Ok(work(&mut self.state, by)?)
    }

    /// Takes in the outcome of the order that is out: its effects, and the reply to the request
    /// that asked for it, if its client lives. Refused in this order: `JournalFull`, `NoMemory`.
    pub fn done(&mut self, by: u32, outcome: Outcome) -> Result<(), CoreError>
        requires outcome { IsSomeAnd self.old.out (λ o. IsOutcome o outcome) }
        ensures refused { Refuses result (full_or (history self.old) Nothing) }
        ensures adds { OnOk result
            (Adds is_effect by (Did by outcome ∷ history self.old) (history self.new)) }
        ensures facts { OnOk result (self.new.facts ≡ after_did outcome self.old.facts) }
        ensures none_out { OnOk result (self.new.out ≡ Nothing) }
        ensures grows { OnOk result (Grew by (history self.old) (history self.new)) }
        ensures table { self.new.entries ≡ self.old.entries }
        ensures err { OnErr result (self.new ≡ self.old) }
    {
        if self.is_full() {
            return Err(CoreError::JournalFull);
        }
        Ok(done(&mut self.state, by, outcome)?)
    }
}
