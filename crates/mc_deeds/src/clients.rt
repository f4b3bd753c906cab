//! A client of a slab, one call at a time.
ghost use Rattle.std.specs.Prelude.{◌≡◌, ◌≢◌, ◌<◌, ℕ, IfOk, IfSome, IsSomeAnd, IsTrue, OnErr, Option};
ghost use Rattle.std.specs.Bool.{MatchBool};
ghost use Rattle.slab.specs.Slab.{ContainsKey, get};
ghost use Rattle.mc_ring.specs.Event.{enters_ring};
ghost use Rattle.mc_client.specs.Client.{ClientState, after_reply_of, is_reply};
ghost use Rattle.mc_client.specs.Seen.{now_of, poll_of};
ghost use Rattle.mc_client.specs.Watches.{Fresh, new_watch, present};
ghost use Rattle.mc_client.specs.declared.refusal.Pushed.TheVariants.{Off};
ghost use Rattle.mc_deeds.specs.Clients.{IsFreeAt, IsFullAt, IsPlacedAt, IsPushedAt, ObservedAt, PolledAt, SwitchedAt, UnobservedAt};

use mc_client::{Client, ClientError, Pushed};
use mc_props::meanings::Meaning;
use mc_props::{Facts, PropTable, Reads};
use mc_ring::Event;
use mc_value::{Format, NoMemory, Text};
use slab::Slab;
use std::alloc::AllocError;

/// The event that a client's poll would answer.
pub fn next_at<F: Reads<M>, M: Meaning>(
    clients: &Slab<Client>,
    table: &PropTable<F, M>,
    facts: &Facts,
    at: usize,
) -> Result<Event, NoMemory>
    requires fresh { IfSome (get clients.now at)
        (λ k. Fresh M.value table.now facts.now k.watches) }
    ensures { (k : ClientState) → get clients.now at ≡ Option.Some k
        → IfOk result (λ e. e ≡ poll_of (now_of M.value table.now facts.now) k) }
{
    match clients.get(at) {
        Some(client) => client.next(table, facts),
        None => Ok(Event::None),
    }
}

/// A client's poll.
pub fn poll_at<F: Reads<M>, M: Meaning>(
    clients: &mut Slab<Client>,
    table: &PropTable<F, M>,
    facts: &Facts,
    at: usize,
) -> Result<Event, NoMemory>
    requires fresh { IfSome (get clients.old at)
        (λ k. Fresh M.value table.now facts.now k.watches) }
    ensures here { (k : ClientState) → get clients.old at ≡ Option.Some k
        → IfOk result (λ e. PolledAt M.value table.now facts.now k e (get clients.new at)) }
    ensures fresh { IfSome (get clients.new at)
        (λ k. Fresh M.value table.now facts.now k.watches) }
    ensures others { (c : ℕ) → c ≢ at → get clients.new c ≡ get clients.old c }
    ensures err { OnErr result (clients.new ≡ clients.old) }
{
    match clients.get_mut(at) {
        Some(client) => client.poll(table, facts),
        None => Ok(Event::None),
    }
}

/// A client observes a property; not so where it has 1,000 observers.
pub fn observe_at(
    clients: &mut Slab<Client>,
    at: usize,
    id: u64,
    name: Text,
    format: Format,
    entry: Option<u32>,
) -> Result<bool, NoMemory>
    ensures here { (k : ClientState) → get clients.old at ≡ Option.Some k
        → IfOk result (λ b. ObservedAt (new_watch id name format entry) k b (get clients.new at)) }
    ensures others { (c : ℕ) → c ≢ at → get clients.new c ≡ get clients.old c }
    ensures err { OnErr result (clients.new ≡ clients.old) }
{
    let Some(client) = clients.get_mut(at) else {
        return Ok(false);
    };
    match client.observe(id, name, format, entry) {
        Ok(()) => Ok(true),
        Err(ClientError::InvalidParameter) => Ok(false),
        Err(ClientError::NoMemory) => Err(AllocError),
    }
}

/// A client's observers of a number end. It answers how many there were.
pub fn unobserve_at(clients: &mut Slab<Client>, at: usize, id: u64) -> u32
    ensures here { (k : ClientState) → get clients.old at ≡ Option.Some k
        → UnobservedAt id k result (get clients.new at) }
    ensures others { (c : ℕ) → c ≢ at → get clients.new c ≡ get clients.old c }
{
    match clients.get_mut(at) {
        Some(client) => client.unobserve(id),
        None => 0,
    }
}

/// The events of a number are switched on or off for a client; not so where none can be.
pub fn switch_at(
    clients: &mut Slab<Client>,
    at: usize,
    number: u32,
    on: bool,
) -> Result<bool, NoMemory>
    ensures here { (k : ClientState) → get clients.old at ≡ Option.Some k
        → IfOk result (λ b. SwitchedAt number on k b (get clients.new at)) }
    ensures others { (c : ℕ) → c ≢ at → get clients.new c ≡ get clients.old c }
    ensures err { OnErr result (clients.new ≡ clients.old) }
{
    let Some(client) = clients.get_mut(at) else {
        return Ok(false);
    };
    match client.request_event(number, on) {
        Ok(()) => Ok(true),
        Err(ClientError::InvalidParameter) => Ok(false),
        Err(ClientError::NoMemory) => Err(AllocError),
    }
}

/// Whether no place is free in a client's ring.
pub fn full_at(clients: &Slab<Client>, at: usize) -> bool
    requires { ContainsKey clients.now at }
    ensures { MatchBool result (IsFullAt clients.now at) (IsFreeAt clients.now at) }
{
    match clients.get(at) {
        Some(client) => client.is_full(),
        None => true,
    }
}

/// A place is set aside for a reply to a client, unless its ring is full.
pub fn place_at(clients: &mut Slab<Client>, at: usize) -> bool
    ensures here { (k : ClientState) → get clients.old at ≡ Option.Some k
        → IsPlacedAt k result (get clients.new at) }
    ensures others { (c : ℕ) → c ≢ at → get clients.new c ≡ get clients.old c }
{
    match clients.get_mut(at) {
        Some(client) => client.request().is_ok(),
        None => false,
    }
}

/// An event is pushed to a client, if there is one.
pub fn push_at(clients: &mut Slab<Client>, at: usize, event: Event) -> Pushed
    requires kind { IsTrue (enters_ring event) }
    ensures here { (k : ClientState) → get clients.old at ≡ Option.Some k
        → IsPushedAt k event result (get clients.new at) }
    ensures absent { get clients.old at ≡ Option.None
        → (result ≡ Off event) × (get clients.new at ≡ Option.None) }
    ensures others { (c : ℕ) → c ≢ at → get clients.new c ≡ get clients.old c }
{
    match clients.get_mut(at) {
        Some(client) => client.push(event),
        None => Pushed::Off(event),
    }
}

/// A reply goes to the place that was set aside for it.
pub fn reply_at(clients: &mut Slab<Client>, at: usize, reply: Event)
    requires kind { IsTrue (is_reply reply) }
    requires place { IsSomeAnd (get clients.old at) (λ k. 0 < k.ring.reserved) }
    ensures here { (k : ClientState) → get clients.old at ≡ Option.Some k
        → get clients.new at ≡ Option.Some (after_reply_of k reply) }
    ensures others { (c : ℕ) → c ≢ at → get clients.new c ≡ get clients.old c }
{
    if let Some(client) = clients.get_mut(at) {
        client.reply(reply);
    }
}
