//! The calls of a core's clients, and those that bring clients and let them go.
ghost use Rattle.std.specs.Prelude.{◌≡◌, ◌<◌, IfOk, None as Nothing, OnErr, OnOk, ◌∷◌, false, length, reverse};
ghost use Rattle.slab.specs.Slab.{ContainsKey};
ghost use Rattle.mc_ring.specs.Ring.{IsSize};
ghost use Rattle.mc_client.specs.Client.{new_client};
ghost use Rattle.mc_player.specs.Journals.{named};
ghost use Rattle.mc_player.specs.Rules.{done_if};
ghost use Rattle.mc_player.specs.declared.record.CoreRecord.TheVariants.{Created, Destroyed};
ghost use Rattle.mc_state.specs.Steps.{IsAsBefore, IsRoomy};
ghost use Rattle.mc_state.specs.Stands.{IsQuiet};
ghost use Rattle.mc_core.specs.Calls.{Answers};
ghost use Rattle.mc_core.specs.Errors.{Refuses, bad_size, refusal_of_client};

use crate::core_error::CoreError;
use crate::requests::{abort, request};
use mc_client::Client;
use mc_dispatch::{Call, ClientNo};
use mc_player::Answer;
use mc_props::Reads;
use mc_props::meanings::Meaning;
use mc_state::State;
use mc_value::{NoMemory, Text};
use std::alloc::{AllocError, Global};

const MAX_CLIENTS: usize = 64;

fn bad_size(size: u32) -> bool
    ensures value { result ≡ bad_size size }
    ensures fits { result ≡ false → IsSize size }
{
    size == 0 || 100_000 < size
}

/// The answer to a call that was done, or refused with -4.
fn done_if(done: bool) -> Answer
    ensures { result ≡ done_if done }
{
    if done {
        Answer::Ok
    } else {
        Answer::Refused(-4)
    }
}

/// A client of a size that a ring may have.
fn new_client(alloc: Global, name: Text, size: u32) -> Result<Client, NoMemory>
    requires { IsSize size }
    ensures { IfOk result (λ k. k ≡ new_client name size) }
{
    match Client::new(alloc, name, size) {
        Ok(client) => Ok(client),
        Err(_) => Err(AllocError),
    }
}

/// A client comes, whose name no living one has.
fn admit<F: Reads<M>, M: Meaning>(
    state: &mut State<F, M>,
    by: u32,
    name: Text,
    size: u32,
) -> Result<ClientNo, NoMemory>
    requires quiet { IsQuiet M.value state.old }
    requires fits { IsSize size }
    requires few { length state.old.order < 64 }
    requires unnamed { named (reverse state.old.journal) name ≡ Nothing }
    ensures still { (state.new.out ≡ state.old.out) × (state.new.facts ≡ state.old.facts) }
    ensures made { IfOk result (λ c. reverse state.new.journal ≡
        Created by c name size ∷ reverse state.old.journal) }
    ensures entries { state.new.entries ≡ state.old.entries }
    ensures quiet { IsQuiet M.value state.new }
    ensures err { OnErr result (IsRoomy state.old state.new) }
{
    let client = new_client(state.alloc(), name.copy()?, size)?;
    let c = state.make_place()?;
    state.make_room(1)?;
    state.put_in(by, c, client, name, size)?;
    Ok(c)
}

/// A client comes, if it may.
pub(crate) fn create<F: Reads<M>, M: Meaning>(
    state: &mut State<F, M>,
    by: u32,
    name: Text,
    size: u32,
) -> Result<ClientNo, CoreError>
    requires quiet { IsQuiet M.value state.old }
    ensures still { (state.new.out ≡ state.old.out) × (state.new.facts ≡ state.old.facts) }
    ensures refused { Refuses result
        (refusal_of_client (reverse state.old.journal) name size) }
    ensures made { IfOk result (λ c. reverse state.new.journal ≡
        Created by c name size ∷ reverse state.old.journal) }
    ensures entries { state.new.entries ≡ state.old.entries }
    ensures quiet { IsQuiet M.value state.new }
    ensures err { OnErr result (IsRoomy state.old state.new) }
{
    state.stands();
    if state.named(&name).is_some() {
        return Err(CoreError::NameTaken);
    }
    if state.count() >= MAX_CLIENTS {
        return Err(CoreError::TooMany);
    }
    if bad_size(size) {
        return Err(CoreError::BadSize);
    }
    Ok(admit(state, by, name, size)?)
}

/// A living client goes, and its queued requests with it.
pub(crate) fn destroy<F: Reads<M>, M: Meaning>(
    state: &mut State<F, M>,
    by: u32,
    c: ClientNo,
) -> Result<(), NoMemory>
    requires quiet { IsQuiet M.value state.old }
    requires lives { ContainsKey state.old.clients c.0 }
    ensures still { (state.new.out ≡ state.old.out) × (state.new.facts ≡ state.old.facts) }
    ensures gone { OnOk result (reverse state.new.journal ≡
        Destroyed by c ∷ reverse state.old.journal) }
    ensures entries { state.new.entries ≡ state.old.entries }
    ensures quiet { IsQuiet M.value state.new }
    ensures err { OnErr result (IsAsBefore state.old state.new) }
{
    state.make_room(1)?;
    state.take_out(by, c);
    Ok(())
}

/// Answers a call of a living client.
pub(crate) fn answer<F: Reads<M>, M: Meaning>(
    state: &mut State<F, M>,
    by: u32,
    c: ClientNo,
    call: Call,
) -> Result<Answer, NoMemory>
    requires quiet { IsQuiet M.value state.old }
    requires lives { ContainsKey state.old.clients c.0 }
    ensures still { (state.new.out ≡ state.old.out) × (state.new.facts ≡ state.old.facts) }
    ensures answers { IfOk result (λ a.
        Answers by c call a (reverse state.old.journal) (reverse state.new.journal)) }
    ensures entries { state.new.entries ≡ state.old.entries }
    ensures quiet { IsQuiet M.value state.new }
    ensures err { OnErr result (IsAsBefore state.old state.new) }
{
    state.make_room(1)?;
    match call {
        Call::Poll => Ok(Answer::Event(state.poll(by, c)?)),
        Call::Abort { id } => Ok(Answer::Removed(abort(state, by, c, id)?)),
        Call::Unobserve { id } => Ok(Answer::Removed(state.unobserve(by, c, id))),
        Call::Event { number, on } => Ok(done_if(state.switch(by, c, number, on)?)),
        Call::Observe { id, name, format } => {
            Ok(done_if(state.observe(by, c, id, name, format)?))
        }
        asked => request(state, by, c, asked),
    }
}
