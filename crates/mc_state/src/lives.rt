//! Clients that come and go.
ghost use Rattle.std.specs.Prelude.{◌≡◌, ◌<◌, ◌≤◌, IfOk, OnErr, OnOk, None as Nothing, length, reverse, filter, not};
ghost use Rattle.std.specs.List.{find};
ghost use Rattle.std.specs.Option.{option_copied, option_map};
ghost use Rattle.slab.specs.Slab.{ContainsKey, HasRoomFor, get};
ghost use Rattle.mc_dispatch.specs.Queue.{is_of};
ghost use Rattle.mc_ring.specs.Ring.{IsSize};
ghost use Rattle.mc_client.specs.Client.{new_client};
ghost use Rattle.mc_player.specs.Journals.{is_name, is_number, named, unless};
ghost use Rattle.mc_player.specs.declared.record.CoreRecord.TheVariants.{Created, Destroyed};
ghost use Rattle.mc_state.specs.Steps.{IsRoomy, Wrote};
ghost use Rattle.mc_deeds.specs.Clients.{name_at};
ghost use Rattle.mc_state.specs.Stands.{IsQuiet};

use crate::state::State;
use mc_client::Client;
use mc_dispatch::{ClientNo, Request};
use mc_player::CoreRecord;
use mc_props::Reads;
use mc_props::meanings::Meaning;
use mc_value::{NoMemory, Text};
use slab::Slab;
use std::alloc::AllocError;

/// The number of a client at a key.
fn client_no(key: usize) -> Result<ClientNo, NoMemory>
    ensures { IfOk result (λ c. c.0 ≡ key) }
{
    if key > u32::MAX as usize {
        return Err(AllocError);
    }
    Ok(ClientNo(key as u32))
}

/// The request, unless it is the client's.
fn unless_of(work: Option<Request>, c: ClientNo) -> Option<Request>
    ensures { result ≡ unless (is_of c) work }
{
    match work {
        Some(request) if request.client.0 == c.0 => None,
        other => other,
    }
}

fn is_number(a: ClientNo, b: ClientNo) -> bool
    ensures { result ≡ is_number a b }
{
    a.0 == b.0
}

fn without(order: &mut Vec<ClientNo>, c: ClientNo)
    ensures { order.new.items ≡ filter (λ d. not (is_number d c)) order.old.items }
{
    order.retain(|d| !is_number(*d, c));
}

/// Whether the client has the name.
fn has_name(clients: &Slab<Client>, c: ClientNo, name: &Text) -> bool
    ensures { result ≡ is_name name.now (name_at clients.now c) }
{
    match clients.get(c.0 as usize) {
        Some(client) => client.name().as_str() == name.as_str(),
        None => false,
    }
}

fn find_named<'o>(
    order: &'o [ClientNo],
    clients: &Slab<Client>,
    name: &Text,
) -> Option<&'o ClientNo>
    ensures { option_copied result ≡
        find (λ c. is_name name.now (name_at clients.now c)) order.now }
{
    order.iter().find(|c| has_name(clients, **c, name))
}

fn copied(found: Option<&ClientNo>) -> Option<ClientNo>
    ensures { result ≡ option_copied found.entry }
{
    match found {
        Some(c) => Some(*c),
        None => None,
    }
}

impl<F: Reads<M>, M: Meaning> State<F, M> {
    /// The living client of a name.
    pub fn named(&self, name: &Text) -> Option<ClientNo>
        ensures { result ≡ named (reverse self.now.journal) name.now }
    {
        copied(find_named(&self.order, &self.clients, name))
    }

    /// Makes room for a client, and gives the number that it will have.
    pub fn make_place(&mut self) -> Result<ClientNo, NoMemory>
        ensures same { IsRoomy self.old self.new }
        ensures room { OnOk result (HasRoomFor self.new.clients 1) }
        ensures key { IfOk result (λ c. self.new.clients.vacant_key ≡ c.0) }
    {
        self.clients.reserve(1)?;
        client_no(self.clients.vacant_key())
    }

    /// A client comes. Its number is one that no living client has.
    pub fn put_in(
        &mut self,
        by: u32,
        c: ClientNo,
        client: Client,
        name: Text,
        size: u32,
    ) -> Result<(), NoMemory>
        requires quiet { IsQuiet M.value self.old }
        requires fits { IsSize size }
        requires few { length self.old.order < 64 }
        requires unnamed { named (reverse self.old.journal) name ≡ Nothing }
        requires client { client ≡ new_client name size }
        requires key { self.old.clients.vacant_key ≡ c.0 }
        requires place { HasRoomFor self.old.clients 1 }
        requires room { 0 < self.old.spare }
        ensures still { (self.new.out ≡ self.old.out) × (self.new.facts ≡ self.old.facts) }
        ensures ok { OnOk result (Wrote self.old self.new (Created by c name size)) }
        ensures err { OnErr result (IsRoomy self.old self.new) }
    {
        self.order.reserve(1)?;
        self.clients.insert_reserved(client);
        self.order.push_reserved(c);
        self.journal.push_reserved(CoreRecord::Created {
            by,
            client: c,
            name,
            size,
        });
        Ok(())
    }

    /// A client goes, and its queued requests with it.
    pub fn take_out(&mut self, by: u32, c: ClientNo)
        requires quiet { IsQuiet M.value self.old }
        requires lives { ContainsKey self.old.clients c.0 }
        requires room { 0 < self.old.spare }
        ensures still { (self.new.out ≡ self.old.out) × (self.new.facts ≡ self.old.facts) }
        ensures wrote { Wrote self.old self.new (Destroyed by c) }
    {
        self.clients.try_remove(c.0 as usize);
        self.queue.drop_client(c);
        without(&mut self.order, c);
        self.work = unless_of(self.work.take(), c);
        self.journal
            .push_reserved(CoreRecord::Destroyed { by, client: c });
    }
}
