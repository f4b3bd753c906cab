//! What a core holds, read.
ghost use Rattle.std.specs.Prelude.{◌≡◌, ◌<◌, ◌+◌, ◌∷◌, true, drop, is_some, length, reverse, slice_get};
ghost use Rattle.std.specs.Bool.{MatchBool};
ghost use Rattle.std.specs.Option.{option_copied};
ghost use Rattle.slab.specs.Slab.{ContainsKey};
ghost use Rattle.mc_player.specs.Facts.{life_of};
ghost use Rattle.mc_deeds.specs.Clients.{IsFreeAt, IsFullAt};
ghost use Rattle.mc_state.specs.Stands.{table_of};

use crate::state::State;
use mc_deeds::full_at;
use mc_dispatch::{ClientNo, Request};
use mc_player::{CoreJournal, Deed, Order};
use mc_props::meanings::Meaning;
use mc_props::{Facts, PropTable, Reads};
use std::alloc::Global;

impl<F: Reads<M>, M: Meaning> State<F, M> {
    /// The allocator of all that it holds.
    pub fn alloc(&self) -> Global {
        self.alloc
    }

    /// What the player knows of itself.
    pub fn facts(&self) -> &Facts
        ensures { result.now ≡ self.now.facts }
    {
        &self.facts
    }

    /// The order that is out.
    pub fn out(&self) -> Option<Order>
        ensures { result ≡ self.now.out }
    {
        self.out
    }

    /// The journal, the oldest record first.
    pub fn journal(&self) -> &CoreJournal
        ensures { result.now.items ≡ self.now.journal }
    {
        &self.journal
    }

    /// How many clients live.
    pub fn count(&self) -> usize
        ensures { result ≡ length self.now.order }
    {
        self.order.len()
    }

    /// The oldest request that waits.
    pub fn first(&self) -> Option<&Request>
        ensures { option_copied result ≡ slice_get self.now.queue.requests 0 }
    {
        self.queue.first()
    }

    /// The request that is worked while its client lives.
    pub fn work(&self) -> &Option<Request>
        ensures { result.now ≡ self.now.work }
    {
        &self.work
    }

    /// What the request does that was taken last.
    pub fn deed(&self) -> &Deed
        ensures { result.now ≡ self.now.deed }
    {
        &self.deed
    }

    /// Whether the file was ordered.
    pub fn has_begun(&self) -> bool
        ensures { result ≡ self.now.loading }
    {
        self.loading
    }

    /// Whether a request that ends the player was taken.
    pub fn has_quit(&self) -> bool
        ensures { result ≡ self.now.quits }
    {
        self.quits
    }

    /// Whether a restart is still to be told.
    pub fn restarts(&self) -> bool
        ensures { result ≡ self.now.restart }
    {
        self.restart
    }

    /// Whether a client lives.
    pub fn knows(&self, c: ClientNo) -> bool
        ensures value { result ≡
            is_some (life_of (table_of M.value self.now) c.0 (reverse self.now.journal)) }
        ensures lives { result ≡ true → ContainsKey self.now.clients c.0 }
    {
        self.clients.contains(c.0 as usize)
    }

    /// Whether no place is free in a living client's ring.
    pub fn is_full_at(&self, c: ClientNo) -> bool
        requires { ContainsKey self.now.clients c.0 }
        ensures { MatchBool result (IsFullAt self.now.clients c.0) (IsFreeAt self.now.clients c.0) }
    {
        full_at(&self.clients, c.0 as usize)
    }

    /// The client at a place in the order of creation.
    pub fn client_at(&self, i: usize) -> ClientNo
        requires { i < length self.now.order }
        ensures { drop i self.now.order ≡ result ∷ drop (i + 1) self.now.order }
    {
        self.order[i]
    }

    /// The table of its properties.
    pub fn table(&self) -> &PropTable<F, M>
        ensures { result.now ≡ self.now.entries }
    {
        &self.table
    }
}
