ghost use Rattle.mc_state.specs.Stands.{Stands};

use mc_client::Client;
use mc_dispatch::{ClientNo, Dispatch, Request};
use mc_player::{CoreRecord, Deed, Order};
use mc_props::meanings::Meaning;
use mc_props::{Facts, PropTable, Reads};
use slab::Slab;
use std::alloc::Global;
use std::marker::Model;

/// A core in the midst of a call: each of its own calls writes one record, and what it holds is
/// what its journal tells then.
#[derive(Drop)]
pub struct State<F: Reads<M>, M: Meaning> {
    // both are set by `new`, and then read alone
    pub(crate) alloc: Global,
    pub(crate) table: PropTable<F, M>,
    // the clients under their numbers, and these in order of creation
    pub(crate) clients: Slab<Client>,
    pub(crate) order: Vec<ClientNo>,
    // the requests that wait, what a request does that was taken last, and that request while it is
    // worked and its client lives
    pub(crate) queue: Dispatch,
    pub(crate) deed: Deed,
    pub(crate) work: Option<Request>,
    pub(crate) facts: Facts,
    // the order that is out; whether the one of that request was refused, whether the file was
    // ordered, and whether a restart is still to be told
    pub(crate) out: Option<Order>,
    pub(crate) refused: bool,
    pub(crate) loading: bool,
    pub(crate) restart: bool,
    // a request that ends the player was taken
    pub(crate) quits: bool,
    pub(crate) journal: Vec<CoreRecord>,
}

impl<F: Reads<M>, M: Meaning> Model for State<F, M> {
    ghost use Rattle.std.specs.Prelude.{◌-◌, vec_capacity, length};
    ghost use Rattle.std.specs.Coded.{codes};
    ghost use Rattle.mc_value.specs.contracts.value.Value as value;
    ghost use Rattle.mc_state.specs.Stands.{CoreState, Stands};

    ghost Value = { CoreState };

    ghost coded = { Prim.hlevel (codes, value.the_row.coded) };

    ghost view = { λ s. record {
      entries = s.table;
      clients = s.clients;
      order = s.order.items;
      queue = s.queue;
      facts = s.facts;
      work = s.work;
      deed = s.deed;
      refused = s.refused;
      out = s.out;
      loading = s.loading;
      restart = s.restart;
      quits = s.quits;
      journal = s.journal.items;
      spare = vec_capacity s.journal - length s.journal.items;
    } };

    ghost invariant = { λ s. Stands M.value (record {
      entries = s.table;
      clients = s.clients;
      order = s.order.items;
      queue = s.queue;
      facts = s.facts;
      work = s.work;
      deed = s.deed;
      refused = s.refused;
      out = s.out;
      loading = s.loading;
      restart = s.restart;
      quits = s.quits;
      journal = s.journal.items;
      spare = vec_capacity s.journal - length s.journal.items;
    }) };
}

impl<F: Reads<M>, M: Meaning> State<F, M> {
    /// For the proof: what the type keeps.
    pub fn stands(&self)
        ensures { Stands M.value self.now }
    {
        let _entries = self.table.entries();
    }
}
