ghost use Rattle.std.specs.Prelude.{◌≡◌, [], None as Nothing};
ghost use Rattle.mc_props.specs.First.{first_facts};
ghost use Rattle.mc_state.specs.Stands.{IsQuiet};

use crate::state::State;
use mc_dispatch::Dispatch;
use mc_player::{CoreJournal, Deed};
use mc_props::meanings::Meaning;
use mc_props::{Facts, PropTable, Reads};
use slab::Slab;
use std::alloc::Global;

impl<F: Reads<M>, M: Meaning> State<F, M> {
    /// No clients, no requests, no file.
    pub fn new(alloc: Global, table: PropTable<F, M>) -> Self
        ensures empty { result.journal ≡ [] }
        ensures entries { result.entries ≡ table }
        ensures facts { (result.facts ≡ first_facts) × (result.out ≡ Nothing) }
        ensures quiet { IsQuiet M.value result }
    {
        State {
            alloc,
            table,
            clients: Slab::new(alloc),
            order: Vec::new(alloc),
            queue: Dispatch::new(alloc),
            deed: Deed::Ignores,
            work: None,
            facts: Facts::new(alloc),
            out: None,
            refused: false,
            loading: false,
            restart: false,
            quits: false,
            journal: Vec::new(alloc),
        }
    }

    /// The journal alone.
    pub fn into_journal(self) -> CoreJournal
        ensures { result.items ≡ self.journal }
    {
        self.journal
    }
}
