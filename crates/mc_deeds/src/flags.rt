//! Fields of the facts change: each client's observers are flagged.
ghost use Rattle.std.specs.Prelude.{◌≡◌, ◌≢◌, ℕ, IfSome, Option, All};
ghost use Rattle.slab.specs.Slab.{get};
ghost use Rattle.mc_client.specs.Client.{ClientState};
ghost use Rattle.mc_client.specs.Watches.{IsPlaced};
ghost use Rattle.mc_deeds.specs.Flags.{AllFresh, AreFlagged, IsFlaggedAt};

use mc_client::Client;
use mc_dispatch::ClientNo;
use mc_props::meanings::Meaning;
use mc_props::{Facts, PropTable, Reads};
use slab::Slab;

/// The client at a place, if there is one, is flagged.
fn flag_at<F: Reads<M>, M: Meaning>(
    clients: &mut Slab<Client>,
    table: &PropTable<F, M>,
    at: usize,
    mask: u32,
)
    requires { IfSome (get clients.old at) (λ k. All (IsPlaced table.now) k.watches) }
    ensures here { (k : ClientState) → get clients.old at ≡ Option.Some k
        → IsFlaggedAt M.value table.now mask k (get clients.new at) }
    ensures none { get clients.old at ≡ Option.None → get clients.new at ≡ Option.None }
    ensures others { (c : ℕ) → c ≢ at → get clients.new c ≡ get clients.old c }
{
    if let Some(client) = clients.get_mut(at) {
        client.flag(table, mask);
    }
}

/// The clients of these numbers, each of which is fresh for the facts, are then fresh for all facts
/// that differ in the mask's fields alone. No client is looked at where the mask has none.
pub fn flag_all<F: Reads<M>, M: Meaning>(
    clients: &mut Slab<Client>,
    order: &[ClientNo],
    table: &PropTable<F, M>,
    facts: &Facts,
    mask: u32,
)
    requires { AllFresh M.value table.now facts.now clients.old }
    ensures flagged { AreFlagged M.value table.now facts.now mask order.now
        clients.old clients.new }
{
    if mask == 0 {
        return;
    }
    for c in order {
        flag_at(clients, table, c.0 as usize, mask);
    }
}
