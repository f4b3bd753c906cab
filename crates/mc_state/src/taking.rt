//! Requests that are taken, orders that are given, and their outcomes.
ghost use Rattle.std.specs.Prelude.{◌≡◌, ◌<◌, ◌||◌, IsSomeAnd, Option, false, reverse, slice_get, None as Nothing};
ghost use Rattle.mc_player.specs.Facts.{after_did, is_quit};
ghost use Rattle.mc_player.specs.Deeds.{after_deed};
ghost use Rattle.mc_player.specs.Journals.{is_load, is_refusal};
ghost use Rattle.mc_player.specs.Rules.{IsOutcome, MayOrder};
ghost use Rattle.mc_player.specs.declared.record.CoreRecord.TheVariants.{Did, Ordered, Took};
ghost use Rattle.mc_state.specs.Steps.{Wrote};
ghost use Rattle.mc_state.specs.Stands.{IsQuiet, table_of};
ghost use Rattle.mc_state.specs.Taking.{IsNext};

use crate::state::State;
use mc_deeds::{
    apply, apply_outcome, deed_mask, flag_all, is_load, is_refusal, outcome_mask, restart_after,
};
use mc_dispatch::ClientNo;
use mc_player::{CoreRecord, Deed, Order, Outcome};
use mc_props::Reads;
use mc_props::meanings::Meaning;

fn quits(deed: &Deed, before: bool) -> bool
    ensures { result ≡ (is_quit deed.now || before) }
{
    matches!(deed, Deed::Quits) || before
}

fn loads(order: Order, before: bool) -> bool
    ensures { result ≡ (is_load order || before) }
{
    is_load(order) || before
}

impl<F: Reads<M>, M: Meaning> State<F, M> {
    /// The oldest request is taken, and does what it does to the facts.
    pub fn took(&mut self, by: u32, c: ClientNo, ticket: u64, id: u64, deed: Deed)
        requires next { IsNext M.value c ticket id deed self.old }
        requires room { 0 < self.old.spare }
        ensures wrote { Wrote self.old self.new (Took by c ticket id) }
        ensures order { self.new.order ≡ self.old.order }
        ensures facts { self.new.facts ≡ after_deed deed self.old.facts }
        ensures work { self.new.work ≡ slice_get self.old.queue.requests 0 }
        ensures deed { self.new.deed ≡ deed }
        ensures none { (self.new.out ≡ self.old.out) × (self.new.refused ≡ false) }
    {
        let mask = deed_mask(&deed);
        flag_all(
            &mut self.clients,
            &self.order,
            &self.table,
            &self.facts,
            mask,
        );
        apply(&mut self.facts, &deed);
        self.quits = quits(&deed, self.quits);
        self.work = self.queue.take();
        self.refused = false;
        self.deed = deed;
        self.journal.push_reserved(CoreRecord::Took {
            by,
            client: c,
            ticket,
            id,
        });
    }

    /// An order is given, where it may be.
    pub fn ordered(&mut self, by: u32, order: Order)
        requires none_out { self.old.out ≡ Nothing }
        requires may { MayOrder (table_of M.value self.old) (reverse self.old.journal) order }
        requires room { 0 < self.old.spare }
        ensures wrote { Wrote self.old self.new (Ordered by order) }
        ensures out { self.new.out ≡ Option.Some order }
    {
        self.loading = loads(order, self.loading);
        self.out = Some(order);
        self.journal
            .push_reserved(CoreRecord::Ordered { by, order });
    }

    /// The outcome of the order that is out is told.
    pub fn did(&mut self, by: u32, outcome: Outcome, told: Outcome)
        requires quiet { IsQuiet M.value self.old }
        requires outcome { IsSomeAnd self.old.out (λ o. IsOutcome o outcome) }
        requires same { told ≡ outcome }
        requires room { 0 < self.old.spare }
        ensures wrote { Wrote self.old self.new (Did by outcome) }
        ensures order { self.new.order ≡ self.old.order }
        ensures facts { self.new.facts ≡ after_did outcome self.old.facts }
        ensures work { (self.new.work ≡ self.old.work) × (self.new.deed ≡ self.old.deed) }
        ensures none { (self.new.out ≡ Nothing) × (self.new.refused ≡ is_refusal outcome) }
    {
        let mask = outcome_mask(&outcome);
        flag_all(
            &mut self.clients,
            &self.order,
            &self.table,
            &self.facts,
            mask,
        );
        self.restart = restart_after(&outcome, self.restart);
        self.refused = is_refusal(&outcome);
        self.out = None;
        apply_outcome(&mut self.facts, outcome);
        self.journal
            .push_reserved(CoreRecord::Did { by, outcome: told });
    }
}
