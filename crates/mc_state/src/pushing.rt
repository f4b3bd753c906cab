//! Events that go to clients.
ghost use Rattle.std.specs.Prelude.{◌≡◌, ◌<◌, ◌≤◌, ◌+◌, IsTrue, List, ◌∷◌, [], drop, length, reverse};
ghost use Rattle.std.specs.List.{AllByRecursion};
ghost use Rattle.mc_ring.specs.Event.{enters_ring};
ghost use Rattle.mc_ring.specs.declared.event.Event.TheVariants as event;
ghost use Rattle.mc_player.specs.Effects.{Effect};
ghost use Rattle.mc_state.specs.Growth.{Adds, is_push};
ghost use Rattle.mc_state.specs.Pushing.{ComesWith, IsToPush, Within, coming};
ghost use Rattle.mc_deeds.specs.Signals.{event_of};
ghost use Rattle.mc_deeds.specs.Follow.{IsTwice};

use crate::state::State;
use mc_deeds::{Signal, Twice, noted, push_at};
use mc_dispatch::ClientNo;
use mc_props::Reads;
use mc_props::meanings::Meaning;
use mc_ring::Event;
use mc_value::Words;

impl<F: Reads<M>, M: Meaning> State<F, M> {
    /// Pushes an event to a client that hears it, where that is due.
    pub fn push_to(&mut self, by: u32, c: ClientNo, event: Event, told: Event)
        requires due { IsToPush M.value event (c ∷ []) self.old }
        requires same { told ≡ event }
        requires kind { IsTrue (enters_ring event) }
        requires room { 0 < self.old.spare }
        ensures ahead { (later : List Effect) → ComesWith M.value event (c ∷ []) later self.old
            → coming M.value self.new ≡ later }
        ensures adds { Adds is_push by (reverse self.old.journal) (reverse self.new.journal) }
        ensures within { Within 1 self.old self.new }
    {
        let pushed = push_at(&mut self.clients, c.0 as usize, event);
        if let Some(record) = noted(by, c, told, pushed) {
            self.journal.push_reserved(record);
        }
    }
}
