//! Requests: they are refused, or wait for their replies.
ghost use Rattle.std.specs.Prelude.{◌≡◌, ◌<◌, ◌++◌, ◌∷◌, [], true, false, None as Nothing, Option, Some, IfOk, IsSomeAnd, OnErr, OnOk, length};
ghost use Rattle.std.specs.Bool.{MatchBool};
ghost use Rattle.slab.specs.Slab.{ContainsKey, get};
ghost use Rattle.mc_dispatch.specs.Queue.{with_room};
ghost use Rattle.mc_ring.specs.Ring.{is_full};
ghost use Rattle.mc_value.specs.declared.value.Value.{out-Value};
ghost use Rattle.mc_player.specs.Deeds.{invalid_parameter, queue_full};
ghost use Rattle.mc_player.specs.Journals.{id_of};
ghost use Rattle.mc_player.specs.Rules.{is_bad, is_request, is_settable};
ghost use Rattle.mc_player.specs.declared.record.Answer.TheVariants as answer;
ghost use Rattle.mc_player.specs.declared.record.CoreRecord.TheVariants.{Called};
ghost use Rattle.mc_state.specs.Steps.{IsAsBefore, Wrote, ticket_for};
ghost use Rattle.mc_deeds.specs.Clients.{IsFullAt, IsFreeAt};
ghost use Rattle.mc_state.specs.Stands.{IsQuiet};

use crate::state::State;
use mc_deeds::{id_of, place_at};
use mc_dispatch::{Call, ClientNo, Request};
use mc_player::{Answer, CoreRecord};
use mc_props::Reads;
use mc_props::meanings::Meaning;
use mc_value::{Format, NoMemory, Value};
use slab::Slab;

impl<F: Reads<M>, M: Meaning> State<F, M> {
    /// A request is refused: with -4 where its form is wrong, else with -1 where no place is free
    /// for its reply.
    pub fn refuse(&mut self, by: u32, c: ClientNo, call: Call, error: i32)
        requires quiet { IsQuiet M.value self.old }
        requires lives { ContainsKey self.old.clients c.0 }
        requires room { 0 < self.old.spare }
        requires asks { is_request call ≡ true }
        requires error { MatchBool (is_bad call) (error ≡ invalid_parameter)
            (IsFullAt self.old.clients c.0 × (error ≡ queue_full)) }
        ensures still { (self.new.out ≡ self.old.out) × (self.new.facts ≡ self.old.facts) }
        ensures wrote { Wrote self.old self.new (Called by c Nothing call (answer.Refused error)) }
    {
        self.journal.push_reserved(CoreRecord::Called {
            by,
            client: c,
            ticket: None,
            call,
            answer: Answer::Refused(error),
        });
    }

    /// Makes room for a request more.
    pub fn make_wait(&mut self) -> Result<(), NoMemory>
        ensures ok { OnOk result (self.new ≡ record self.old { queue = with_room self.old.queue }) }
        ensures err { OnErr result (self.new ≡ self.old) }
    {
        self.queue.reserve()
    }

    /// A request is accepted: a place is set aside for its reply, and it waits.
    pub fn accept(&mut self, by: u32, c: ClientNo, call: Call, told: Call)
        requires quiet { IsQuiet M.value self.old }
        requires lives { ContainsKey self.old.clients c.0 }
        requires room { 0 < self.old.spare }
        requires queue { self.old.queue.reserved ≡ true }
        requires asks { is_request call ≡ true }
        requires fits { is_bad call ≡ false }
        requires free { IsFreeAt self.old.clients c.0 }
        requires same { told ≡ call }
        ensures still { (self.new.out ≡ self.old.out) × (self.new.facts ≡ self.old.facts) }
        ensures wrote { Wrote self.old self.new
            (Called by c (Option.Some (length self.old.journal)) call answer.Ok) }
    {
        let ticket = self.journal.len() as u64;
        place_at(&mut self.clients, c.0 as usize);
        let id = id_of(&call);
        self.queue.enqueue_reserved(Request {
            client: c,
            ticket,
            id,
            call,
        });
        self.journal.push_reserved(CoreRecord::Called {
            by,
            client: c,
            ticket: Some(ticket),
            call: told,
            answer: Answer::Ok,
        });
    }
}
