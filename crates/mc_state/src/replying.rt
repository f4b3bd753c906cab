//! Replies to requests: to those that were aborted, and to the one that is worked.
ghost use Rattle.std.specs.Prelude.{◌≡◌, ◌<◌, ◌≤◌, ◌+◌, ◌^◌, IsTrue, IfOk, OnErr, OnOk, None as Nothing, Some, [], ◌∷◌, drop, filter, length, reverse, slice_get};
ghost use Rattle.slab.specs.Slab.{ContainsKey};
ghost use Rattle.mc_value.specs.declared.value.Value.TheVariants as value;
ghost use Rattle.mc_client.specs.Client.{is_reply};
ghost use Rattle.mc_dispatch.specs.Queue.{is_named};
ghost use Rattle.mc_dispatch.specs.declared.call.Call.TheVariants as call;
ghost use Rattle.mc_player.specs.Deeds.{generic_error, reply_of};
ghost use Rattle.mc_player.specs.Journals.{due};
ghost use Rattle.mc_player.specs.declared.record.Answer.TheVariants as answer;
ghost use Rattle.mc_player.specs.declared.record.CoreRecord.TheVariants.{Called, Replied};
ghost use Rattle.mc_state.specs.Steps.{IsAsBefore, Wrote};
ghost use Rattle.mc_state.specs.Growth.{Adds, is_reply as is_reply_record};
ghost use Rattle.mc_state.specs.Replying.{IsDrained, IsEnd};
ghost use Rattle.mc_state.specs.Stands.{IsQuiet};

use crate::state::State;
use mc_deeds::{reply_at, reply_of};
use mc_dispatch::{Call, ClientNo, Request, Requests};
use mc_player::{Answer, CoreRecord};
use mc_props::Reads;
use mc_props::meanings::Meaning;
use mc_ring::Event;
use mc_value::{NoMemory, Value};

impl<F: Reads<M>, M: Meaning> State<F, M> {
    /// Replies to the first request that is due since it was aborted.
    pub fn reply_due(&mut self, by: u32, request: &Request)
        requires due { slice_get (due (reverse self.old.journal)) 0 ≡ Some request.now }
        requires room { 0 < self.old.spare }
        ensures still { (self.new.out ≡ self.old.out) × (self.new.facts ≡ self.old.facts) }
        ensures wrote { Wrote self.old self.new (Replied by request.now.client request.now.ticket
            (reply_of request.now.call generic_error value.None)) }
    {
        let reply = reply_of(&request.call, -20, Value::None);
        let at = request.client.0 as usize;
        reply_at(&mut self.clients, at, reply);
        self.journal.push_reserved(CoreRecord::Replied {
            by,
            client: request.client,
            ticket: request.ticket,
            event: reply_of(&request.call, -20, Value::None),
        });
    }

    /// A client's queued requests with the number are aborted: their replies are due then.
    pub fn aborted(&mut self, by: u32, c: ClientNo, id: u64) -> Result<Requests, NoMemory>
        requires quiet { IsQuiet M.value self.old }
        requires lives { ContainsKey self.old.clients c.0 }
        requires room { length self.old.queue.requests + 1 ≤ self.old.spare }
        ensures still { (self.new.out ≡ self.old.out) × (self.new.facts ≡ self.old.facts) }
        ensures removed { IfOk result
            (λ qs. qs ≡ filter (is_named c id) self.old.queue.requests) }
        ensures ok { IfOk result (λ qs. Wrote self.old self.new
            (Called by c Nothing (call.Abort id) (answer.Removed (length qs)))) }
        ensures drained { IfOk result (λ qs. IsDrained M.value qs 0 self.new) }
        ensures within { IfOk result (λ qs. length qs < 2 ^ 32) }
        ensures err { OnErr result (IsAsBefore self.old self.new) }
    {
        let removed = self.queue.abort(c, id)?;
        self.journal.push_reserved(CoreRecord::Called {
            by,
            client: c,
            ticket: None,
            call: Call::Abort { id },
            answer: Answer::Removed(removed.len() as u32),
        });
        Ok(removed)
    }

    /// Makes room for a record and one for each queued request more.
    pub fn make_room_for_replies(&mut self) -> Result<(), NoMemory>
        ensures same { IsAsBefore self.old self.new }
        ensures ok { OnOk result (length self.new.queue.requests + 1 ≤ self.new.spare) }
    {
        let count = self.queue.len() + 1;
        self.journal.reserve(count)
    }

    /// Replies to the request that is worked, which ends it.
    pub fn end_work(&mut self, by: u32, c: ClientNo, ticket: u64, reply: Event, told: Event)
        requires end { IsEnd M.value c ticket reply self.old }
        requires same { told ≡ reply }
        requires kind { IsTrue (is_reply reply) }
        requires room { 0 < self.old.spare }
        ensures wrote { Wrote self.old self.new (Replied by c ticket reply) }
        ensures still { (self.new.out ≡ self.old.out) × (self.new.facts ≡ self.old.facts) }
        ensures quiet { IsQuiet M.value self.new }
    {
        reply_at(&mut self.clients, c.0 as usize, reply);
        self.work = None;
        self.journal.push_reserved(CoreRecord::Replied {
            by,
            client: c,
            ticket,
            event: told,
        });
    }
}
