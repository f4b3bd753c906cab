//! Requests: they are refused, or wait for their replies, or are aborted.
ghost use Rattle.std.specs.Prelude.{◌≡◌, ◌<◌, ◌+◌, ◌∷◌, drop, true, None as Nothing, IfOk, OnErr, length, reverse};
ghost use Rattle.slab.specs.Slab.{ContainsKey};
ghost use Rattle.mc_dispatch.specs.declared.call.Call.TheVariants as call;
ghost use Rattle.mc_player.specs.Rules.{is_request};
ghost use Rattle.mc_player.specs.declared.record.Answer.TheVariants as answer;
ghost use Rattle.mc_player.specs.declared.record.CoreRecord.TheVariants.{Called};
ghost use Rattle.mc_state.specs.Growth.{Adds, is_reply};
ghost use Rattle.mc_state.specs.Replying.{IsDrained};
ghost use Rattle.mc_state.specs.Stands.{IsQuiet};
ghost use Rattle.mc_state.specs.Steps.{IsAsBefore, Wrote, ticket_for};

use mc_deeds::is_bad;
use mc_dispatch::{Call, ClientNo, Request};
use mc_player::Answer;
use mc_props::Reads;
use mc_props::meanings::Meaning;
use mc_state::State;
use mc_value::NoMemory;

/// A request: it is refused, or waits.
pub(crate) fn request<F: Reads<M>, M: Meaning>(
    state: &mut State<F, M>,
    by: u32,
    c: ClientNo,
    call: Call,
) -> Result<Answer, NoMemory>
    requires quiet { IsQuiet M.value state.old }
    requires lives { ContainsKey state.old.clients c.0 }
    requires room { 0 < state.old.spare }
    requires asks { is_request call ≡ true }
    ensures still { (state.new.out ≡ state.old.out) × (state.new.facts ≡ state.old.facts) }
    ensures ok { IfOk result (λ a. Wrote state.old state.new
        (Called by c (ticket_for (length state.old.journal) a) call a)) }
    ensures err { OnErr result (IsAsBefore state.old state.new) }
{
    if is_bad(&call) {
        state.refuse(by, c, call, -4);
        return Ok(Answer::Refused(-4));
    }
    if state.is_full_at(c) {
        state.refuse(by, c, call, -1);
        return Ok(Answer::Refused(-1));
    }
    let told = call.copy(state.alloc())?;
    state.make_wait()?;
    state.accept(by, c, call, told);
    Ok(Answer::Ok)
}

fn request_at(requests: &[Request], i: usize) -> &Request
    requires { i < length requests.now }
    ensures { drop i requests.now ≡ result.now ∷ drop (i + 1) requests.now }
{
    &requests[i]
}

/// Replies to all requests that are due, the oldest first.
fn reply_all<F: Reads<M>, M: Meaning>(state: &mut State<F, M>, by: u32, requests: &[Request])
    requires drained { IsDrained M.value requests.now 0 state.old }
    ensures still { (state.new.out ≡ state.old.out) × (state.new.facts ≡ state.old.facts) }
    ensures quiet { IsQuiet M.value state.new }
    ensures entries { state.new.entries ≡ state.old.entries }
    ensures adds { Adds is_reply by
        (reverse state.old.journal) (reverse state.new.journal) }
{
    for i in 0..requests.len() {
        state.reply_due(by, request_at(requests, i));
    }
}

/// Aborts a client's queued requests with the number: each gets its reply at once. It answers
/// how many there were.
pub(crate) fn abort<F: Reads<M>, M: Meaning>(
    state: &mut State<F, M>,
    by: u32,
    c: ClientNo,
    id: u64,
) -> Result<u32, NoMemory>
    requires quiet { IsQuiet M.value state.old }
    requires lives { ContainsKey state.old.clients c.0 }
    ensures still { (state.new.out ≡ state.old.out) × (state.new.facts ≡ state.old.facts) }
    ensures adds { IfOk result (λ n. Adds is_reply by
        (Called by c Nothing (call.Abort id) (answer.Removed n) ∷ reverse state.old.journal)
        (reverse state.new.journal)) }
    ensures entries { state.new.entries ≡ state.old.entries }
    ensures quiet { IsQuiet M.value state.new }
    ensures err { OnErr result (IsAsBefore state.old state.new) }
{
    state.make_room_for_replies()?;
    let removed = state.aborted(by, c, id)?;
    let count = removed.len() as u32;
    reply_all(state, by, removed.as_slice());
    Ok(count)
}
