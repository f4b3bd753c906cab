//! The oldest request is taken and worked.
ghost use Rattle.std.specs.Prelude.{◌≡◌, ◌≤◌, ◌+◌, IfOk, IfSome, None as Nothing, OnErr, [], true, false, length, reverse};
ghost use Rattle.mc_state.specs.Stands.{IsQuiet, table_of};
ghost use Rattle.mc_state.specs.Steps.{IsAsBefore};
ghost use Rattle.mc_core.specs.Working.{IsTask, Works, out_by};

use crate::deciding::deed_of;
use crate::following::follow;
use mc_deeds::{Close, close_of};
use mc_dispatch::ClientNo;
use mc_player::{Deed, Order};
use mc_props::Reads;
use mc_props::meanings::Meaning;
use mc_state::State;
use mc_value::NoMemory;

/// The oldest request, what it does, and how it ends.
#[derive(Drop)]
pub(crate) struct Task {
    pub(crate) client: ClientNo,
    pub(crate) ticket: u64,
    pub(crate) id: u64,
    pub(crate) deed: Deed,
    pub(crate) close: Close,
}

/// The request that is taken next, if one waits.
fn next_task<F: Reads<M>, M: Meaning>(state: &State<F, M>) -> Result<Option<Task>, NoMemory>
    ensures none { IfOk result (λ o. o ≡ Nothing → state.now.queue.requests ≡ []) }
    ensures some { IfOk result (λ o. IfSome o (λ task. IsTask M.value task state.now)) }
{
    state.stands();
    let Some(request) = state.first() else {
        return Ok(None);
    };
    let deed = deed_of(state, &request.call)?;
    let close = close_of(
        state.alloc(),
        state.facts(),
        state.count(),
        &request.call,
        &deed,
    )?;
    Ok(Some(Task {
        client: request.client,
        ticket: request.ticket,
        id: request.id,
        deed,
        close,
    }))
}

/// Works the oldest request.
fn perform<F: Reads<M>, M: Meaning>(state: &mut State<F, M>, by: u32, task: Task) -> Order
    requires quiet { IsQuiet M.value state.old }
    requires none_out { state.old.out ≡ Nothing }
    requires begun { state.old.loading ≡ true }
    requires goes_on { state.old.quits ≡ false }
    requires task { IsTask M.value task state.old }
    requires room { length state.old.order + length state.old.order + 4 ≤ state.old.spare }
    ensures works { Works (table_of M.value state.old) by (reverse state.old.journal) result
        (reverse state.new.journal) }
    ensures out { state.new.out ≡ out_by result }
    ensures entries { state.new.entries ≡ state.old.entries }
    ensures quiet { IsQuiet M.value state.new }
{
    let Task {
        client,
        ticket,
        id,
        deed,
        close,
    } = task;
    state.took(by, client, ticket, id, deed);
    match close {
        Close::Orders(order) => {
            state.ordered(by, order);
            order
        }
        Close::Replies {
            follow: effects,
            reply,
        } => {
            follow(state, by, effects);
            state.end_work(by, client, ticket, reply.event, reply.told);
            Order::Finished
        }
    }
}

/// Orders the file, or works the oldest request.
pub(crate) fn work<F: Reads<M>, M: Meaning>(
    state: &mut State<F, M>,
    by: u32,
) -> Result<Order, NoMemory>
    requires quiet { IsQuiet M.value state.old }
    requires none_out { state.old.out ≡ Nothing }
    ensures works { IfOk result (λ o. Works (table_of M.value state.old) by
        (reverse state.old.journal) o (reverse state.new.journal)) }
    ensures out { IfOk result (λ o. state.new.out ≡ out_by o) }
    ensures entries { state.new.entries ≡ state.old.entries }
    ensures quiet { IsQuiet M.value state.new }
    ensures err { OnErr result (IsAsBefore state.old state.new) }
{
    state.stands();
    state.make_room_for_all()?;
    if !state.has_begun() {
        state.ordered(by, Order::Load);
        return Ok(Order::Load);
    }
    if state.has_quit() {
        return Ok(Order::Idle);
    }
    match next_task(state)? {
        Some(task) => Ok(perform(state, by, task)),
        None => Ok(Order::Idle),
    }
}
