//! Replies to requests, each for a ring and for the journal.
ghost use Rattle.std.specs.Prelude.{◌≡◌, IfOk, IsTrue};
ghost use Rattle.mc_client.specs.Client.{is_reply};
ghost use Rattle.mc_player.specs.Deeds.{deed_error, deed_value, reply_of};
ghost use Rattle.mc_deeds.specs.Closes.{Ends, error_behind};
ghost use Rattle.mc_deeds.specs.Follow.{IsTwice};

use crate::follow::Twice;
use crate::outcomes::is_refusal;
use mc_dispatch::{Call, ClientNo, Request};
use mc_player::{Deed, Outcome};
use mc_ring::Event;
use mc_value::{NoMemory, Value};
use std::alloc::Global;

/// The reply to what is worked.
#[derive(Drop)]
pub struct End {
    /// The client that asked.
    pub client: ClientNo,
    /// The request's ticket.
    pub ticket: u64,
    /// The reply.
    pub reply: Twice,
}

/// The reply to a request, with an error of `client.h` and a value.
pub fn reply_of(call: &Call, error: i32, value: Value) -> Event
    ensures value { result ≡ reply_of call.now error value }
    ensures kind { IsTrue (is_reply result) }
{
    match call {
        Call::Get { id, .. } => Event::GetReply {
            id: *id,
            error,
            value,
        },
        Call::Set { id, .. } => Event::SetReply { id: *id, error },
        Call::Command { id, .. } => Event::CommandReply { id: *id, error },
        _ => Event::CommandReply { id: 0, error },
    }
}

/// The error of a deed's reply.
pub fn error_of(deed: &Deed) -> i32
    ensures { result ≡ deed_error deed.now }
{
    match deed {
        Deed::Fails(error) => *error,
        _ => 0,
    }
}

fn value_of(alloc: Global, deed: &Deed) -> Result<Value, NoMemory>
    ensures { IfOk result (λ v. v ≡ deed_value deed.now) }
{
    match deed {
        Deed::Gives(value) => value.copy(alloc),
        _ => Ok(Value::None),
    }
}

/// The reply to a request, twice. Refused where there is no memory for the values.
pub fn reply_twice(alloc: Global, call: &Call, error: i32, deed: &Deed) -> Result<Twice, NoMemory>
    ensures twice { IfOk result
        (λ p. IsTwice (reply_of call.now error (deed_value deed.now)) p) }
    ensures kind { IfOk result (λ p. IsTrue (is_reply p.event)) }
{
    let value = value_of(alloc, deed)?;
    let told = value_of(alloc, deed)?;
    Ok(Twice {
        event: reply_of(call, error, value),
        told: reply_of(call, error, told),
    })
}

fn error_behind(outcome: &Outcome, deed: &Deed) -> i32
    ensures { result ≡ error_behind outcome.now deed.now }
{
    if is_refusal(outcome) {
        -12
    } else {
        error_of(deed)
    }
}

fn end_of(alloc: Global, request: &Request, outcome: &Outcome, deed: &Deed) -> Result<End, NoMemory>
    ensures same { IfOk result
        (λ e. (e.client ≡ request.now.client) × (e.ticket ≡ request.now.ticket)) }
    ensures reply { IfOk result (λ e. IsTwice (reply_of request.now.call
        (error_behind outcome.now deed.now) (deed_value deed.now)) e.reply) }
    ensures kind { IfOk result (λ e. IsTrue (is_reply e.reply.event)) }
{
    let error = error_behind(outcome, deed);
    let reply = reply_twice(alloc, &request.call, error, deed)?;
    Ok(End {
        client: request.client,
        ticket: request.ticket,
        reply,
    })
}

/// The reply to what is worked, if anything is, behind an outcome. Refused where there is no memory
/// for its values.
pub fn end_behind(
    alloc: Global,
    work: &Option<Request>,
    outcome: &Outcome,
    deed: &Deed,
) -> Result<Option<End>, NoMemory>
    ensures { IfOk result (λ o. Ends outcome.now work.now deed.now o) }
{
    match work {
        Some(request) => {
            let end = end_of(alloc, request, outcome, deed)?;
            Ok(Some(end))
        }
        None => Ok(None),
    }
}
