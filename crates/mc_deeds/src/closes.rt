//! How a taken request ends, and what comes behind an outcome.
ghost use Rattle.std.specs.Prelude.{◌≡◌, IfOk, None as Nothing};
ghost use Rattle.mc_player.specs.Deeds.{after_deed};
ghost use Rattle.mc_player.specs.Facts.{after_did};
ghost use Rattle.mc_deeds.specs.Closes.{IsAfter, IsClose, IsFollow, order_in};

use crate::deeds::apply;
use crate::follow::{Follow, Twice, message, messages};
use crate::outcomes::{apply_outcome, copy_outcome};
use crate::replies::{error_of, reply_twice};
use mc_dispatch::Call;
use mc_player::{Deed, Order, Outcome};
use mc_props::Facts;
use mc_props::fields::{MUTE, PAUSE, SELECTION};
use mc_value::{NoMemory, copy_words};
use std::alloc::Global;

/// How a taken request ends.
#[derive(Drop)]
pub enum Close {
    /// The demuxer is asked for something, and the reply waits.
    Orders(Order),
    /// Its effects come at once, and its reply.
    Replies {
        /// The effects.
        follow: Follow,
        /// The reply.
        reply: Twice,
    },
}

fn order_of(deed: &Deed) -> Option<Order>
    ensures { result ≡ order_in deed.now }
{
    match deed {
        Deed::Seeks { t, dir } => Some(Order::Seek { t: *t, dir: *dir }),
        Deed::Selects { set, at } => Some(Order::Select { set: *set, at: *at }),
        _ => None,
    }
}

fn facts_after(alloc: Global, facts: &Facts, deed: &Deed) -> Result<Facts, NoMemory>
    ensures { IfOk result (λ f. f ≡ after_deed deed.now facts.now) }
{
    let mut copy = facts.copy(alloc)?;
    apply(&mut copy, deed);
    Ok(copy)
}

/// The effects of a deed that asks for no order, for so many clients.
fn follow_of(alloc: Global, facts: &Facts, count: usize, deed: &Deed) -> Result<Follow, NoMemory>
    requires none { order_in deed.now ≡ Nothing }
    ensures { IfOk result (λ x. IsFollow (after_deed deed.now facts.now) count deed.now x) }
{
    match deed {
        Deed::Pauses(_) => Ok(Follow::Writes {
            mask: PAUSE,
            facts: facts_after(alloc, facts, deed)?,
        }),
        Deed::Mutes(_) => Ok(Follow::Writes {
            mask: MUTE,
            facts: facts_after(alloc, facts, deed)?,
        }),
        Deed::Sends(words) => Ok(Follow::Sends {
            words: copy_words(alloc, words.as_slice())?,
            events: messages(alloc, words, count)?,
        }),
        Deed::SendsTo { client, words } => Ok(Follow::SendsTo {
            client: *client,
            event: message(alloc, words)?,
        }),
        Deed::Quits => Ok(Follow::Quits),
        _ => Ok(Follow::Nothing),
    }
}

/// How a request ends that does this at these facts, with so many clients. Refused where there is
/// no memory for its effects and its reply.
pub fn close_of(
    alloc: Global,
    facts: &Facts,
    count: usize,
    call: &Call,
    deed: &Deed,
) -> Result<Close, NoMemory>
    ensures { IfOk result
        (λ x. IsClose (after_deed deed.now facts.now) count call.now deed.now x) }
{
    if let Some(order) = order_of(deed) {
        return Ok(Close::Orders(order));
    }
    let reply = reply_twice(alloc, call, error_of(deed), deed)?;
    let follow = follow_of(alloc, facts, count, deed)?;
    Ok(Close::Replies { follow, reply })
}

fn facts_behind(alloc: Global, facts: &Facts, outcome: &Outcome) -> Result<Facts, NoMemory>
    ensures { IfOk result (λ f. f ≡ after_did outcome.now facts.now) }
{
    let mut copy = facts.copy(alloc)?;
    apply_outcome(&mut copy, copy_outcome(outcome)?);
    Ok(copy)
}

/// The effects of an outcome at these facts, with so many clients. Refused where there is no memory
/// for them.
pub fn follow_behind(
    alloc: Global,
    facts: &Facts,
    count: usize,
    outcome: &Outcome,
) -> Result<Follow, NoMemory>
    ensures { IfOk result (λ y. IsAfter facts.now count outcome.now y) }
{
    match outcome {
        Outcome::Loaded { .. } => Ok(Follow::Loads {
            facts: facts_behind(alloc, facts, outcome)?,
        }),
        Outcome::Sought => Ok(Follow::Seeks),
        Outcome::Selected { .. } => Ok(Follow::Writes {
            mask: SELECTION,
            facts: facts_behind(alloc, facts, outcome)?,
        }),
        Outcome::Refused(_) => Ok(Follow::Nothing),
    }
}
