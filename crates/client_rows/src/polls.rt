use crate::held::Held;
use mc_props::Reads;
use mc_props::meanings::Standard;
use mc_ring::Event;
use mc_value::json;
use rows::RowError;
use std::alloc::{AllocError, Global};
use std::fmt::Write;

/// The next event, without taking it.
pub fn call_next<F: Reads<Standard>>(
    alloc: Global,
    held: &Held<F>,
    out: &mut String,
) -> Result<(), RowError> {
    let event = held.next()?;
    Ok(push_event(alloc, out, &event)?)
}

/// The next event, which is taken.
pub fn call_poll<F: Reads<Standard>>(
    alloc: Global,
    held: &mut Held<F>,
    out: &mut String,
) -> Result<(), RowError> {
    let event = held.poll()?;
    Ok(push_event(alloc, out, &event)?)
}

// The number of an observer with what it is told, or the number of another event.
fn push_event(alloc: Global, out: &mut String, event: &Event) -> Result<(), AllocError> {
    match event {
        Event::Change {
            id,
            name,
            format,
            value,
        } => {
            let value = json(alloc, value)?;
            write!(out, "{id} {} {format:?} {}", name.as_str(), value.as_str())
        }
        Event::CommandReply { id, error } => write!(out, "5 of {id}: {error}"),
        other => write!(out, "{}", other.number()),
    }
}
