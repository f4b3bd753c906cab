use mc_core::CoreError;
use mc_player::{Answer, CoreRecord, Order};
use mc_ring::Event;
use mc_value::{Text, Value, json};
use rows::RowError;
use std::alloc::{AllocError, Global};
use std::fmt::Write;

/// Why a call was refused; want of memory is the row's.
pub fn push_error(out: &mut String, error: CoreError) -> Result<(), RowError> {
    match error {
        CoreError::NoMemory => Err(RowError::NoMemory),
        error => Ok(write!(out, "{error:?}")?),
    }
}

// A value as JSON. Flags, and no value, take no memory for it.
fn push_value(alloc: Global, out: &mut String, value: &Value) -> Result<(), AllocError> {
    match value {
        Value::None => out.push_str("null"),
        Value::Flag(true) => out.push_str("true"),
        Value::Flag(false) => out.push_str("false"),
        value => {
            let text = json(alloc, value)?;
            out.push_str(text.as_str())
        }
    }
}

// The words, a `|` behind each.
fn push_words(out: &mut String, words: &[Text]) -> Result<(), AllocError> {
    for word in words {
        out.push_str(word.as_str())?;
        out.push('|')?;
    }
    Ok(())
}

fn push_event(alloc: Global, out: &mut String, event: &Event) -> Result<(), AllocError> {
    match event {
        Event::Change {
            id,
            name,
            value,
            ..
        } => {
            write!(out, "change {id} {} ", name.as_str())?;
            push_value(alloc, out, value)
        }
        Event::GetReply { id, error, value } => {
            write!(out, "get {id} {error} ")?;
            push_value(alloc, out, value)
        }
        Event::SetReply { id, error } => write!(out, "set {id} {error}"),
        Event::CommandReply { id, error } => write!(out, "command {id} {error}"),
        Event::EndFile { reason } => write!(out, "end of file {reason}"),
        Event::Message { words } => {
            out.push_str("message ")?;
            push_words(out, words.as_slice())
        }
        other => out.push_str(plain(other)),
    }
}

fn plain(event: &Event) -> &'static str {
    match event {
        Event::Shutdown => "shutdown",
        Event::StartFile => "start of file",
        Event::FileLoaded => "file loaded",
        Event::Seek => "seek",
        Event::PlaybackRestart => "restart",
        Event::Overflow => "overflow",
        _ => "none",
    }
}

/// The answer to a client's call.
pub fn push_answer(alloc: Global, out: &mut String, answer: &Answer) -> Result<(), AllocError> {
    match answer {
        Answer::Ok => out.push_str("ok"),
        Answer::Refused(error) => write!(out, "refused {error}"),
        Answer::Removed(count) => write!(out, "removed {count}"),
        Answer::Event(event) => push_event(alloc, out, event),
    }
}

/// What the demuxer is to do.
pub fn push_order(out: &mut String, order: Order) -> Result<(), AllocError> {
    match order {
        Order::Seek { t, dir } => write!(out, "seek {t} {dir:?}"),
        Order::Select { set, at } => write!(out, "select {:?} at {at}", set.video),
        Order::Idle => out.push_str("idle"),
        Order::Load => out.push_str("load"),
        Order::Finished => out.push_str("finished"),
    }
}

fn kind(record: &CoreRecord) -> &'static str {
    match record {
        CoreRecord::Created { .. } => "created",
        CoreRecord::Destroyed { .. } => "destroyed",
        CoreRecord::Called { .. } => "called",
        CoreRecord::Learned { .. } => "learned",
        CoreRecord::Wrote { .. } => "wrote",
        CoreRecord::Took { .. } => "took",
        CoreRecord::Ordered { .. } => "ordered",
        CoreRecord::Did { .. } => "did",
        CoreRecord::Pushed { .. } => "pushed",
        CoreRecord::Replied { .. } => "replied",
    }
}

/// What each record tells of, from a place on.
pub fn push_kinds(out: &mut String, journal: &[CoreRecord], from: usize) -> Result<(), AllocError> {
    for (place, record) in journal.iter().enumerate() {
        if place >= from {
            out.push_str(kind(record))?;
            out.push('|')?;
        }
    }
    Ok(())
}
