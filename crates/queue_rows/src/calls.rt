use crate::packets::{drop_to, queue_in, unite};
use mc_queue::{NoMemory, Queue, UnionError};
use rows::{Json, RowError, Table, named, none, number_in, one, push_flag};
use rows_packets::{at, block_in, push_place, push_time};
use std::alloc::Global;
use std::fmt::Write;

/// The calls of a queue; `new` makes another, and `other` the one that it is united with.
#[derive(Drop)]
pub struct QueueTable {
    queue: Option<Queue>,
    other: Option<Queue>,
}

impl QueueTable {
    pub fn new() -> QueueTable {
        QueueTable {
            queue: None,
            other: None,
        }
    }
}

#[derive(Clone, Copy)]
enum Word {
    New,
    Other,
    Unite,
    FirstAt,
    WeightFrom,
    Syncs,
    Times,
    DropTo,
    Reserve,
}

const WORDS: [(&str, Word); 9] = [
    ("new", Word::New),
    ("other", Word::Other),
    ("unite", Word::Unite),
    ("first_at", Word::FirstAt),
    ("weight_from", Word::WeightFrom),
    ("syncs", Word::Syncs),
    ("times", Word::Times),
    ("drop_to", Word::DropTo),
    ("reserve", Word::Reserve),
];

impl Table for QueueTable {
    fn call(
        &mut self,
        alloc: Global,
        name: &str,
        arguments: &[Json<'_>],
        out: &mut String,
    ) -> Result<(), RowError> {
        match named(&WORDS, name)? {
            Word::New => call_new(alloc, &mut self.queue, arguments, out),
            Word::Other => call_new(alloc, &mut self.other, arguments, out),
            word => match (&mut self.queue, &mut self.other) {
                (Some(queue), Some(other)) => answer(queue, other, word, arguments, out),
                _ => Err(RowError::BadRow),
            },
        }
    }
}

fn answer(
    queue: &mut Queue,
    other: &mut Queue,
    word: Word,
    arguments: &[Json<'_>],
    out: &mut String,
) -> Result<(), RowError> {
    match word {
        Word::Unite => call_unite(queue, other, arguments, out),
        Word::FirstAt => call_first_at(queue, arguments, out),
        Word::WeightFrom => call_weight_from(queue, arguments, out),
        Word::Syncs => call_syncs(queue, arguments, out),
        Word::Times => call_times(queue, arguments, out),
        Word::DropTo => call_drop_to(queue, arguments, out),
        Word::Reserve => call_reserve(queue, arguments, out),
        Word::New | Word::Other => Err(RowError::BadRow),
    }
}

// Where the queue begins and ends, how many packets it has, and what they count for.
fn push_queue(queue: &Queue, out: &mut String) -> Result<(), NoMemory> {
    let (from, to) = (queue.from().block, queue.to().block);
    let (len, weight) = (queue.len(), queue.weight());
    write!(out, "{from}-{to} of {len}, {weight} octets")
}

fn call_new(
    alloc: Global,
    held: &mut Option<Queue>,
    arguments: &[Json<'_>],
    out: &mut String,
) -> Result<(), RowError> {
    let queue = queue_in(alloc, arguments)?;
    push_queue(&queue, out)?;
    *held = Some(queue);
    Ok(())
}

// How it ended, the queue, and then the other.
fn call_unite(
    queue: &mut Queue,
    other: &mut Queue,
    arguments: &[Json<'_>],
    out: &mut String,
) -> Result<(), RowError> {
    none(arguments)?;
    match unite(queue, other) {
        Some(Ok(())) => out.push_str("united ")?,
        Some(Err(error)) => push_refusal(error, out)?,
        None => return Err(RowError::BadRow),
    }
    push_queue(queue, out)?;
    out.push_str(" and ")?;
    Ok(push_queue(other, out)?)
}

// Where the packets differ, and the time that each queue has there.
fn push_refusal(error: UnionError, out: &mut String) -> Result<(), RowError> {
    match error {
        UnionError::Mismatch { pos, ours, other } => {
            out.push_str("mismatch at ")?;
            push_place(Some(pos), out)?;
            out.push_str(" of ")?;
            push_time(ours, out)?;
            out.push_str(" and ")?;
            push_time(other, out)?;
            Ok(out.push_str(": ")?)
        }
        UnionError::NoMemory => Err(RowError::NoMemory),
    }
}

fn call_first_at(queue: &Queue, arguments: &[Json<'_>], out: &mut String) -> Result<(), RowError> {
    let head = at(block_in(one(arguments)?)?);
    Ok(push_place(queue.first_at(head).map(|p| p.pos), out)?)
}

fn call_weight_from(
    queue: &Queue,
    arguments: &[Json<'_>],
    out: &mut String,
) -> Result<(), RowError> {
    let head = at(block_in(one(arguments)?)?);
    let weight = queue.weight_from(head);
    Ok(write!(out, "{weight}")?)
}

// The first and the last sync point.
fn call_syncs(queue: &Queue, arguments: &[Json<'_>], out: &mut String) -> Result<(), RowError> {
    none(arguments)?;
    push_place(queue.first_sync(), out)?;
    out.push(' ')?;
    Ok(push_place(queue.last_sync(), out)?)
}

// The last sync point up to a time, the first from there on, whether one has a time of at least so
// much, and whether one has a time below.
fn call_times(queue: &Queue, arguments: &[Json<'_>], out: &mut String) -> Result<(), RowError> {
    let t = number_in(one(arguments)?)?;
    push_place(queue.last_sync_upto(t), out)?;
    out.push(' ')?;
    push_place(queue.first_sync_from(t), out)?;
    out.push(' ')?;
    push_flag(out, queue.has_sync_from(t))?;
    out.push(' ')?;
    Ok(push_flag(out, queue.has_sync_before(t))?)
}

// What the packets counted for that went, and then the queue.
fn call_drop_to(
    queue: &mut Queue,
    arguments: &[Json<'_>],
    out: &mut String,
) -> Result<(), RowError> {
    let cut = block_in(one(arguments)?)?;
    let Some(dropped) = drop_to(queue, cut) else {
        return Err(RowError::BadRow);
    };
    write!(out, "dropped {dropped}: ")?;
    Ok(push_queue(queue, out)?)
}

fn call_reserve(
    queue: &mut Queue,
    arguments: &[Json<'_>],
    out: &mut String,
) -> Result<(), RowError> {
    let more = block_in(one(arguments)?)?;
    queue.reserve(more)?;
    Ok(out.push_str("room")?)
}
