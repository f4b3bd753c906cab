use crate::events::event_in;
use mc_ring::{Event, Pushed, QueueFull, Ring, RingAnswer, RingCall, RingError};
use rows::{Json, RowError, Table, named, none, number_in, one, push_flag};
use std::alloc::{AllocError, Global};
use std::fmt::Write;

/// The calls of one ring; `new` makes another.
#[derive(Drop)]
pub struct RingTable {
    ring: Option<Ring>,
}

impl RingTable {
    /// No ring has been made.
    pub fn new() -> RingTable {
        RingTable { ring: None }
    }
}

impl Table for RingTable {
    fn call(
        &mut self,
        alloc: Global,
        name: &str,
        arguments: &[Json<'_>],
        out: &mut String,
    ) -> Result<(), RowError> {
        match named(&WORDS, name)? {
            Word::New => {
                self.ring = make(alloc, arguments, out)?;
                Ok(())
            }
            Word::Copy => call_copy(alloc, arguments, out),
            word => match &mut self.ring {
                Some(ring) => answer(alloc, ring, word, arguments, out),
                None => Err(RowError::BadRow),
            },
        }
    }
}

#[derive(Clone, Copy)]
enum Word {
    New,
    Copy,
    Reserve,
    Unreserve,
    PushEvent,
    PushReply,
    Pop,
    TakeOverflow,
    First,
    Choked,
    Full,
    Reserved,
    Fill,
}

const WORDS: [(&str, Word); 13] = [
    ("new", Word::New),
    ("copy", Word::Copy),
    ("reserve", Word::Reserve),
    ("unreserve", Word::Unreserve),
    ("push_event", Word::PushEvent),
    ("push_reply", Word::PushReply),
    ("pop", Word::Pop),
    ("take_overflow", Word::TakeOverflow),
    ("first", Word::First),
    ("choked", Word::Choked),
    ("full", Word::Full),
    ("reserved", Word::Reserved),
    ("fill", Word::Fill),
];

fn answer(
    alloc: Global,
    ring: &mut Ring,
    word: Word,
    arguments: &[Json<'_>],
    out: &mut String,
) -> Result<(), RowError> {
    match word {
        Word::PushEvent => push_event(alloc, ring, arguments, out),
        Word::PushReply => push_reply(alloc, ring, arguments, out),
        word => {
            none(arguments)?;
            answer_alone(ring, word, out)
        }
    }
}

// The calls without an argument.
fn answer_alone(ring: &mut Ring, word: Word, out: &mut String) -> Result<(), RowError> {
    match word {
        Word::Reserve => apply(ring, RingCall::Reserve, out),
        Word::Unreserve => apply(ring, RingCall::Unreserve, out),
        Word::Pop => apply(ring, RingCall::Pop, out),
        Word::TakeOverflow => apply(ring, RingCall::TakeOverflow, out),
        Word::First => Ok(first(ring, out)?),
        Word::Choked => Ok(push_flag(out, ring.choked())?),
        Word::Full => Ok(push_flag(out, ring.is_full())?),
        Word::Reserved => Ok(write!(out, "{}", ring.reserved())?),
        Word::Fill => fill(ring, out),
        Word::New | Word::Copy | Word::PushEvent | Word::PushReply => Err(RowError::BadRow),
    }
}

fn make(alloc: Global, arguments: &[Json<'_>], out: &mut String) -> Result<Option<Ring>, RowError> {
    match Ring::new(alloc, u32::try_from(number_in(one(arguments)?)?)?) {
        Ok(ring) => {
            out.push_str("made")?;
            Ok(Some(ring))
        }
        Err(RingError::BadSize) => {
            out.push_str("bad size")?;
            Ok(None)
        }
        Err(RingError::NoMemory) => Err(RowError::NoMemory),
    }
}

fn push_event(
    alloc: Global,
    ring: &mut Ring,
    arguments: &[Json<'_>],
    out: &mut String,
) -> Result<(), RowError> {
    let event = event_in(alloc, one(arguments)?)?;
    apply(ring, RingCall::PushEvent(event), out)
}

fn push_reply(
    alloc: Global,
    ring: &mut Ring,
    arguments: &[Json<'_>],
    out: &mut String,
) -> Result<(), RowError> {
    let reply = event_in(alloc, one(arguments)?)?;
    apply(ring, RingCall::PushReply(reply), out)
}

fn apply(ring: &mut Ring, call: RingCall, out: &mut String) -> Result<(), RowError> {
    if !ring.is_allowed(&call) {
        return Ok(out.push_str("not allowed")?);
    }
    let answer = ring.apply(call);
    Ok(push_answer(out, &answer)?)
}

fn push_answer(out: &mut String, answer: &RingAnswer) -> Result<(), AllocError> {
    match answer {
        RingAnswer::Reserved => out.push_str("reserved"),
        RingAnswer::Refused(full) => push_full(out, full),
        RingAnswer::Unreserved => out.push_str("given back"),
        RingAnswer::PushedEvent(Pushed::Kept) => out.push_str("kept"),
        RingAnswer::PushedEvent(Pushed::Dropped(event)) => push_numbered(out, "dropped", event),
        RingAnswer::PushedReply => out.push_str("kept"),
        RingAnswer::Popped(Some(event)) => push_numbered(out, "popped", event),
        RingAnswer::Popped(None) => out.push_str("nothing"),
        RingAnswer::TookOverflow(told) => push_flag(out, *told),
    }
}

fn push_full(out: &mut String, full: &QueueFull) -> Result<(), AllocError> {
    write!(
        out,
        "full {} {} {} {}",
        full.held, full.reserved, full.max, full.choked
    )
}

fn first(ring: &Ring, out: &mut String) -> Result<(), AllocError> {
    match ring.first() {
        Some(event) => push_numbered(out, "first", event),
        None => out.push_str("nothing"),
    }
}

// Pushes seeks until one is dropped, and says how many were kept.
fn fill(ring: &mut Ring, out: &mut String) -> Result<(), RowError> {
    for kept in 0..200_000u32 {
        if let Pushed::Dropped(_) = ring.push_event(Event::Seek) {
            return Ok(write!(out, "kept {kept}")?);
        }
    }
    Err(RowError::BadRow)
}

fn call_copy(alloc: Global, arguments: &[Json<'_>], out: &mut String) -> Result<(), RowError> {
    let event = event_in(alloc, one(arguments)?)?;
    let copied = event.copy(alloc)?;
    let word = if copied.enters_ring() {
        "enters"
    } else {
        "stays out"
    };
    Ok(push_numbered(out, word, &copied)?)
}

fn push_numbered(out: &mut String, word: &str, event: &Event) -> Result<(), AllocError> {
    let number = event.number();
    write!(out, "{word} {number}")?;
    if let Event::CommandReply { id, error } = event {
        write!(out, " id {id} error {error}")?;
    }
    Ok(())
}
