use crate::held::Held;
use crate::polls::{call_next, call_poll};
use mc_client::{ClientError, Pushed};
use mc_props::Reads;
use mc_props::meanings::Standard;
use mc_ring::{Event, RingError};
use mc_value::{Format, Text};
use rows::{Json, RowError, Table, flag_in, named, none, number_in, one, push_flag, text_in, two};
use std::alloc::Global;
use std::fmt::Write;

/// The calls of one client; `new` makes another.
#[derive(Drop)]
pub struct ClientTable<F: Reads<Standard>> {
    held: Held<F>,
}

impl<F: Reads<Standard>> ClientTable<F> {
    /// The calls of this client.
    pub fn new(held: Held<F>) -> ClientTable<F> {
        ClientTable { held }
    }
}

#[derive(Clone, Copy)]
enum Word {
    New,
    Name,
    Full,
    Off,
    Observe,
    Crowd,
    Unobserve,
    Next,
    Poll,
    Pause,
    End,
    Push,
    Switch,
    Request,
    Unreserve,
    Reply,
}

const WORDS: [(&str, Word); 16] = [
    ("new", Word::New),
    ("name", Word::Name),
    ("full", Word::Full),
    ("off", Word::Off),
    ("observe", Word::Observe),
    ("crowd", Word::Crowd),
    ("unobserve", Word::Unobserve),
    ("next", Word::Next),
    ("poll", Word::Poll),
    ("pause", Word::Pause),
    ("end", Word::End),
    ("push", Word::Push),
    ("switch", Word::Switch),
    ("request", Word::Request),
    ("unreserve", Word::Unreserve),
    ("reply", Word::Reply),
];

impl<F: Reads<Standard>> Table for ClientTable<F> {
    fn call(
        &mut self,
        alloc: Global,
        name: &str,
        arguments: &[Json<'_>],
        out: &mut String,
    ) -> Result<(), RowError> {
        let held = &mut self.held;
        match named(&WORDS, name)? {
            Word::New => renew(alloc, held, arguments, out),
            Word::Observe => observe(alloc, held, arguments, out),
            Word::Crowd => crowd(alloc, held, arguments, out),
            word => answer(alloc, held, word, arguments, out),
        }
    }
}

fn answer<F: Reads<Standard>>(
    alloc: Global,
    held: &mut Held<F>,
    word: Word,
    arguments: &[Json<'_>],
    out: &mut String,
) -> Result<(), RowError> {
    match word {
        Word::Off => off(held, arguments, out),
        Word::Unobserve => unobserve(held, arguments, out),
        Word::Pause => pause(held, arguments, out),
        Word::Push => push(held, arguments, out),
        Word::Switch => switch(held, arguments, out),
        Word::Reply => reply(held, arguments, out),
        word => {
            none(arguments)?;
            answer_alone(alloc, held, word, out)
        }
    }
}

// The calls without an argument.
fn answer_alone<F: Reads<Standard>>(
    alloc: Global,
    held: &mut Held<F>,
    word: Word,
    out: &mut String,
) -> Result<(), RowError> {
    match word {
        Word::Name => Ok(out.push_str(held.client().name().as_str())?),
        Word::Full => Ok(push_flag(out, held.client().is_full())?),
        Word::Next => call_next(alloc, held, out),
        Word::Poll => call_poll(alloc, held, out),
        Word::Request => request(held, out),
        Word::Unreserve => Ok(push_flag(out, held.unreserve())?),
        Word::End => {
            held.reach_end();
            Ok(out.push_str("done")?)
        }
        _ => Err(RowError::BadRow),
    }
}

fn long_in(argument: &Json<'_>) -> Result<u64, RowError> {
    Ok(u64::try_from(number_in(argument)?)?)
}

fn renew<F: Reads<Standard>>(
    alloc: Global,
    held: &mut Held<F>,
    arguments: &[Json<'_>],
    out: &mut String,
) -> Result<(), RowError> {
    let (name, size) = two(arguments)?;
    let name = Text::new(alloc, text_in(name)?)?;
    match held.renew(alloc, name, u32::try_from(number_in(size)?)?) {
        Ok(()) => Ok(out.push_str("made")?),
        Err(RingError::BadSize) => Ok(out.push_str("bad size")?),
        Err(RingError::NoMemory) => Err(RowError::NoMemory),
    }
}

fn push_done(out: &mut String, done: Result<(), ClientError>) -> Result<(), RowError> {
    match done {
        Ok(()) => Ok(out.push_str("done")?),
        Err(ClientError::InvalidParameter) => Ok(out.push_str("refused")?),
        Err(ClientError::NoMemory) => Err(RowError::NoMemory),
    }
}

fn observe<F: Reads<Standard>>(
    alloc: Global,
    held: &mut Held<F>,
    arguments: &[Json<'_>],
    out: &mut String,
) -> Result<(), RowError> {
    let (id, name) = two(arguments)?;
    let id = long_in(id)?;
    let name = Text::new(alloc, text_in(name)?)?;
    push_done(out, held.observe(id, name, Format::Flag))
}

// Observes a property under the numbers 0 and 1 in turn, so often.
fn crowd<F: Reads<Standard>>(
    alloc: Global,
    held: &mut Held<F>,
    arguments: &[Json<'_>],
    out: &mut String,
) -> Result<(), RowError> {
    let (times, name) = two(arguments)?;
    let name = text_in(name)?;
    for number in 0..long_in(times)? {
        let name = Text::new(alloc, name)?;
        if held.observe(number % 2, name, Format::Flag).is_err() {
            return Err(RowError::NoMemory);
        }
    }
    Ok(out.push_str("done")?)
}

fn unobserve<F: Reads<Standard>>(
    held: &mut Held<F>,
    arguments: &[Json<'_>],
    out: &mut String,
) -> Result<(), RowError> {
    let id = long_in(one(arguments)?)?;
    Ok(write!(out, "{}", held.unobserve(id))?)
}

fn pause<F: Reads<Standard>>(
    held: &mut Held<F>,
    arguments: &[Json<'_>],
    out: &mut String,
) -> Result<(), RowError> {
    held.set_pause(flag_in(one(arguments)?)?);
    Ok(out.push_str("done")?)
}

fn off<F: Reads<Standard>>(
    held: &Held<F>,
    arguments: &[Json<'_>],
    out: &mut String,
) -> Result<(), RowError> {
    let number = u32::try_from(number_in(one(arguments)?)?)?;
    Ok(push_flag(out, held.client().is_off(number))?)
}

fn event_named(name: &str) -> Result<Event, RowError> {
    match name {
        "none" => Ok(Event::None),
        "shutdown" => Ok(Event::Shutdown),
        "file_loaded" => Ok(Event::FileLoaded),
        "seek" => Ok(Event::Seek),
        "playback_restart" => Ok(Event::PlaybackRestart),
        _ => Err(RowError::BadRow),
    }
}

fn push<F: Reads<Standard>>(
    held: &mut Held<F>,
    arguments: &[Json<'_>],
    out: &mut String,
) -> Result<(), RowError> {
    match held.push(event_named(text_in(one(arguments)?)?)?) {
        Some(Pushed::Kept) => Ok(out.push_str("kept")?),
        Some(Pushed::Dropped(event)) => Ok(write!(out, "dropped {}", event.number())?),
        Some(Pushed::Off(event)) => Ok(write!(out, "off {}", event.number())?),
        None => Ok(out.push_str("not allowed")?),
    }
}

fn switch<F: Reads<Standard>>(
    held: &mut Held<F>,
    arguments: &[Json<'_>],
    out: &mut String,
) -> Result<(), RowError> {
    let (number, on) = two(arguments)?;
    let number = u32::try_from(number_in(number)?)?;
    push_done(out, held.request_event(number, flag_in(on)?))
}

fn request<F: Reads<Standard>>(held: &mut Held<F>, out: &mut String) -> Result<(), RowError> {
    match held.request() {
        Ok(()) => Ok(out.push_str("reserved")?),
        Err(full) => Ok(write!(
            out,
            "full {} {} {} {}",
            full.held, full.reserved, full.max, full.choked
        )?),
    }
}

fn reply<F: Reads<Standard>>(
    held: &mut Held<F>,
    arguments: &[Json<'_>],
    out: &mut String,
) -> Result<(), RowError> {
    let (id, error) = two(arguments)?;
    let error = i32::try_from(number_in(error)?)?;
    Ok(push_flag(out, held.reply(long_in(id)?, error))?)
}
