use mc_dispatch::{Call, ClientNo, Dispatch, Request};
use mc_value::{Text, Words};
use rows::{Json, RowError, Table, named, none, number_in, one, push_flag, text_in, three, two};
use std::alloc::{AllocError, Global};
use std::fmt::Write;

/// The calls of one queue of requests; `new` makes another.
#[derive(Drop)]
pub struct QueueTable {
    queue: Option<Dispatch>,
}

impl QueueTable {
    /// No queue has been made.
    pub fn new() -> QueueTable {
        QueueTable { queue: None }
    }
}

impl Table for QueueTable {
    fn call(
        &mut self,
        alloc: Global,
        name: &str,
        arguments: &[Json<'_>],
        out: &mut String,
    ) -> Result<(), RowError> {
        match named(&WORDS, name)? {
            Word::New => {
                none(arguments)?;
                self.queue = Some(Dispatch::new(alloc));
                Ok(out.push_str("made")?)
            }
            Word::Copy => copy(alloc, arguments, out),
            word => match &mut self.queue {
                Some(queue) => answer(queue, word, arguments, out),
                None => Err(RowError::BadRow),
            },
        }
    }
}

#[derive(Clone, Copy)]
enum Word {
    New,
    Copy,
    Enqueue,
    Reserve,
    Length,
    First,
    Drain,
    Cancel,
    DropClient,
    Count,
    Abort,
}

const WORDS: [(&str, Word); 11] = [
    ("new", Word::New),
    ("copy", Word::Copy),
    ("enqueue", Word::Enqueue),
    ("reserve", Word::Reserve),
    ("len", Word::Length),
    ("first", Word::First),
    ("drain", Word::Drain),
    ("cancel", Word::Cancel),
    ("drop_client", Word::DropClient),
    ("count", Word::Count),
    ("abort", Word::Abort),
];

fn answer(
    queue: &mut Dispatch,
    word: Word,
    arguments: &[Json<'_>],
    out: &mut String,
) -> Result<(), RowError> {
    match word {
        Word::Enqueue => enqueue(queue, arguments, out),
        Word::Reserve => enqueue_reserved(queue, arguments, out),
        Word::Length => Ok(write!(out, "{}", queue.len())?),
        Word::First => Ok(push_first(queue, out)?),
        Word::Drain => Ok(drain(queue, out)?),
        Word::Cancel => cancel(queue, arguments, out),
        Word::DropClient => drop_client(queue, arguments, out),
        Word::Count => count(queue, arguments, out),
        Word::Abort => abort(queue, arguments, out),
        Word::New | Word::Copy => Err(RowError::BadRow),
    }
}

fn client_in(argument: &Json<'_>) -> Result<ClientNo, RowError> {
    Ok(ClientNo(u32::try_from(number_in(argument)?)?))
}

fn long_in(argument: &Json<'_>) -> Result<u64, RowError> {
    Ok(u64::try_from(number_in(argument)?)?)
}

// A request of a client, with a ticket and a number.
fn request_in(arguments: &[Json<'_>]) -> Result<Request, RowError> {
    let (client, ticket, id) = three(arguments)?;
    Ok(Request {
        client: client_in(client)?,
        ticket: long_in(ticket)?,
        id: long_in(id)?,
        call: Call::Poll,
    })
}

fn enqueue(queue: &mut Dispatch, arguments: &[Json<'_>], out: &mut String) -> Result<(), RowError> {
    match queue.enqueue(request_in(arguments)?) {
        Ok(()) => Ok(out.push_str("queued")?),
        Err(_) => Err(RowError::NoMemory),
    }
}

// Reserves room, and puts the request into it.
fn enqueue_reserved(
    queue: &mut Dispatch,
    arguments: &[Json<'_>],
    out: &mut String,
) -> Result<(), RowError> {
    let request = request_in(arguments)?;
    queue.reserve()?;
    queue.enqueue_reserved(request);
    Ok(out.push_str("queued")?)
}

fn push_first(queue: &Dispatch, out: &mut String) -> Result<(), AllocError> {
    match queue.first() {
        Some(request) => write!(out, "{}", request.ticket),
        None => out.push_str("none"),
    }
}

// Takes all requests, and gives their tickets.
fn drain(queue: &mut Dispatch, out: &mut String) -> Result<(), AllocError> {
    for _ in 0..queue.len() {
        if let Some(request) = queue.take() {
            write!(out, "{} ", request.ticket)?;
        }
    }
    out.push('.')
}

fn cancel(queue: &mut Dispatch, arguments: &[Json<'_>], out: &mut String) -> Result<(), RowError> {
    let ticket = long_in(one(arguments)?)?;
    Ok(push_flag(out, queue.cancel(ticket))?)
}

fn drop_client(
    queue: &mut Dispatch,
    arguments: &[Json<'_>],
    out: &mut String,
) -> Result<(), RowError> {
    let client = client_in(one(arguments)?)?;
    Ok(write!(out, "{}", queue.drop_client(client))?)
}

fn count(queue: &Dispatch, arguments: &[Json<'_>], out: &mut String) -> Result<(), RowError> {
    let (client, id) = two(arguments)?;
    let count = queue.count(client_in(client)?, long_in(id)?);
    Ok(write!(out, "{count}")?)
}

// The tickets of the requests that were taken out.
fn abort(queue: &mut Dispatch, arguments: &[Json<'_>], out: &mut String) -> Result<(), RowError> {
    let (client, id) = two(arguments)?;
    let removed = queue.abort(client_in(client)?, long_in(id)?)?;
    for request in removed.as_slice() {
        write!(out, "{} ", request.ticket)?;
    }
    Ok(out.push('.')?)
}

// The number of a command and its words, from the copy of a copy: of a request, and of its call.
fn copy(alloc: Global, arguments: &[Json<'_>], out: &mut String) -> Result<(), RowError> {
    let [id, words @ ..] = arguments else {
        return Err(RowError::BadRow);
    };
    let request = command_in(alloc, long_in(id)?, words)?;
    let copied = request.copy(alloc)?;
    Ok(push_call(out, &copied.call)?)
}

fn command_in(alloc: Global, id: u64, arguments: &[Json<'_>]) -> Result<Request, RowError> {
    let mut words = Words::new(alloc);
    for argument in arguments {
        words.push(Text::new(alloc, text_in(argument)?)?)?;
    }
    Ok(Request {
        client: ClientNo(0),
        ticket: 0,
        id,
        call: Call::Command { id, words },
    })
}

fn push_call(out: &mut String, call: &Call) -> Result<(), AllocError> {
    match call {
        Call::Command { id, words } => {
            write!(out, "{id}")?;
            for word in words.as_slice() {
                write!(out, " {}", word.as_str())?;
            }
            Ok(())
        }
        _ => out.push_str("another call"),
    }
}
