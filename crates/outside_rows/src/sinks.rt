use crate::drip::Fickle;
use mc_outside::{CleanSink, MemSink, Numbers, Sink, SinkError, StdSink, write_full};
use rows::{Json, RowError, items_in, one, text_in};
use std::alloc::{AllocError, Global};
use std::fmt::Write;

/// What a row asks of a sink.
#[derive(Clone, Copy)]
pub enum Wanted {
    Write,
    Full,
    Text,
}

/// The sink that lives from row to row.
#[derive(Drop)]
pub enum HeldSink {
    Clean(CleanSink),
    Mem(MemSink),
    Std(StdSink<Fickle>),
}

/// A sink some of whose calls fail, by the numbers of a row.
pub fn mem_sink(alloc: Global, arguments: &[Json<'_>]) -> Result<MemSink, RowError> {
    let mut bad = Numbers::new(alloc);
    for number in items_in(one(arguments)?)? {
        bad.push(number.as_u64().ok_or(RowError::BadRow)?)?;
    }
    Ok(MemSink::new(alloc, bad))
}

/// Makes the call on the sink that is held.
pub fn answer_sink(
    held: &mut HeldSink,
    wanted: Wanted,
    arguments: &[Json<'_>],
    out: &mut String,
) -> Result<(), RowError> {
    match wanted {
        Wanted::Text => Ok(push_text(held, out)?),
        Wanted::Write => {
            let piece = text_in(one(arguments)?)?;
            Ok(push_written(out, written(held, piece.as_bytes()))?)
        }
        Wanted::Full => {
            let piece = text_in(one(arguments)?)?;
            Ok(push_full(out, all_written(held, piece.as_bytes()))?)
        }
    }
}

fn written(held: &mut HeldSink, piece: &[u8]) -> Result<usize, SinkError> {
    match held {
        HeldSink::Clean(sink) => sink.write(piece),
        HeldSink::Mem(sink) => sink.write(piece),
        HeldSink::Std(sink) => sink.write(piece),
    }
}

fn all_written(held: &mut HeldSink, piece: &[u8]) -> Result<(), SinkError> {
    match held {
        HeldSink::Clean(sink) => write_full(sink, piece),
        HeldSink::Mem(sink) => write_full(sink, piece),
        HeldSink::Std(sink) => write_full(sink, piece),
    }
}

fn push_error(out: &mut String, error: SinkError) -> Result<(), AllocError> {
    out.push_str(match error {
        SinkError::Failed => "Failed",
        SinkError::NoMemory => "NoMemory",
    })
}

fn push_written(out: &mut String, answer: Result<usize, SinkError>) -> Result<(), AllocError> {
    match answer {
        Ok(count) => write!(out, "{count}"),
        Err(error) => push_error(out, error),
    }
}

fn push_full(out: &mut String, answer: Result<(), SinkError>) -> Result<(), AllocError> {
    match answer {
        Ok(()) => out.push_str("all"),
        Err(error) => push_error(out, error),
    }
}

// The text as hex digits.
fn push_octets(out: &mut String, octets: &[u8]) -> Result<(), AllocError> {
    out.push_str("text ")?;
    for octet in octets {
        write!(out, "{:02X}", *octet)?;
    }
    Ok(())
}

fn push_text(held: &HeldSink, out: &mut String) -> Result<(), AllocError> {
    match held {
        HeldSink::Clean(sink) => push_octets(out, sink.text()),
        HeldSink::Mem(sink) => push_octets(out, sink.text()),
        HeldSink::Std(_) => out.push_str("untold"),
    }
}
