use mc_dispatch::Call;
use mc_ipc::{IpcCall, parse_line};
use mc_value::{Format, Text, Value, json};
use rows::{Json, RowError, number_in, octets_in, one, text_in};
use std::alloc::{AllocError, Global};
use std::fmt::Write;

/// What a text asks for.
pub fn call_parse(alloc: Global, arguments: &[Json<'_>], out: &mut String) -> Result<(), RowError> {
    parse(alloc, text_in(one(arguments)?)?.as_bytes(), out)
}

/// What octets ask for.
pub fn call_parse_octets(
    alloc: Global,
    arguments: &[Json<'_>],
    out: &mut String,
) -> Result<(), RowError> {
    let octets = octets_in(alloc, one(arguments)?)?;
    parse(alloc, octets.as_slice(), out)
}

/// What an object asks for that nests so deep, by the arrays of a key that is passed over.
pub fn call_parse_nested(
    alloc: Global,
    arguments: &[Json<'_>],
    out: &mut String,
) -> Result<(), RowError> {
    let depth = u32::try_from(number_in(one(arguments)?)?)?;
    let line = nested(alloc, depth.saturating_sub(1))?;
    parse(alloc, line.as_bytes(), out)
}

fn nested(alloc: Global, arrays: u32) -> Result<String, AllocError> {
    let mut line = String::from_str(alloc, "{\"command\":[\"client_name\"],\"other\":")?;
    for _ in 0..arrays {
        line.push('[')?;
    }
    for _ in 0..arrays {
        line.push(']')?;
    }
    line.push('}')?;
    Ok(line)
}

fn parse(alloc: Global, line: &[u8], out: &mut String) -> Result<(), RowError> {
    let call = parse_line(alloc, line)?;
    Ok(push_call(alloc, out, &call)?)
}

fn push_call(alloc: Global, out: &mut String, call: &IpcCall) -> Result<(), AllocError> {
    match call {
        IpcCall::Core { id, call } => {
            write!(out, "core {id} ")?;
            push_core(alloc, out, call)
        }
        IpcCall::Name { id } => write!(out, "name {id}"),
        IpcCall::Bad { id } => write!(out, "bad {id}"),
        IpcCall::Skip => out.push_str("skip"),
    }
}

fn push_core(alloc: Global, out: &mut String, call: &Call) -> Result<(), AllocError> {
    match call {
        Call::Command { id, words } => {
            write!(out, "command {id} ")?;
            push_words(out, words.as_slice())
        }
        Call::Get { id, name, format } => {
            write!(out, "get {id} {} {}", name.as_str(), format_name(*format))
        }
        Call::Set { id, name, value } => {
            write!(out, "set {id} {} ", name.as_str())?;
            push_value(alloc, out, value)
        }
        Call::Observe { id, name, format } => {
            write!(
                out,
                "observe {id} {} {}",
                name.as_str(),
                format_name(*format)
            )
        }
        Call::Unobserve { id } => write!(out, "unobserve {id}"),
        Call::Event { .. } | Call::Poll | Call::Abort { .. } => out.push_str("no line asks for it"),
    }
}

// The words, a `|` behind each.
fn push_words(out: &mut String, words: &[Text]) -> Result<(), AllocError> {
    for word in words {
        out.push_str(word.as_str())?;
        out.push('|')?;
    }
    Ok(())
}

fn push_value(alloc: Global, out: &mut String, value: &Value) -> Result<(), AllocError> {
    let text = json(alloc, value)?;
    out.push_str(text.as_str())
}

fn format_name(format: Format) -> &'static str {
    match format {
        Format::None => "none",
        Format::String => "string",
        Format::Flag => "flag",
        Format::Int64 => "int64",
        Format::Node => "node",
    }
}
