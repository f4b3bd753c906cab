use crate::calls::push_refusal;
use mc_playlist::{ListAct, ListError, ListScript, ListStep, parse_list};
use rows::{Json, RowError, number_in, octets_in, one, text_in, two};
use std::alloc::{AllocError, Global};
use std::fmt::Write;

fn push_step(out: &mut String, step: &ListStep) -> Result<(), AllocError> {
    match step {
        ListStep::Add(name) => write!(out, "add {}", name.as_str()),
        ListStep::Remove(at) => write!(out, "remove {at}"),
        ListStep::Move(from, before) => write!(out, "move {from} {before}"),
        ListStep::Clear => out.push_str("clear"),
        ListStep::Next => out.push_str("next"),
        ListStep::Prev => out.push_str("prev"),
        ListStep::Jump(at) => write!(out, "jump {at}"),
        ListStep::Played => out.push_str("played"),
    }
}

fn push_act(out: &mut String, act: &ListAct) -> Result<(), AllocError> {
    match act {
        ListAct::Step(step) => push_step(out, step),
        ListAct::Play => out.push_str("play"),
        ListAct::PlayAll => out.push_str("play all"),
        ListAct::Watch(name) => write!(out, "watch {}", name.as_str()),
    }
}

// Each act with the number of its line.
fn push_script(out: &mut String, script: &ListScript) -> Result<(), AllocError> {
    write!(out, "{}", script.as_slice().len())?;
    for (line, act) in script.as_slice() {
        write!(out, ", {line} ")?;
        push_act(out, act)?;
    }
    Ok(())
}

fn push_parsed(out: &mut String, parsed: Result<ListScript, ListError>) -> Result<(), RowError> {
    match parsed {
        Ok(script) => Ok(push_script(out, &script)?),
        Err(error) => push_refusal(out, error),
    }
}

/// What a script's text says.
pub fn call_parse(alloc: Global, arguments: &[Json<'_>], out: &mut String) -> Result<(), RowError> {
    let text = text_in(one(arguments)?)?;
    push_parsed(out, parse_list(alloc, text.as_bytes()))
}

/// What octets say, which may be no text.
pub fn call_octets(
    alloc: Global,
    arguments: &[Json<'_>],
    out: &mut String,
) -> Result<(), RowError> {
    let octets = octets_in(alloc, one(arguments)?)?;
    push_parsed(out, parse_list(alloc, octets.as_slice()))
}

/// What a script of so many `#` and then these octets says.
pub fn call_long(alloc: Global, arguments: &[Json<'_>], out: &mut String) -> Result<(), RowError> {
    let (count, tail) = two(arguments)?;
    let count = u32::try_from(number_in(count)?)?;
    let mut octets = vec![in alloc; b'#'; count as usize]?;
    octets.extend_from_slice(octets_in(alloc, tail)?.as_slice())?;
    push_parsed(out, parse_list(alloc, octets.as_slice()))
}
