use crate::own::Own;
use mc_playlist::{
    ListAct, ListError, ListFacts, ListReads, ListStep, ListTable, Playlist, parse_list,
};
use mc_props::Reading;
use mc_value::{Text, json};
use rows::{Json, RowError, number_in, one, push_flag, text_in, two};
use std::alloc::{AllocError, Global};
use std::fmt::Write;

const MOST_SHOWN: usize = 20;

/// How many entries there are, the list's place, how often one was played, and the names where
/// they are few.
pub fn push_list(out: &mut String, facts: &ListFacts) -> Result<(), AllocError> {
    let names = facts.names.as_slice();
    write!(out, "{} ", names.len())?;
    match facts.pos {
        Some(pos) => write!(out, "{pos}")?,
        None => out.push_str("none")?,
    }
    write!(out, " {}", facts.plays)?;
    if names.len() <= MOST_SHOWN {
        push_names(out, names)?;
    }
    Ok(())
}

fn push_names(out: &mut String, names: &[Text]) -> Result<(), AllocError> {
    for name in names {
        out.push_str(" ")?;
        out.push_str(name.as_str())?;
    }
    Ok(())
}

/// Why a call was refused; it takes no memory.
pub fn push_refusal(out: &mut String, error: ListError) -> Result<(), RowError> {
    match error {
        ListError::NotFound => out.push_str("NotFound")?,
        ListError::NoEntry { index, count } => write!(out, "NoEntry {index} {count}")?,
        ListError::TooMany => out.push_str("TooMany")?,
        ListError::TooLong => out.push_str("TooLong")?,
        ListError::NotUtf8 => out.push_str("NotUtf8")?,
        ListError::BadLine { line } => write!(out, "BadLine {line}")?,
        ListError::NoMemory => return Err(RowError::NoMemory),
    }
    Ok(())
}

// The step that a line asks for; `played` is a step of its own here.
fn step_in(alloc: Global, line: &str) -> Result<ListStep, RowError> {
    if line == "played" {
        return Ok(ListStep::Played);
    }
    let script = match parse_list(alloc, line.as_bytes()) {
        Ok(script) => script,
        Err(ListError::NoMemory) => return Err(RowError::NoMemory),
        Err(_) => return Err(RowError::BadRow),
    };
    match script.as_slice() {
        [(_, ListAct::Step(step))] => Ok(step.copy()?),
        _ => Err(RowError::BadRow),
    }
}

/// What a step answers, and the list behind it.
pub fn call_step(
    alloc: Global,
    playlist: &mut Playlist,
    arguments: &[Json<'_>],
    out: &mut String,
) -> Result<(), RowError> {
    let step = step_in(alloc, text_in(one(arguments)?)?)?;
    match playlist.step(step) {
        Ok(()) => out.push_str("ok")?,
        Err(error) => push_refusal(out, error)?,
    }
    out.push_str(" ")?;
    Ok(push_list(out, playlist.facts())?)
}

/// So many entries more of one name.
pub fn call_fill(
    alloc: Global,
    playlist: &mut Playlist,
    arguments: &[Json<'_>],
    out: &mut String,
) -> Result<(), RowError> {
    let (count, name) = two(arguments)?;
    let name = text_in(name)?;
    for _ in 0..u32::try_from(number_in(count)?)? {
        match playlist.step(ListStep::Add(Text::new(alloc, name)?)) {
            Ok(()) => (),
            Err(error) => {
                push_refusal(out, error)?;
                out.push_str(" ")?;
                break;
            }
        }
    }
    Ok(push_list(out, playlist.facts())?)
}

/// What the property of a name shows.
pub fn call_get<F: ListReads<Own>>(
    alloc: Global,
    table: &ListTable<F, Own>,
    facts: &ListFacts,
    arguments: &[Json<'_>],
    out: &mut String,
) -> Result<(), RowError> {
    match table.get(text_in(one(arguments)?)?, facts) {
        Ok(Reading::Is(value)) => Ok(out.push_str(json(alloc, &value)?.as_str())?),
        Ok(Reading::Unavailable) => Ok(out.push_str("unavailable")?),
        Err(error) => push_refusal(out, error),
    }
}

/// The place of the property of a name.
pub fn call_find<F: ListReads<Own>>(
    table: &ListTable<F, Own>,
    arguments: &[Json<'_>],
    out: &mut String,
) -> Result<(), RowError> {
    match table.find(text_in(one(arguments)?)?) {
        Some(place) => Ok(write!(out, "{place}")?),
        None => Ok(out.push_str("none")?),
    }
}

/// Whether the property at a place depends on a field of a mask.
pub fn call_affected<F: ListReads<Own>>(
    table: &ListTable<F, Own>,
    arguments: &[Json<'_>],
    out: &mut String,
) -> Result<(), RowError> {
    let (place, mask) = two(arguments)?;
    let place = u32::try_from(number_in(place)?)?;
    let mask = u32::try_from(number_in(mask)?)?;
    Ok(push_flag(out, table.affected(place, mask))?)
}
