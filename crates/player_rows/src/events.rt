use mc_ring::Event;
use mc_value::{Format, Text, Words};
use rows::{Json, RowError, number_in, text_in};
use rows_values::value_in;
use std::alloc::Global;

/// An event of a row: an array of its name and what it carries.
pub fn event_in(alloc: Global, argument: &Json<'_>) -> Result<Event, RowError> {
    match argument {
        Json::String(name) => plain(name),
        Json::Array(parts) => carrying(alloc, parts.as_slice()),
        _ => Err(RowError::BadRow),
    }
}

fn plain(name: &str) -> Result<Event, RowError> {
    match name {
        "none" => Ok(Event::None),
        "shutdown" => Ok(Event::Shutdown),
        "start_file" => Ok(Event::StartFile),
        "file_loaded" => Ok(Event::FileLoaded),
        "seek" => Ok(Event::Seek),
        "playback_restart" => Ok(Event::PlaybackRestart),
        "overflow" => Ok(Event::Overflow),
        _ => Err(RowError::BadRow),
    }
}

fn carrying(alloc: Global, parts: &[Json<'_>]) -> Result<Event, RowError> {
    let [name, parts @ ..] = parts else {
        return Err(RowError::BadRow);
    };
    match text_in(name)? {
        "command_reply" => command_reply(parts),
        "message" => message(alloc, parts),
        "change" => change(alloc, parts),
        _ => Err(RowError::BadRow),
    }
}

fn command_reply(parts: &[Json<'_>]) -> Result<Event, RowError> {
    let [id, error] = parts else {
        return Err(RowError::BadRow);
    };
    let id = u64::try_from(number_in(id)?)?;
    let error = i32::try_from(number_in(error)?)?;
    Ok(Event::CommandReply { id, error })
}

fn message(alloc: Global, parts: &[Json<'_>]) -> Result<Event, RowError> {
    let mut words = Words::new(alloc);
    for part in parts {
        words.push(Text::new(alloc, text_in(part)?)?)?;
    }
    Ok(Event::Message { words })
}

fn change(alloc: Global, parts: &[Json<'_>]) -> Result<Event, RowError> {
    let [id, name, value] = parts else {
        return Err(RowError::BadRow);
    };
    let id = u64::try_from(number_in(id)?)?;
    let name = Text::new(alloc, text_in(name)?)?;
    let value = value_in(alloc, value)?;
    Ok(Event::Change {
        id,
        name,
        format: Format::Node,
        value,
    })
}
