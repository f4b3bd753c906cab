use mc_ring::Event;
use mc_value::{Format, Text, Words};
use rows::{Json, RowError, named, number_in, one, text_in, two};
use rows_values::value_in;
use std::alloc::Global;

/// An event of a row: its name, or an array of that and what it carries.
pub fn event_in(alloc: Global, argument: &Json<'_>) -> Result<Event, RowError> {
    match argument {
        Json::String(name) => plain(name),
        Json::Array(parts) => carrying(alloc, parts.as_slice()),
        _ => Err(RowError::BadRow),
    }
}

fn plain(name: &str) -> Result<Event, RowError> {
    match name {
        "none" => Ok(Event::None),
        "shutdown" => Ok(Event::Shutdown),
        "start_file" => Ok(Event::StartFile),
        "file_loaded" => Ok(Event::FileLoaded),
        "seek" => Ok(Event::Seek),
        "playback_restart" => Ok(Event::PlaybackRestart),
        "overflow" => Ok(Event::Overflow),
        _ => Err(RowError::BadRow),
    }
}

fn carrying(alloc: Global, parts: &[Json<'_>]) -> Result<Event, RowError> {
    let [name, parts @ ..] = parts else {
        return Err(RowError::BadRow);
    };
    match text_in(name)? {
        "end_file" => end_file(parts),
        "set_reply" => set_reply(parts),
        "message" => message(alloc, parts),
        "change" => change(alloc, parts),
        _ => Err(RowError::BadRow),
    }
}

fn end_file(parts: &[Json<'_>]) -> Result<Event, RowError> {
    let reason = u32::try_from(number_in(one(parts)?)?)?;
    Ok(Event::EndFile { reason })
}

fn set_reply(parts: &[Json<'_>]) -> Result<Event, RowError> {
    let (id, error) = two(parts)?;
    let id = u64::try_from(number_in(id)?)?;
    let error = i32::try_from(number_in(error)?)?;
    Ok(Event::SetReply { id, error })
}

fn message(alloc: Global, parts: &[Json<'_>]) -> Result<Event, RowError> {
    let mut words = Words::new(alloc);
    for part in parts {
        words.push(Text::new(alloc, text_in(part)?)?)?;
    }
    Ok(Event::Message { words })
}

const FORMATS: [(&str, Format); 5] = [
    ("none", Format::None),
    ("string", Format::String),
    ("flag", Format::Flag),
    ("int64", Format::Int64),
    ("node", Format::Node),
];

fn change(alloc: Global, parts: &[Json<'_>]) -> Result<Event, RowError> {
    let [id, name, format, value] = parts else {
        return Err(RowError::BadRow);
    };
    let id = u64::try_from(number_in(id)?)?;
    let name = Text::new(alloc, text_in(name)?)?;
    let format = named(&FORMATS, text_in(format)?)?;
    let value = value_in(alloc, value)?;
    Ok(Event::Change {
        id,
        name,
        format,
        value,
    })
}
