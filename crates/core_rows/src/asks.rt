use mc_dispatch::Call;
use mc_value::{Format, Text, Words};
use rows::{Json, RowError, flag_in, number_in, text_in};
use rows_values::value_in;
use std::alloc::Global;

/// A number that is no less than 0.
pub fn long_in(argument: &Json<'_>) -> Result<u64, RowError> {
    Ok(u64::try_from(number_in(argument)?)?)
}

fn format_in(argument: &Json<'_>) -> Result<Format, RowError> {
    match text_in(argument)? {
        "none" => Ok(Format::None),
        "string" => Ok(Format::String),
        "flag" => Ok(Format::Flag),
        "int64" => Ok(Format::Int64),
        "node" => Ok(Format::Node),
        _ => Err(RowError::BadRow),
    }
}

fn words_in(alloc: Global, parts: &[Json<'_>]) -> Result<Words, RowError> {
    let mut words = Words::new(alloc);
    for part in parts {
        words.push(Text::new(alloc, text_in(part)?)?)?;
    }
    Ok(words)
}

fn set_in(alloc: Global, parts: &[Json<'_>]) -> Result<Call, RowError> {
    let [id, name, value] = parts else {
        return Err(RowError::BadRow);
    };
    let id = long_in(id)?;
    let name = Text::new(alloc, text_in(name)?)?;
    let value = value_in(alloc, value)?;
    Ok(Call::Set { id, name, value })
}

fn command_in(alloc: Global, parts: &[Json<'_>]) -> Result<Call, RowError> {
    let [id, words @ ..] = parts else {
        return Err(RowError::BadRow);
    };
    let id = long_in(id)?;
    let words = words_in(alloc, words)?;
    Ok(Call::Command { id, words })
}

// A property's name in a format, under a number.
fn named_in(alloc: Global, parts: &[Json<'_>]) -> Result<(u64, Text, Format), RowError> {
    let [id, name, format] = parts else {
        return Err(RowError::BadRow);
    };
    let id = long_in(id)?;
    let format = format_in(format)?;
    Ok((id, Text::new(alloc, text_in(name)?)?, format))
}

fn id_in(parts: &[Json<'_>]) -> Result<u64, RowError> {
    match parts {
        [id] => long_in(id),
        _ => Err(RowError::BadRow),
    }
}

fn event_in(parts: &[Json<'_>]) -> Result<Call, RowError> {
    let [number, on] = parts else {
        return Err(RowError::BadRow);
    };
    let number = u32::try_from(number_in(number)?)?;
    let on = flag_in(on)?;
    Ok(Call::Event { number, on })
}

/// A client's call: its name, and what it bears.
pub fn call_in(alloc: Global, name: &str, parts: &[Json<'_>]) -> Result<Call, RowError> {
    match name {
        "command" => command_in(alloc, parts),
        "get" => {
            let (id, name, format) = named_in(alloc, parts)?;
            Ok(Call::Get { id, name, format })
        }
        "set" => set_in(alloc, parts),
        "observe" => {
            let (id, name, format) = named_in(alloc, parts)?;
            Ok(Call::Observe { id, name, format })
        }
        "unobserve" => Ok(Call::Unobserve { id: id_in(parts)? }),
        "event" => event_in(parts),
        "abort" => Ok(Call::Abort { id: id_in(parts)? }),
        "poll" => Ok(Call::Poll),
        _ => Err(RowError::BadRow),
    }
}
