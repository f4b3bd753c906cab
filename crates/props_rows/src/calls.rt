use mc_props::{Facts, Meaning, PropError, PropTable, Reads, Write as Written};
use mc_value::{Format, Value, json};
use rows::{Json, RowError, named, number_in, one, push_flag, text_in, two};
use rows_values::value_in;
use std::alloc::{AllocError, Global};
use std::fmt::Write;

const FORMATS: [(&str, Format); 5] = [
    ("none", Format::None),
    ("string", Format::String),
    ("flag", Format::Flag),
    ("int64", Format::Int64),
    ("node", Format::Node),
];

fn push_value(alloc: Global, out: &mut String, value: &Value) -> Result<(), AllocError> {
    let text = json(alloc, value)?;
    out.push_str(text.as_str())
}

// The refusal's name and its number.
fn push_error(out: &mut String, error: PropError) -> Result<(), RowError> {
    let name = match error {
        PropError::NotFound => "NotFound",
        PropError::ReadOnly => "ReadOnly",
        PropError::Unavailable => "Unavailable",
        PropError::PropertyFormat => "PropertyFormat",
        PropError::NoSuchTrack => "NoSuchTrack",
        PropError::Unsupported => "Unsupported",
        PropError::NoMemory => return Err(RowError::NoMemory),
    };
    Ok(write!(out, "{name} {}", error.number())?)
}

/// The JSON of a property in a format, or its refusal.
pub fn call_get<F: Reads<M>, M: Meaning>(
    alloc: Global,
    table: &PropTable<F, M>,
    facts: &Facts,
    arguments: &[Json<'_>],
    out: &mut String,
) -> Result<(), RowError> {
    let (name, format) = two(arguments)?;
    let format = named(&FORMATS, text_in(format)?)?;
    match table.get(text_in(name)?, facts, format) {
        Ok(value) => Ok(push_value(alloc, out, &value)?),
        Err(error) => push_error(out, error),
    }
}

/// What setting a property writes, or its refusal.
pub fn call_set<F: Reads<M>, M: Meaning>(
    alloc: Global,
    table: &PropTable<F, M>,
    facts: &Facts,
    arguments: &[Json<'_>],
    out: &mut String,
) -> Result<(), RowError> {
    let (name, value) = two(arguments)?;
    let value = value_in(alloc, value)?;
    match table.set(text_in(name)?, facts, &value) {
        Ok(written) => Ok(push_written(out, written)?),
        Err(error) => push_error(out, error),
    }
}

// Of a selection the video, audio and subtitle track, 0 for none.
fn push_written(out: &mut String, written: Written) -> Result<(), AllocError> {
    match written {
        Written::Pause(flag) => write!(out, "pause {flag}"),
        Written::Mute(flag) => write!(out, "mute {flag}"),
        Written::Select(set) => write!(
            out,
            "{} {} {}",
            set.video.unwrap_or(0),
            set.audio.unwrap_or(0),
            set.sub.unwrap_or(0)
        ),
    }
}

/// The format and the value that an observer of a name has.
pub fn call_see<F: Reads<M>, M: Meaning>(
    alloc: Global,
    table: &PropTable<F, M>,
    facts: &Facts,
    arguments: &[Json<'_>],
    out: &mut String,
) -> Result<(), RowError> {
    let (name, format) = two(arguments)?;
    let format = named(&FORMATS, text_in(format)?)?;
    let name = text_in(name)?;
    let (given, value) = table.present(table.find(name), name, format, facts)?;
    write!(out, "{given:?} ")?;
    Ok(push_value(alloc, out, &value)?)
}

/// The place of the property of a name.
pub fn call_find<F: Reads<M>, M: Meaning>(
    table: &PropTable<F, M>,
    arguments: &[Json<'_>],
    out: &mut String,
) -> Result<(), RowError> {
    match table.find(text_in(one(arguments)?)?) {
        Some(place) => Ok(write!(out, "{place}")?),
        None => Ok(out.push_str("none")?),
    }
}

/// Whether the property at a place depends on a field of a mask.
pub fn call_affected<F: Reads<M>, M: Meaning>(
    table: &PropTable<F, M>,
    arguments: &[Json<'_>],
    out: &mut String,
) -> Result<(), RowError> {
    let (place, mask) = two(arguments)?;
    let place = u32::try_from(number_in(place)?)?;
    let mask = u32::try_from(number_in(mask)?)?;
    Ok(push_flag(out, table.affected(place, mask))?)
}
