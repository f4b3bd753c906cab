use mc_value::{
    Format, Text, Value, ValueError, Words, convert, copy_words, json, parse_seconds, path,
    seconds_text, value_text,
};
use rows::{Json, RowError, Table, named, number_in, one, push_flag, text_in, two};
use rows_values::value_in;
use std::alloc::Global;
use std::fmt::Write;

/// The calls of values.
#[derive(Drop)]
pub struct ValueTable;

impl Table for ValueTable {
    fn call(
        &mut self,
        alloc: Global,
        name: &str,
        arguments: &[Json<'_>],
        out: &mut String,
    ) -> Result<(), RowError> {
        answer(alloc, named(&WORDS, name)?, arguments, out)
    }
}

#[derive(Clone, Copy)]
enum Word {
    Text,
    Same,
    Words,
    Formats,
    Json,
    ValueText,
    ParseSeconds,
    SecondsText,
    Path,
    Copy,
    Equals,
}

const WORDS: [(&str, Word); 11] = [
    ("text", Word::Text),
    ("same", Word::Same),
    ("words", Word::Words),
    ("formats", Word::Formats),
    ("json", Word::Json),
    ("value_text", Word::ValueText),
    ("parse_seconds", Word::ParseSeconds),
    ("seconds_text", Word::SecondsText),
    ("path", Word::Path),
    ("copy", Word::Copy),
    ("equals", Word::Equals),
];

fn answer(
    alloc: Global,
    word: Word,
    arguments: &[Json<'_>],
    out: &mut String,
) -> Result<(), RowError> {
    match word {
        Word::Text => call_text(alloc, arguments, out),
        Word::Same => call_same(alloc, arguments, out),
        Word::Words => call_words(alloc, arguments, out),
        Word::Formats => call_formats(alloc, arguments, out),
        Word::Json => call_json(alloc, arguments, out),
        Word::ValueText => call_value_text(alloc, arguments, out),
        Word::ParseSeconds => call_parse_seconds(alloc, arguments, out),
        Word::SecondsText => call_seconds_text(alloc, arguments, out),
        Word::Path => call_path(alloc, arguments, out),
        Word::Copy => call_copy(alloc, arguments, out),
        Word::Equals => call_equals(alloc, arguments, out),
    }
}

// The text that is kept, and whether its copy is equal.
fn call_text(alloc: Global, arguments: &[Json<'_>], out: &mut String) -> Result<(), RowError> {
    let kept = Text::new(alloc, text_in(one(arguments)?)?)?;
    out.push_str(kept.as_str())?;
    out.push(' ')?;
    Ok(push_flag(out, kept.copy()? == kept)?)
}

fn call_same(alloc: Global, arguments: &[Json<'_>], out: &mut String) -> Result<(), RowError> {
    let (left, right) = two(arguments)?;
    let left = Text::new(alloc, text_in(left)?)?;
    let right = Text::new(alloc, text_in(right)?)?;
    Ok(push_flag(out, left == right)?)
}

// How many words the copy has, and whether they are equal.
fn call_words(alloc: Global, arguments: &[Json<'_>], out: &mut String) -> Result<(), RowError> {
    let words = words_in(alloc, arguments)?;
    let copied = copy_words(alloc, words.as_slice())?;
    write!(out, "{} ", copied.len())?;
    Ok(push_flag(out, copied.as_slice() == words.as_slice())?)
}

fn words_in(alloc: Global, arguments: &[Json<'_>]) -> Result<Words, RowError> {
    let mut words = Words::new(alloc);
    for argument in arguments {
        words.push(Text::new(alloc, text_in(argument)?)?)?;
    }
    Ok(words)
}

// The value in each format: as no value, as a string, a flag, a whole number, and as it is.
fn call_formats(alloc: Global, arguments: &[Json<'_>], out: &mut String) -> Result<(), RowError> {
    let value = value_in(alloc, one(arguments)?)?;
    push_format(alloc, &value, Format::None, out)?;
    out.push(' ')?;
    push_format(alloc, &value, Format::String, out)?;
    out.push(' ')?;
    push_format(alloc, &value, Format::Flag, out)?;
    out.push(' ')?;
    push_format(alloc, &value, Format::Int64, out)?;
    out.push(' ')?;
    push_format(alloc, &value, Format::Node, out)
}

fn push_format(alloc: Global, value: &Value, to: Format, out: &mut String) -> Result<(), RowError> {
    match convert(alloc, value, to) {
        Ok(value) => push_json(alloc, &value, out),
        Err(error) => push_refusal(error, out),
    }
}

fn push_json(alloc: Global, value: &Value, out: &mut String) -> Result<(), RowError> {
    let text = json(alloc, value)?;
    Ok(out.push_str(text.as_str())?)
}

fn push_refusal(error: ValueError, out: &mut String) -> Result<(), RowError> {
    match error {
        ValueError::PropertyFormat => Ok(out.push_str("refused")?),
        ValueError::BadSeconds => Ok(out.push_str("no-seconds")?),
        ValueError::NoMemory => Err(RowError::NoMemory),
    }
}

fn call_json(alloc: Global, arguments: &[Json<'_>], out: &mut String) -> Result<(), RowError> {
    let value = value_in(alloc, one(arguments)?)?;
    push_json(alloc, &value, out)
}

fn call_value_text(
    alloc: Global,
    arguments: &[Json<'_>],
    out: &mut String,
) -> Result<(), RowError> {
    let value = value_in(alloc, one(arguments)?)?;
    let text = value_text(alloc, &value)?;
    Ok(out.push_str(text.as_str())?)
}

fn call_parse_seconds(
    _alloc: Global,
    arguments: &[Json<'_>],
    out: &mut String,
) -> Result<(), RowError> {
    match parse_seconds(text_in(one(arguments)?)?) {
        Ok(time) => Ok(write!(out, "{time}")?),
        Err(error) => push_refusal(error, out),
    }
}

fn call_seconds_text(
    alloc: Global,
    arguments: &[Json<'_>],
    out: &mut String,
) -> Result<(), RowError> {
    let text = seconds_text(alloc, number_in(one(arguments)?)?)?;
    Ok(out.push_str(text.as_str())?)
}

fn call_path(alloc: Global, arguments: &[Json<'_>], out: &mut String) -> Result<(), RowError> {
    let (at, value) = two(arguments)?;
    let value = value_in(alloc, value)?;
    match path(alloc, &value, text_in(at)?)? {
        Some(found) => push_json(alloc, &found, out),
        None => Ok(out.push_str("nowhere")?),
    }
}

// The copy, and whether it is equal.
fn call_copy(alloc: Global, arguments: &[Json<'_>], out: &mut String) -> Result<(), RowError> {
    let value = value_in(alloc, one(arguments)?)?;
    let copied = value.copy(alloc)?;
    push_json(alloc, &copied, out)?;
    out.push(' ')?;
    Ok(push_flag(out, copied.equals(&value))?)
}

fn call_equals(alloc: Global, arguments: &[Json<'_>], out: &mut String) -> Result<(), RowError> {
    let (left, right) = two(arguments)?;
    let left = value_in(alloc, left)?;
    let right = value_in(alloc, right)?;
    Ok(push_flag(out, left.equals(&right))?)
}
