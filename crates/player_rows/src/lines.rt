use mc_command::{Command, CommandError, parse_command, split_line};
use mc_value::Text;
use rows::{Json, RowError, named, one, text_in};
use std::alloc::{AllocError, Global};
use std::fmt::Write;

#[derive(Clone, Copy)]
enum Word {
    Split,
    Parse,
}

const WORDS: [(&str, Word); 2] = [("split", Word::Split), ("parse", Word::Parse)];

/// A call of a line.
pub fn call_line(
    alloc: Global,
    name: &str,
    arguments: &[Json<'_>],
    out: &mut String,
) -> Result<(), RowError> {
    let line = text_in(one(arguments)?)?;
    match named(&WORDS, name)? {
        Word::Split => split(alloc, line, out),
        Word::Parse => parse(alloc, line, out),
    }
}

fn split(alloc: Global, line: &str, out: &mut String) -> Result<(), RowError> {
    match split_line(alloc, line) {
        Ok(words) => Ok(push_words(out, words.as_slice())?),
        Err(error) => push_error(out, error),
    }
}

fn parse(alloc: Global, line: &str, out: &mut String) -> Result<(), RowError> {
    match parsed(alloc, line) {
        Ok(command) => Ok(push_command(out, &command)?),
        Err(error) => push_error(out, error),
    }
}

fn parsed(alloc: Global, line: &str) -> Result<Command, CommandError> {
    let words = split_line(alloc, line)?;
    parse_command(alloc, &words)
}

fn push_error(out: &mut String, error: CommandError) -> Result<(), RowError> {
    match error {
        CommandError::Bad { word } => Ok(write!(out, "bad {word}")?),
        CommandError::NoMemory => Err(RowError::NoMemory),
    }
}

// The words, a `|` behind each.
fn push_words(out: &mut String, words: &[Text]) -> Result<(), AllocError> {
    for word in words {
        out.push_str(word.as_str())?;
        out.push('|')?;
    }
    Ok(())
}

fn push_command(out: &mut String, command: &Command) -> Result<(), AllocError> {
    match command {
        Command::Seek {
            t,
            absolute,
            forward,
        } => write!(out, "seek {t} {absolute} {forward}"),
        Command::Set { name, value } => {
            write!(out, "set {} to {}", name.as_str(), value.as_str())
        }
        Command::Cycle { name } => write!(out, "cycle {}", name.as_str()),
        Command::Message { words } => {
            out.push_str("message ")?;
            push_words(out, words.as_slice())
        }
        Command::MessageTo { client, words } => {
            write!(out, "message to {}: ", client.as_str())?;
            push_words(out, words.as_slice())
        }
        Command::Ignore => out.push_str("ignore"),
        Command::Quit => out.push_str("quit"),
    }
}
