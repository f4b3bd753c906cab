use crate::records::record_in;
use crate::scripts::{push_acts, push_refusal};
use mc_journal::DemuxJournal;
use mc_script::{ScriptError, demux_text, parse_run_line, parse_script};
use rows::{Json, RowError, Table, named, number_in, octets_in, one, text_in, two};
use std::alloc::{AllocError, Global};
use std::fmt::Write;

/// The calls of scripts; no row leaves anything to another.
#[derive(Drop)]
pub struct ScriptTable;

#[derive(Clone, Copy)]
enum Word {
    RunLine,
    Script,
    Octets,
    Long,
    Told,
}

const WORDS: [(&str, Word); 5] = [
    ("run_line", Word::RunLine),
    ("script", Word::Script),
    ("octets", Word::Octets),
    ("long", Word::Long),
    ("told", Word::Told),
];

impl Table for ScriptTable {
    fn call(
        &mut self,
        alloc: Global,
        name: &str,
        arguments: &[Json<'_>],
        out: &mut String,
    ) -> Result<(), RowError> {
        match named(&WORDS, name)? {
            Word::RunLine => call_run_line(alloc, arguments, out),
            Word::Script => call_script(alloc, arguments, out),
            Word::Octets => call_octets(alloc, arguments, out),
            Word::Long => call_long(alloc, arguments, out),
            Word::Told => call_told(alloc, arguments, out),
        }
    }
}

fn words_in(alloc: Global, arguments: &[Json<'_>]) -> Result<Vec<String>, RowError> {
    let mut words = Vec::new(alloc);
    for argument in arguments {
        words.push(String::from_str(alloc, text_in(argument)?)?)?;
    }
    Ok(words)
}

// The limits of a line of words, and the numbers of the words that are files.
fn call_run_line(alloc: Global, arguments: &[Json<'_>], out: &mut String) -> Result<(), RowError> {
    let words = words_in(alloc, arguments)?;
    let Some(line) = parse_run_line(words.as_slice()) else {
        return Ok(out.push_str("refused")?);
    };
    let limits = line.limits;
    write!(
        out,
        "forward {} back {} readahead {} file {}",
        limits.forward, limits.back, limits.readahead, line.file
    )?;
    match line.script {
        Some(script) => Ok(write!(out, " script {script}")?),
        None => Ok(()),
    }
}

// The acts of a script, or the line at which it is refused and why.
fn push_script(alloc: Global, text: &[u8], out: &mut String) -> Result<(), RowError> {
    match parse_script(alloc, text) {
        Ok(script) => Ok(push_acts(script.as_slice(), out)?),
        Err(ScriptError::Refused { line, why }) => Ok(push_refusal(line, why, out)?),
        Err(ScriptError::NoMemory) => Err(RowError::NoMemory),
    }
}

fn call_script(alloc: Global, arguments: &[Json<'_>], out: &mut String) -> Result<(), RowError> {
    push_script(alloc, text_in(one(arguments)?)?.as_bytes(), out)
}

fn call_octets(alloc: Global, arguments: &[Json<'_>], out: &mut String) -> Result<(), RowError> {
    let text = octets_in(alloc, one(arguments)?)?;
    push_script(alloc, text.as_slice(), out)
}

// A script of so many `#`, and then the octets.
fn call_long(alloc: Global, arguments: &[Json<'_>], out: &mut String) -> Result<(), RowError> {
    let (size, behind) = two(arguments)?;
    let size = u32::try_from(number_in(size)?)?;
    let behind = octets_in(alloc, behind)?;
    let mut text = Vec::new(alloc);
    text.resize(size as usize, b'#')?;
    for octet in behind {
        text.push(octet)?;
    }
    push_script(alloc, text.as_slice(), out)
}

// The text of a journal of these records, with `\n` for the end of each line.
fn call_told(alloc: Global, arguments: &[Json<'_>], out: &mut String) -> Result<(), RowError> {
    let mut journal = DemuxJournal::new(alloc);
    for argument in arguments {
        journal.push(record_in(alloc, argument)?)?;
    }
    let text = demux_text(alloc, &journal)?;
    Ok(push_lines(text.as_str(), out)?)
}

fn push_lines(text: &str, out: &mut String) -> Result<(), AllocError> {
    for letter in text.chars() {
        if letter == '\n' {
            out.push_str("\\n")?;
        } else {
            out.push(letter)?;
        }
    }
    Ok(())
}
