ghost use Rattle.std.specs.Prelude.{◌≡◌, ◌≤◌, ◌<◌, ◌+◌, ◌-◌, ◌^◌, [], OnOk, length};
ghost use Rattle.std.specs.Str.Lines.{strip_carriage_return};
ghost use Rattle.mc_script.specs.Script.{script_lines};
ghost use Rattle.mc_playlist.specs.Answers.{Answers};
ghost use Rattle.mc_playlist.specs.Lines.{acts_from, line_said, list_said};
ghost use Rattle.mc_playlist.specs.Reading.{MeansAt, Takes};

use crate::acts::{ListAct, ListScript};
use crate::lines::{LineError, parse_line};
use crate::steps::ListError;
use std::alloc::Global;
use std::str;

const MOST_OCTETS: usize = 16_777_216;

/// What the lines of a list's script ask for: a text in UTF-8 of at most 16,777,216 octets. Its
/// lines and words are those of a script that `parse_script` of `mc_script` reads: an LF ends a
/// line, and one CR at a line's end is dropped; a line without a word is skipped, and so is one
/// that begins with `#`. The lines are those that `ListAct` and `ListStep` name. A place is decimal
/// digits without a needless 0 in front, below 2^32; the NAME of an `add` is not empty and does not
/// begin with a dash.
///
/// `TooLong` exactly where there are more octets; else `NotUtf8` exactly where they aren't UTF-8;
/// else `BadLine` exactly at the first line outside the grammar. `NoMemory` where there is none for
/// the script.
pub fn parse_list(alloc: Global, bytes: &[u8]) -> Result<ListScript, ListError>
    ensures { Answers result (list_said bytes.now) }
{
    if bytes.len() > MOST_OCTETS {
        return Err(ListError::TooLong);
    }
    match str::from_utf8(bytes) {
        Ok(text) => parse_text(alloc, text),
        Err(_) => Err(ListError::NotUtf8),
    }
}

fn parse_text(alloc: Global, text: &str) -> Result<ListScript, ListError>
    requires { length text.now ≤ 16777216 }
    ensures { Answers result (acts_from 1 (script_lines text.now)) }
{
    let mut reading = Reading::new(alloc);
    for line in text.split('\n') {
        reading.take(alloc, line)?;
    }
    Ok(reading.script)
}

/// The acts of the lines so far, and how many lines they are.
#[derive(Drop)]
pub struct Reading {
    /// The acts of the lines so far, in their order.
    pub script: ListScript,
    /// How many lines they are, those without an act too.
    pub number: u32,
}

impl Reading {
    fn new(alloc: Global) -> Reading
        ensures script { result.script ≡ [] }
        ensures number { result.number ≡ 0 }
    {
        Reading {
            script: ListScript::new(alloc),
            number: 0,
        }
    }

    fn take(&mut self, alloc: Global, line: &str) -> Result<(), ListError>
        requires { self.old.number < 2 ^ 32 - 1 }
        ensures number { OnOk result (self.new.number ≡ self.old.number + 1) }
        ensures taken { Takes self.old self.new (strip_carriage_return line.now) result }
    {
        self.number += 1;
        if let Some(act) = parse_numbered(alloc, self.number, line)? {
            self.script.push((self.number, act))?;
        }
        Ok(())
    }
}

// What the line of this number asks for, nothing where it has no word or is a comment; else a `BadLine` of
// that number.
fn parse_numbered(alloc: Global, number: u32, line: &str) -> Result<Option<ListAct>, ListError>
    ensures { MeansAt number result (line_said (strip_carriage_return line.now)) }
{
    match parse_line(alloc, without_return(line)) {
        Ok(act) => Ok(act),
        Err(LineError::Bad) => Err(ListError::BadLine { line: number }),
        Err(LineError::NoMemory) => Err(ListError::NoMemory),
    }
}

// The line without the CR at its end, where it has one.
fn without_return(line: &str) -> &str
    ensures { result.now ≡ strip_carriage_return line.now }
{
    match line.strip_suffix('\r') {
        Some(front) => front,
        None => line,
    }
}
