ghost use Rattle.std.specs.Prelude.{◌≡◌, ◌≤◌, ◌<◌, ◌+◌, ◌-◌, ◌^◌, [], IfOk, OnOk, Result, List, ℕ, false, length};
ghost use Rattle.std.specs.Str.Lines.{strip_carriage_return};
ghost use Rattle.mc_script.specs.Grammar.{Found, Says};
ghost use Rattle.mc_script.specs.Pairing.{AreBounded, IsPaired};
ghost use Rattle.mc_script.specs.Reading.{Takes};
ghost use Rattle.mc_script.specs.Script.{Gives, MeansAt, acts_from, line_act, out_after, script_lines, script_of};
ghost use Rattle.mc_script.specs.declared.acts.Act.{Act};
ghost use Rattle.mc_script.specs.declared.acts.ScriptWhy.{ScriptWhy};
ghost use Rattle.mc_script.specs.declared.acts.ScriptError.TheVariants.{Refused};

use crate::acts::{Act, Script, ScriptError, ScriptWhy};
use crate::lines::{LineError, parse_line};
use std::alloc::Global;
use std::str;

const MOST_OCTETS: usize = 16_777_216;

/// The acts of a script, a text in UTF-8 of at most 16,777,216 octets. An LF ends a line, and one
/// CR before it or at the text's end is dropped. The words of a line are as `split_line` of
/// `mc_command` spells them; a line without a word is skipped, and so is one that begins with `#`.
/// `docs/SCRIPTS.md` has the lines.
///
/// `Refused` names the first line outside this grammar, counted from 1, and why: `Word` where its
/// words have no form, or may not stand there (`demux`, `demux take` and `drain` while a job is
/// taken, `demux give` while none is), else `Number` where a number or a time is wrong. At line 0
/// the text as a whole is refused: `Size` where it is too long, else `Utf8`. `NoMemory` where there
/// is none for the acts.
pub fn parse_script(alloc: Global, bytes: &[u8]) -> Result<Script, ScriptError>
    ensures value { Gives result (script_of bytes.now) }
    // The acts, or the refusal, are what the text says, line by line and word by word.
    ensures said { Found result (Says bytes.now) }
    // It says nothing else.
    ensures only { (said : Result (List (ℕ × Act)) (ℕ × ScriptWhy)) → Says bytes.now said
        → Gives result said }
    // A job is taken and given in turn, with no plain `demux` and no `drain` between.
    ensures paired { IfOk result (IsPaired false) }
    // Counts are 1 to 1000000, and times at most 2^62 nanoseconds on either side of 0.
    ensures bounded { IfOk result AreBounded }
{
    parse_octets(alloc, bytes)
}

fn parse_octets(alloc: Global, bytes: &[u8]) -> Result<Script, ScriptError>
    ensures { Gives result (script_of bytes.now) }
{
    if bytes.len() > MOST_OCTETS {
        return Err(refusal_of_all(ScriptWhy::Size));
    }
    match str::from_utf8(bytes) {
        Ok(text) => parse_text(alloc, text),
        Err(_) => Err(refusal_of_all(ScriptWhy::Utf8)),
    }
}

fn refusal_of_all(why: ScriptWhy) -> ScriptError
    ensures { result ≡ Refused 0 why }
{
    ScriptError::Refused { line: 0, why }
}

fn parse_text(alloc: Global, text: &str) -> Result<Script, ScriptError>
    requires { length text.now ≤ 16777216 }
    ensures { Gives result (acts_from 1 false (script_lines text.now)) }
{
    let mut reading = Reading::new(alloc);
    for line in text.split('\n') {
        reading.take(alloc, line)?;
    }
    Ok(reading.script)
}

/// The acts of the lines so far, how many lines they are, and whether a job is out behind them.
#[derive(Drop)]
pub struct Reading {
    /// The acts, each with the number of its line.
    pub script: Script,
    /// How many lines were read.
    pub number: u32,
    /// Whether a job that was taken has still to be given.
    pub is_out: bool,
}

impl Reading {
    fn new(alloc: Global) -> Reading
        ensures script { result.script ≡ [] }
        ensures number { result.number ≡ 0 }
        ensures is_out { result.is_out ≡ false }
    {
        Reading {
            script: Script::new(alloc),
            number: 0,
            is_out: false,
        }
    }

    fn take(&mut self, alloc: Global, line: &str) -> Result<(), ScriptError>
        requires { self.old.number < 2 ^ 32 - 1 }
        ensures number { OnOk result (self.new.number ≡ self.old.number + 1) }
        ensures taken { Takes self.old self.new (strip_carriage_return line.now) result }
    {
        self.number += 1;
        if let Some(act) = parse_numbered(alloc, self.number, self.is_out, line)? {
            self.is_out = out_after(&act, self.is_out);
            self.script.push((self.number, act))?;
        }
        Ok(())
    }
}

fn parse_numbered(
    alloc: Global,
    number: u32,
    is_out: bool,
    line: &str,
) -> Result<Option<Act>, ScriptError>
    ensures { MeansAt number result (line_act is_out (strip_carriage_return line.now)) }
{
    match parse_line(alloc, is_out, without_return(line)) {
        Ok(act) => Ok(act),
        Err(LineError::Refused(why)) => Err(ScriptError::Refused { line: number, why }),
        Err(LineError::NoMemory) => Err(ScriptError::NoMemory),
    }
}

fn without_return(line: &str) -> &str
    ensures { result.now ≡ strip_carriage_return line.now }
{
    match line.strip_suffix('\r') {
        Some(front) => front,
        None => line,
    }
}

fn out_after(act: &Act, is_out: bool) -> bool
    ensures { result ≡ out_after act.now is_out }
{
    match act {
        Act::DemuxTake => true,
        Act::DemuxGive => false,
        _ => is_out,
    }
}
