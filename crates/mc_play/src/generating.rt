ghost use Rattle.std.specs.Prelude.{◌≡◌, ◌≤◌, ◌<◌, map, string_bytes, IfSome, OnOk, OnErr};
ghost use Rattle.mc_outside.specs.Sink.{Grows, GrowsByFront, WriteCause};
ghost use Rattle.mc_gen.specs.Summary.{summary};
ghost use Rattle.mc_play.specs.Generating.{GenEnds, EndsGen, asked_for, gen_line, gen_text, pictures_of};

use crate::summing::read_sums;
use mc_gen::{summary_line, write_generated};
use mc_outside::{Sink, SinkError, write_full};
use mc_script::Exit;
use mc_value::read_number;
use std::alloc::Global;

/// What the words `gen [--sum] N` say.
#[derive(Clone, Copy, Debug, PartialEq, Eq)]
pub struct GenLine {
    /// How many pictures the film has.
    pub pictures: u32,
    /// Not the film is asked for, but what is found in it.
    pub sum: bool,
}

// A number of pictures.
fn pictures_of(word: &str) -> Option<u32>
    ensures value { result ≡ pictures_of word.now }
    ensures few { IfSome result (λ n. n ≤ 200000) }
{
    let n = read_number(word.as_bytes())?;
    if 1 <= n && n <= 200_000 {
        Some(n as u32)
    } else {
        None
    }
}

// The line that asks for so many pictures.
fn asked_for(sum: bool, pictures: Option<u32>) -> Option<GenLine>
    ensures value { result ≡ asked_for sum pictures }
    ensures few { IfSome pictures (λ n. n ≤ 200000)
        → IfSome result (λ line. line.pictures ≤ 200000) }
{
    let pictures = pictures?;
    Some(GenLine { pictures, sum })
}

// The line that words say.
fn parse_gen_line(words: &[String]) -> Option<GenLine>
    ensures value { result ≡ gen_line (map string_bytes words.now) }
    ensures few { IfSome result (λ line. line.pictures ≤ 200000) }
{
    match words {
        [command, n] if command.as_str() == "gen" => asked_for(false, pictures_of(n.as_str())),
        [command, option, n] if command.as_str() == "gen" && option.as_str() == "--sum" => {
            asked_for(true, pictures_of(n.as_str()))
        }
        _ => None,
    }
}

// Reads the film of so many pictures to its end, and writes the line of what was found in it.
fn write_summary<K: Sink>(alloc: Global, n: u32, out: &mut K) -> Result<(), SinkError>
    requires { n ≤ 200000 }
    ensures ok { OnOk result (Grows (K.text out.old) (K.text out.new) (summary n)) }
    ensures refused { OnErr result (GrowsByFront (K.text out.old) (K.text out.new) (summary n)) }
    ensures cause { WriteCause (K.faults out.old) (K.faults out.new) result }
{
    let Ok(sums) = read_sums(alloc, n) else {
        return Err(SinkError::NoMemory);
    };
    let Ok(line) = summary_line(alloc, n, sums, Exit::Done.status()) else {
        return Err(SinkError::NoMemory);
    };
    write_full(out, line.as_str().as_bytes())
}

// Writes what a line asks for.
fn write_line<K: Sink>(alloc: Global, line: GenLine, out: &mut K) -> Result<(), SinkError>
    requires { line.pictures ≤ 200000 }
    ensures ok { OnOk result (Grows (K.text out.old) (K.text out.new) (gen_text line)) }
    ensures refused { OnErr result
        (GrowsByFront (K.text out.old) (K.text out.new) (gen_text line)) }
    ensures cause { WriteCause (K.faults out.old) (K.faults out.new) result }
{
    if line.sum {
        write_summary(alloc, line.pictures, out)
    } else {
        write_generated(alloc, line.pictures, out)
    }
}

/// Carries out the words of a command line after the program's name: `gen N` writes the film of N
/// pictures, 1 to 200000, that `mc_gen` says; `gen --sum N` makes that film in memory, reads it as `run`
/// does without a script, and writes the line of what was found. N is one or more decimal digits.
///
/// It ends with `Usage` exactly where the words are not in this grammar; with `Sink` only where the
/// sink's count of faults rose; else with `Done`, or for want of memory, with which a part may have been
/// written.
pub fn generate<K: Sink>(alloc: Global, words: &[String], out: &mut K) -> Exit
    ensures { GenEnds (map string_bytes words.now) (K.text out.old) (K.text out.new)
        (K.faults out.old) (K.faults out.new) result }
{
    let Some(line) = parse_gen_line(words) else {
        return Exit::Usage;
    };
    match write_line(alloc, line, out) {
        Ok(()) => Exit::Done,
        Err(SinkError::Failed) => Exit::Sink,
        Err(SinkError::NoMemory) => Exit::NoMemory,
    }
}
