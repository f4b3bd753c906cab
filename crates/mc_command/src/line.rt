ghost use Rattle.mc_command.specs.Commands.{Found, Parses};
ghost use Rattle.mc_command.specs.Lines.{line_words};
ghost use Rattle.mc_command.specs.Spelling.{Spells};
ghost use Rattle.std.specs.Prelude.{List, Result, ℕ};
ghost use Rattle.std.specs.Str.{chars};

use crate::command::CommandError;
use crate::scan::Scan;
use mc_value::Words;
use std::alloc::Global;

/// The words of a line, after the flat command syntax in mpv's manual. Words stand between spaces
/// and tabs. One that begins with `"` runs to the next `"`, with `\"` and `\\` for a quote and a
/// backslash in it, and a space, a tab or the line's end must follow. All other characters stand
/// for themselves. A line may have no word.
///
/// `Bad` names the first thing that is no word, by the number of the words before it: a quote that
/// is not closed, or a quoted word with something behind it. `NoMemory` where there is none for the
/// words.
pub fn split_line(alloc: Global, line: &str) -> Result<Words, CommandError>
    ensures value { Parses result (line_words line.now) }
    // The words, or the number, are as the rules of quoting spell them in the line's characters.
    ensures spelled { Found result (Spells (chars line.now)) }
    // They are the only ones.
    ensures only { (said : Result (List (List ℕ)) ℕ)
        → Spells (chars line.now) said → Parses result said }
{
    scan_line(alloc, line)
}

fn scan_line(alloc: Global, line: &str) -> Result<Words, CommandError>
    ensures { Parses result (line_words line.now) }
{
    let mut scan = Scan::new(alloc);
    for c in line.chars() {
        scan.take(c)?;
    }
    scan.finish()
}
