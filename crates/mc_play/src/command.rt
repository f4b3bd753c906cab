ghost use Rattle.std.specs.Prelude.{◌≡◌, ◌≤◌, ◌<◌, [], map, string_bytes, length, IfOk, IfErr};
ghost use Rattle.std.specs.List.{list_any};
ghost use Rattle.mc_script.specs.RunLines.{AreLimits, IsWithin};
ghost use Rattle.mc_play.specs.Asked.{Stopped};
ghost use Rattle.mc_play.specs.Completing.{RunCompletes};
ghost use Rattle.mc_play.specs.Run.{RunEnds, counts_of, Stepped, WriteFits, Written, WroteWell, exit_for, halt_exit, is_failed, is_starved, shelf_exit, write_exit};

use crate::opening::{open_film, read_script};
use crate::playing::{Played, play};
use mc_journal::{DemuxJournal, DemuxRecord};
use mc_lines::Halt;
use mc_outside::{Shelf, Sink, SinkError, write_full};
use mc_packet::Choice;
use mc_script::{Exit, RunLine, RunReport, ShelfCause, parse_run_line, records_text};
use std::alloc::Global;

/// How many records' lines are written at a time.
const PIECE: usize = 8_192;

/// Plays the script over the film that the words name, or says why nothing was done.
pub(crate) fn perform<D: Shelf>(
    alloc: Global,
    words: &[String],
    line: RunLine,
    shelf: &mut D,
    before: u64,
) -> Result<Played, Exit>
    requires within { IsWithin (length words.now) line }
    requires limits { AreLimits line.limits }
    requires before { before ≡ D.faults shelf.old }
    ensures played { IfOk result (λ p. Stepped (D.files shelf.old)
        (map string_bytes words.now) line before (D.faults shelf.new) p.halt p.hd) }
    ensures stopped { IfErr result (Stopped (D.files shelf.old)
        (map string_bytes words.now) line before (D.faults shelf.new)) }
    ensures later { D.faults shelf.old ≤ D.faults shelf.new }
{
    let script = read_script(alloc, shelf, words, line.script, before)?;
    let cursor = open_film(alloc, shelf, words, line.file, before)?;
    match play(alloc, shelf, cursor, line.limits, &script) {
        Ok(played) => Ok(played),
        Err(_) => Err(Exit::NoMemory),
    }
}

fn is_failed(entry: &DemuxRecord) -> bool
    ensures { result ≡ is_failed entry.now }
{
    matches!(entry, DemuxRecord::Failed { .. })
}

fn is_starved(entry: &DemuxRecord) -> bool
    ensures { result ≡ is_starved entry.now }
{
    matches!(entry, DemuxRecord::Starved { .. })
}

fn any_failed(hd: &[DemuxRecord]) -> bool
    ensures { result ≡ list_any is_failed hd.now }
{
    hd.iter().any(is_failed)
}

pub(crate) fn any_starved(hd: &[DemuxRecord]) -> bool
    ensures { result ≡ list_any is_starved hd.now }
{
    hd.iter().any(is_starved)
}

/// Writes the transcript of a journal, the lines of some records at a time, so that its text is not
/// held whole.
fn write_out<K: Sink>(alloc: Global, hd: &DemuxJournal, out: &mut K) -> Result<(), SinkError>
    ensures written { WroteWell (K.text out.old) (K.text out.new) hd.now result }
    ensures cause { WriteFits (K.faults out.old) (K.faults out.new) result }
{
    let mut selected = Choice {
        video: None,
        audio: None,
        sub: None,
    };
    let mut rest = hd.as_slice();
    while !rest.is_empty() {
        let (part, more) = rest.split_at(rest.len().min(PIECE));
        let Ok((text, behind)) = records_text(alloc, selected, part) else {
            return Err(SinkError::NoMemory);
        };
        write_full(out, text.as_str().as_bytes())?;
        selected = behind;
        rest = more;
    }
    Ok(())
}

fn shelf_exit(failed: bool, before: u64, after: u64) -> Exit
    ensures { result ≡ shelf_exit failed before after }
{
    if failed {
        Exit::Shelf(ShelfCause::Rose { before, after })
    } else {
        Exit::Done
    }
}

fn halt_exit(halt: Result<(), Halt>, failed: bool, before: u64, after: u64) -> Exit
    ensures { result ≡ halt_exit halt failed before after }
{
    match halt {
        Ok(()) => shelf_exit(failed, before, after),
        Err(Halt::JournalFull) => Exit::JournalFull,
        Err(Halt::NoMemory) => Exit::NoMemory,
    }
}

/// How a command ends whose steps were reached: want of memory comes before a fault of the sink,
/// that before a full journal, and that before a fault of the shelf.
fn exit_of(
    hd: &[DemuxRecord],
    halt: Result<(), Halt>,
    wrote: Result<(), SinkError>,
    before: u64,
    after: u64,
) -> Exit
    ensures { result ≡ exit_for hd.now halt wrote before after }
{
    if halt == Err(Halt::NoMemory) || any_starved(hd) {
        return Exit::NoMemory;
    }
    match wrote {
        Ok(()) => halt_exit(halt, any_failed(hd), before, after),
        Err(SinkError::NoMemory) => Exit::NoMemory,
        Err(SinkError::Failed) => Exit::Sink,
    }
}

/// Carries out the words of a command line after the program's name: `run OPTIONS FILE [SCRIPT]`
/// plays a script over a Matroska film (RFC 9559), line by line, and writes what its readers were given
/// and what its cache did. Without SCRIPT the selected tracks, by default the first video and audio
/// track, are read to their ends. `docs/SCRIPTS.md` has the script's lines.
///
/// It ends with `Usage` exactly where the words are not in the grammar; with `Script` where the script is
/// outside its grammar, and with `File` where what stands before the film's Clusters is refused, each
/// exactly where nothing came before; with `Shelf` only where the shelf's count of faults rose, or it
/// lacks a file that the words name; with `Sink` only where the sink's count rose; and with `JournalFull`
/// where the journal has 16,000,000 records. A cut or damaged film is no fault: its ending is told.
///
/// Where none of these causes is there, it ends with `Done` or for want of memory; and at `Done` every
/// line of the script was played, and each `drain` told the reader of each selected track its end.
pub fn run<D: Shelf, K: Sink>(
    alloc: Global,
    words: &[String],
    shelf: &mut D,
    out: &mut K,
) -> RunReport
    ensures ends { RunEnds (D.files shelf.old) (map string_bytes words.now)
        (counts_of (D.faults shelf.old) (D.faults shelf.new) (K.faults out.old) (K.faults out.new))
        result.hd result.exit }
    ensures written { Written (K.text out.old) (K.text out.new) result.hd result.exit }
    ensures complete { RunCompletes (D.files shelf.old) (map string_bytes words.now)
        (counts_of (D.faults shelf.old) (D.faults shelf.new) (K.faults out.old) (K.faults out.new))
        result.hd result.exit }
{
    let before = shelf.fault_count();
    let Some(line) = parse_run_line(words) else {
        return RunReport {
            exit: Exit::Usage,
            hd: DemuxJournal::new(alloc),
        };
    };
    let played = match perform(alloc, words, line, shelf, before) {
        Ok(played) => played,
        Err(exit) => {
            return RunReport {
                exit,
                hd: DemuxJournal::new(alloc),
            };
        }
    };
    let Played { hd, halt } = played;
    let after = shelf.fault_count();
    let wrote = write_out(alloc, &hd, out);
    let exit = exit_of(hd.as_slice(), halt, wrote, before, after);
    RunReport { exit, hd }
}
