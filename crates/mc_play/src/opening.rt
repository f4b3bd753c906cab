ghost use Rattle.std.specs.Prelude.{◌≡◌, ◌≤◌, ◌<◌, ℕ, List, map, string_bytes, length, slice_get, Some, false, IfOk, IfErr, IfSome};
ghost use Rattle.mc_outside.specs.Shelf.{content};
ghost use Rattle.mc_cursor.specs.Reads.{Told};
ghost use Rattle.mc_script.specs.Pairing.{IsPaired};
ghost use Rattle.mc_script.specs.declared.exit.Exit.TheVariants.{Shelf};
ghost use Rattle.mc_script.specs.declared.exit.ShelfCause.TheVariants.{Rose};
ghost use Rattle.mc_play.specs.Asked.{ScriptIs, drain_alone, name_at};
ghost use Rattle.mc_play.specs.Opening.{BeginStops, FileStops, FilmStops, IsOpened, LinesStop, OpensFile, OpensFilm, ReadsScript, ScriptStops};

use crate::text::{TextError, read_text};
use mc_cursor::{Cursor, OpenError};
use mc_outside::{FileNo, Shelf, ShelfError};
use mc_script::{Act, Exit, Script, ScriptError, ShelfCause, parse_script};
use std::alloc::{AllocError, Global};

/// The word of this number.
fn word_at(words: &[String], n: u32) -> &str
    requires { n < length words.now }
    ensures { result.now ≡ name_at (map string_bytes words.now) n }
{
    words[n as usize].as_str()
}

/// The shelf's count of faults rose since it was `before`.
fn shelf_fault<D: Shelf>(shelf: &D, before: u64) -> Exit
    ensures { result ≡ Shelf (Rose before (D.faults shelf.now)) }
{
    let after = shelf.fault_count();
    Exit::Shelf(ShelfCause::Rose { before, after })
}

/// Opens the file that is the word of this number.
fn open_named<D: Shelf>(
    shelf: &mut D,
    words: &[String],
    n: u32,
    before: u64,
) -> Result<FileNo, Exit>
    requires word { n < length words.now }
    requires before { before ≤ D.faults shelf.old }
    ensures opened { IfOk result (λ file. OpensFile (D.files shelf.new) (D.opened shelf.new)
        (name_at (map string_bytes words.now) n) file.0) }
    ensures stopped { IfErr result
        (FileStops (D.files shelf.old) (map string_bytes words.now) n before (D.faults shelf.new)) }
    ensures files { D.files shelf.new ≡ D.files shelf.old }
    ensures later { D.faults shelf.old ≤ D.faults shelf.new }
{
    match shelf.open_file(word_at(words, n)) {
        Ok(file) => Ok(file),
        Err(ShelfError::NotFound) => Err(Exit::Shelf(ShelfCause::NoFile { word: n })),
        Err(ShelfError::Failed) => Err(shelf_fault(shelf, before)),
        Err(ShelfError::NoMemory) => Err(Exit::NoMemory),
    }
}

/// The script that is the one line `drain`.
fn drain_alone(alloc: Global) -> Result<Script, AllocError>
    ensures { IfOk result (λ script. script ≡ drain_alone) }
{
    let mut script = Script::new(alloc);
    script.push((1, Act::Drain))?;
    Ok(script)
}

/// The script of an opened file.
fn read_lines<D: Shelf>(
    alloc: Global,
    shelf: &mut D,
    file: FileNo,
    before: u64,
) -> Result<Script, Exit>
    requires before { before ≤ D.faults shelf.old }
    ensures script { IfOk result (λ script. Told
        (content (D.files shelf.old) (D.opened shelf.old) file.0) (ReadsScript script)) }
    ensures paired { IfOk result (IsPaired false) }
    ensures stopped { IfErr result (LinesStop
        (content (D.files shelf.old) (D.opened shelf.old) file.0) before (D.faults shelf.new)) }
    ensures files { D.files shelf.new ≡ D.files shelf.old }
    ensures later { D.faults shelf.old ≤ D.faults shelf.new }
{
    let text = match read_text(alloc, shelf, file) {
        Ok(text) => text,
        Err(TextError::ReadFault) => return Err(shelf_fault(shelf, before)),
        Err(TextError::NoMemory) => return Err(Exit::NoMemory),
    };
    match parse_script(alloc, &text) {
        Ok(script) => Ok(script),
        Err(ScriptError::Refused { line, why }) => Err(Exit::Script { line, why }),
        Err(ScriptError::NoMemory) => Err(Exit::NoMemory),
    }
}

/// The script that the words name, or `drain` alone where they name none.
pub(crate) fn read_script<D: Shelf>(
    alloc: Global,
    shelf: &mut D,
    words: &[String],
    named: Option<u32>,
    before: u64,
) -> Result<Script, Exit>
    requires within { IfSome named (λ n. n < length words.now) }
    requires before { before ≤ D.faults shelf.old }
    ensures script { IfOk result (ScriptIs (D.files shelf.old) (map string_bytes words.now) named) }
    ensures paired { IfOk result (IsPaired false) }
    ensures stopped { IfErr result (ScriptStops (D.files shelf.old)
        (map string_bytes words.now) named before (D.faults shelf.new)) }
    ensures files { D.files shelf.new ≡ D.files shelf.old }
    ensures later { D.faults shelf.old ≤ D.faults shelf.new }
{
    let Some(n) = named else {
        return drain_alone(alloc).map_err(|_| Exit::NoMemory);
    };
    let file = open_named(shelf, words, n, before)?;
    read_lines(alloc, shelf, file, before)
}

/// The cursor at the opening of an opened file, or why there is none.
fn begin<D: Shelf>(alloc: Global, shelf: &mut D, file: FileNo, before: u64) -> Result<Cursor, Exit>
    requires { before ≤ D.faults shelf.old }
    ensures opened { IfOk result (λ c. Told
        (content (D.files shelf.old) (D.opened shelf.old) file.0) (λ octets. OpensFilm octets c) ×
        (c.file.0 ≡ file.0)) }
    ensures stopped { IfErr result (BeginStops
        (content (D.files shelf.old) (D.opened shelf.old) file.0) before (D.faults shelf.new)) }
    ensures files { D.files shelf.new ≡ D.files shelf.old }
    ensures numbers { D.opened shelf.new ≡ D.opened shelf.old }
    ensures later { D.faults shelf.old ≤ D.faults shelf.new }
{
    match Cursor::begin(alloc, shelf, file) {
        Ok(cursor) => Ok(cursor),
        Err(OpenError::Refused(refused)) => Err(Exit::File(refused)),
        Err(OpenError::ReadFault) => Err(shelf_fault(shelf, before)),
        Err(OpenError::NoMemory) => Err(Exit::NoMemory),
    }
}

/// Opens the film that is the word of this number.
pub(crate) fn open_film<D: Shelf>(
    alloc: Global,
    shelf: &mut D,
    words: &[String],
    n: u32,
    before: u64,
) -> Result<Cursor, Exit>
    requires word { n < length words.now }
    requires before { before ≤ D.faults shelf.old }
    ensures opened { IfOk result (IsOpened (D.files shelf.new) (D.opened shelf.new)
        (name_at (map string_bytes words.now) n)) }
    ensures stopped { IfErr result
        (FilmStops (D.files shelf.old) (map string_bytes words.now) n before (D.faults shelf.new)) }
    ensures files { D.files shelf.new ≡ D.files shelf.old }
    ensures later { D.faults shelf.old ≤ D.faults shelf.new }
{
    let file = open_named(shelf, words, n, before)?;
    begin(alloc, shelf, file, before)
}
