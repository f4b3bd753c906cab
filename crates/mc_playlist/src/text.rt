ghost use Rattle.std.specs.Prelude.{◌≡◌, ◌++◌, ◌∷◌, [], IfOk, OnOk, codes, string_bytes};
ghost use Rattle.std.specs.List.{list_all};
ghost use Rattle.std.specs.Option.{option_copied};
ghost use Rattle.mc_script.specs.Text.{joined};
ghost use Rattle.mc_value.specs.Values.{json_of};
ghost use Rattle.mc_playlist.specs.Text.{change_text, changes_text, file_text, film_text, is_plain, is_plain_char, list_text, outcome_text, played_text, printed, reading_text, run_text};

use crate::acts::ListJournal;
use crate::facts::ListFacts;
use crate::meanings::ListMeaning;
use crate::reads::ListReads;
use crate::table::ListTable;
use crate::telling::Telling;
use crate::watched::Change;
use mc_props::Reading;
use mc_value::{NoMemory, Text, Value, json};
use std::alloc::Global;
use std::fmt::Write;

/// What is printed of a film that was played.
#[derive(Debug, Drop)]
pub enum FilmRun {
    /// It was run: the lines of its transcript, each with its end.
    Transcript(Text),
    /// It was refused: the cause, without a line's end.
    Refused(Text),
}

// Whether a word is printed as it is: it has a character, and each is from `!` to `~` and none of
// `"`, `\` and `#`.
fn is_plain(word: &str) -> bool
    ensures { result ≡ is_plain word.now }
{
    !word.is_empty() && are_plain(word.as_bytes())
}

fn are_plain(octets: &[u8]) -> bool
    ensures { result ≡ list_all is_plain_char octets.now }
{
    octets.iter().all(|c| is_plain_char(*c))
}

fn is_plain_char(c: u8) -> bool
    ensures { result ≡ is_plain_char c }
{
    b'!' <= c && c <= b'~' && !(c == b'"' || c == b'\\' || c == b'#')
}

/// Appends a word, as JSON where it isn't plain.
pub fn push_word(alloc: Global, out: &mut String, word: &str) -> Result<(), NoMemory>
    ensures { OnOk result (string_bytes out.new ≡ string_bytes out.old ++ printed word.now) }
{
    if is_plain(word) {
        return out.push_str(word);
    }
    push_json(alloc, out, &Value::Str(Text::new(alloc, word)?))
}

fn push_json(alloc: Global, out: &mut String, value: &Value) -> Result<(), NoMemory>
    ensures { OnOk result (string_bytes out.new ≡ string_bytes out.old ++ json_of value.now) }
{
    let text = json(alloc, value)?;
    out.push_str(text.as_str())
}

fn push_reading(alloc: Global, out: &mut String, reading: &Reading) -> Result<(), NoMemory>
    ensures { OnOk result (string_bytes out.new ≡
        string_bytes out.old ++ reading_text reading.now) }
{
    match reading {
        Reading::Is(value) => push_json(alloc, out, value),
        Reading::Unavailable => out.push_str("unavailable"),
    }
}

fn push_change(alloc: Global, out: &mut String, change: &Change) -> Result<(), NoMemory>
    ensures { OnOk result (string_bytes out.new ≡ string_bytes out.old ++ change_text change.now) }
{
    out.push_str("change ")?;
    push_word(alloc, out, change.name.as_str())?;
    out.push_str(" ")?;
    push_reading(alloc, out, &change.reading)?;
    out.push_str("\n")
}

/// Appends the lines of changes.
pub fn push_changes(alloc: Global, out: &mut String, changes: &[Change]) -> Result<(), NoMemory>
    ensures { OnOk result (string_bytes out.new ≡
        string_bytes out.old ++ changes_text changes.now) }
{
    for change in changes {
        push_change(alloc, out, change)?;
    }
    Ok(())
}

fn push_file(alloc: Global, out: &mut String, place: u32, name: &str) -> Result<(), NoMemory>
    ensures { OnOk result
        (string_bytes out.new ≡ string_bytes out.old ++ file_text place name.now) }
{
    write!(out, "file {place} ")?;
    push_word(alloc, out, name)
}

fn push_run(
    alloc: Global,
    out: &mut String,
    place: u32,
    name: &str,
    run: &FilmRun,
) -> Result<(), NoMemory>
    ensures { OnOk result (string_bytes out.new ≡
        string_bytes out.old ++ run_text place name.now run.now) }
{
    push_file(alloc, out, place, name)?;
    push_outcome(out, run)
}

// Ends the line of a film.
fn push_outcome(out: &mut String, run: &FilmRun) -> Result<(), NoMemory>
    ensures { OnOk result (string_bytes out.new ≡ string_bytes out.old ++ outcome_text run.now) }
{
    match run {
        FilmRun::Transcript(text) => push_transcript(out, text.as_str()),
        FilmRun::Refused(cause) => push_refused(out, cause.as_str()),
    }
}

fn push_transcript(out: &mut String, text: &str) -> Result<(), NoMemory>
    ensures { OnOk result (string_bytes out.new ≡ string_bytes out.old
        ++ joined (codes "\n" ∷ text.now ∷ [])) }
{
    write!(out, "\n{text}")
}

fn push_refused(out: &mut String, cause: &str) -> Result<(), NoMemory>
    ensures { OnOk result (string_bytes out.new ≡ string_bytes out.old
        ++ joined (codes " refused " ∷ cause.now ∷ codes "\n" ∷ [])) }
{
    write!(out, " refused {cause}\n")
}

/// Appends the lines of the film at a place, whose run is the first of these; nothing without a
/// place or a run.
pub fn push_played(
    alloc: Global,
    out: &mut String,
    place: Option<u32>,
    facts: &ListFacts,
    runs: &[FilmRun],
) -> Result<(), NoMemory>
    ensures { OnOk result (string_bytes out.new ≡
        string_bytes out.old ++ played_text place facts.now runs.now) }
{
    let Some(place) = place else {
        return Ok(());
    };
    push_film(
        alloc,
        out,
        place,
        facts.names.as_slice().get(place as usize),
        runs,
    )
}

fn push_film(
    alloc: Global,
    out: &mut String,
    place: u32,
    name: Option<&Text>,
    runs: &[FilmRun],
) -> Result<(), NoMemory>
    ensures { OnOk result (string_bytes out.new ≡
        string_bytes out.old ++ film_text place (option_copied name.entry) runs.now) }
{
    match (name, runs) {
        (Some(name), [run, ..]) => push_run(alloc, out, place, name.as_str(), run),
        _ => Ok(()),
    }
}

/// What is printed of a list's script: of each record the film that it plays, or `refused`, and
/// then each watched property that shows something else than was last told, or that never was told.
/// The runs are those of the films that are played, in order; a record beyond them prints no film.
///
/// The lines are `file INDEX NAME` and behind it the transcript, `file INDEX NAME refused CAUSE`,
/// `refused`, and `change NAME JSON`, with `unavailable` in the place of the JSON where the
/// property has no value. Names are printed as JSON where they are empty or have a character
/// outside `!` to `~`, a `"`, a `\` or a `#`.
pub fn list_text<F: ListReads<M>, M: ListMeaning>(
    alloc: Global,
    table: &ListTable<F, M>,
    steps: &ListJournal,
    runs: &[FilmRun],
) -> Result<Text, NoMemory>
    ensures { IfOk result (λ t. t ≡ list_text M.value table.now steps.now runs.now) }
{
    let mut telling = Telling::new(alloc, runs);
    for record in steps.as_slice() {
        telling.tell(alloc, table, &record.act)?;
    }
    Ok(Text::from_string(telling.text))
}
