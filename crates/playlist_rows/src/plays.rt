use crate::own::Own;
use mc_playlist::{
    FilmRun, ListAct, ListError, ListJournal, ListReads, ListRecord, ListScript, ListTable,
    Playlist, list_text, parse_list,
};
use mc_value::Text;
use rows::{Json, RowError, items_in, text_in, two};
use std::alloc::{AllocError, Global};

const MOST_FILMS: u32 = 10_000;

// What a film prints: `["run",TRANSCRIPT]` or `["refused",CAUSE]`.
fn run_in(alloc: Global, argument: &Json<'_>) -> Result<FilmRun, RowError> {
    let (kind, text) = two(items_in(argument)?)?;
    let text = Text::new(alloc, text_in(text)?)?;
    match text_in(kind)? {
        "run" => Ok(FilmRun::Transcript(text)),
        "refused" => Ok(FilmRun::Refused(text)),
        _ => Err(RowError::BadRow),
    }
}

fn runs_in(alloc: Global, argument: &Json<'_>) -> Result<Vec<FilmRun>, RowError> {
    let mut runs = Vec::new(alloc);
    for item in items_in(argument)? {
        runs.push(run_in(alloc, item)?)?;
    }
    Ok(runs)
}

fn script_in(alloc: Global, argument: &Json<'_>) -> Result<ListScript, RowError> {
    match parse_list(alloc, text_in(argument)?.as_bytes()) {
        Ok(script) => Ok(script),
        Err(ListError::NoMemory) => Err(RowError::NoMemory),
        Err(_) => Err(RowError::BadRow),
    }
}

// What became of a line; whether it was refused.
fn record<F: ListReads<Own>>(
    playlist: &mut Playlist,
    table: &ListTable<F, Own>,
    journal: &mut ListJournal,
    line: u32,
    act: &ListAct,
) -> Result<bool, AllocError> {
    let refused = match playlist.act(table, act) {
        Ok(()) => None,
        Err(ListError::NoMemory) => return Err(AllocError),
        Err(error) => Some(error),
    };
    journal.push(ListRecord {
        line,
        act: act.copy()?,
        refused,
    })?;
    Ok(refused.is_some())
}

// A `play all` has a record for each film.
fn record_all<F: ListReads<Own>>(
    playlist: &mut Playlist,
    table: &ListTable<F, Own>,
    journal: &mut ListJournal,
    line: u32,
) -> Result<(), AllocError> {
    for _ in 0..MOST_FILMS {
        let is_refused = record(playlist, table, journal, line, &ListAct::PlayAll)?;
        if is_refused || playlist.facts().pos.is_none() {
            break;
        }
    }
    Ok(())
}

fn journal_of<F: ListReads<Own>>(
    alloc: Global,
    table: &ListTable<F, Own>,
    script: &ListScript,
) -> Result<ListJournal, AllocError> {
    let mut playlist = Playlist::new(alloc);
    let mut journal = ListJournal::new(alloc);
    for (line, act) in script.as_slice() {
        match act {
            ListAct::PlayAll => record_all(&mut playlist, table, &mut journal, *line)?,
            _ => {
                record(&mut playlist, table, &mut journal, *line, act)?;
            }
        }
    }
    Ok(journal)
}

/// What is printed of a script whose films print these things.
pub fn call_play<F: ListReads<Own>>(
    alloc: Global,
    table: &ListTable<F, Own>,
    arguments: &[Json<'_>],
    out: &mut String,
) -> Result<(), RowError> {
    let (script, runs) = two(arguments)?;
    let script = script_in(alloc, script)?;
    let runs = runs_in(alloc, runs)?;
    let journal = journal_of(alloc, table, &script)?;
    let text = list_text(alloc, table, &journal, runs.as_slice())?;
    Ok(out.push_str(without_end(text.as_str()))?)
}

// An answer has no line end of its own.
fn without_end(text: &str) -> &str {
    text.strip_suffix('\n').unwrap_or(text)
}
