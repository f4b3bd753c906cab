use mc_script::Exit;
use rows::{Json, RowError, number_in, push_flag, text_in, three};
use rows_films::Films;
use rows_runs::{Outcome, Trouble, begins_with, run_over, words_of};
use std::alloc::{AllocError, Global};

// A text, and another one behind it so many times.
fn repeated(alloc: Global, front: &[u8], each: &str, times: u16) -> Result<Vec<u8>, AllocError> {
    let mut text = Vec::from_slice(alloc, front)?;
    for _ in 0..times {
        text.extend_from_slice(each.as_bytes())?;
    }
    Ok(text)
}

// Runs a script of a drain and so many looks.
fn looked(alloc: Global, film: &[u8], times: u16, trouble: Trouble) -> Result<Outcome, RowError> {
    let words = words_of(alloc, &["run", "film.mkv", "script"])?;
    let script = repeated(alloc, b"drain\n".as_slice(), "show\n", times)?;
    run_over(
        alloc,
        words.as_slice(),
        film,
        Some(script.as_slice()),
        trouble,
    )
}

/// So many looks behind a drain, whose journal is longer than what is written at a time: whether each
/// is told as it should be; and, where the second write fails, whether the lines of the first stand,
/// whole and fewer than all.
pub fn call_looks(
    alloc: Global,
    films: &Films,
    arguments: &[Json<'_>],
    out: &mut String,
) -> Result<(), RowError> {
    let (film, times, view) = three(arguments)?;
    let film = films.octets(film)?;
    let times = u16::try_from(number_in(times)?)?;
    let drained = looked(alloc, film, 0, Trouble::None)?;
    let whole = repeated(alloc, drained.written.as_slice(), text_in(view)?, times)?;
    let all = looked(alloc, film, times, Trouble::None)?;
    push_flag(
        out,
        all.exit == Exit::Done && all.written.as_slice() == whole.as_slice(),
    )?;
    out.push(' ')?;
    let some = looked(alloc, film, times, Trouble::Bad(1))?;
    Ok(push_flag(out, is_first_part(&some, whole.as_slice()))?)
}

fn is_first_part(outcome: &Outcome, whole: &[u8]) -> bool {
    let text = outcome.written.as_slice();
    outcome.exit == Exit::Sink
        && begins_with(whole, text)
        && text.ends_with(b"94.0\n".as_slice())
        && text.len() < whole.len()
}
