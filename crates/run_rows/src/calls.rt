use mc_script::Exit;
use rows::{Json, RowError, items_in, number_in, push_flag, text_in};
use rows_films::Films;
use rows_runs::{Line, Outcome, Trouble, lines_of};
use std::alloc::{AllocError, Global};
use std::fmt::Write;

fn push_exit(exit: Exit, out: &mut String) -> Result<(), AllocError> {
    let status = exit.status();
    write!(out, "{status} {exit:?}")
}

fn push_outcome(outcome: &Outcome, out: &mut String) -> Result<(), RowError> {
    out.push_str(outcome.text()?)?;
    Ok(push_exit(outcome.exit, out)?)
}

pub fn call_run(
    alloc: Global,
    films: &Films,
    arguments: &[Json<'_>],
    out: &mut String,
) -> Result<(), RowError> {
    let line = Line::new(alloc, arguments)?;
    let outcome = line.run(alloc, films, Trouble::None)?;
    push_outcome(&outcome, out)
}

pub fn call_spot(
    alloc: Global,
    films: &Films,
    arguments: &[Json<'_>],
    out: &mut String,
) -> Result<(), RowError> {
    let [file, place, arguments @ ..] = arguments else {
        return Err(RowError::BadRow);
    };
    let file = u32::try_from(number_in(file)?)?;
    let place = u64::try_from(number_in(place)?)?;
    let line = Line::new(alloc, arguments)?;
    let outcome = line.run(alloc, films, Trouble::Spot(file, place))?;
    push_outcome(&outcome, out)
}

pub fn call_bad(
    alloc: Global,
    films: &Films,
    arguments: &[Json<'_>],
    out: &mut String,
) -> Result<(), RowError> {
    let [call, arguments @ ..] = arguments else {
        return Err(RowError::BadRow);
    };
    let call = u64::try_from(number_in(call)?)?;
    let line = Line::new(alloc, arguments)?;
    let outcome = line.run(alloc, films, Trouble::Bad(call))?;
    push_outcome(&outcome, out)
}

fn fronts_in<'a>(alloc: Global, argument: &Json<'a>) -> Result<Vec<&'a str>, RowError> {
    let mut fronts = Vec::new(alloc);
    for front in items_in(argument)? {
        fronts.push(text_in(front)?)?;
    }
    Ok(fronts)
}

// The lines of a run that begin with one of these texts.
pub fn call_lines(
    alloc: Global,
    films: &Films,
    arguments: &[Json<'_>],
    out: &mut String,
) -> Result<(), RowError> {
    let [fronts, arguments @ ..] = arguments else {
        return Err(RowError::BadRow);
    };
    let fronts = fronts_in(alloc, fronts)?;
    let line = Line::new(alloc, arguments)?;
    let outcome = line.run(alloc, films, Trouble::None)?;
    let kept = lines_of(alloc, outcome.text()?, fronts.as_slice())?;
    out.push_str(kept.as_str())?;
    Ok(push_exit(outcome.exit, out)?)
}

// Whether the lines of a run that begin with a text are an end of these lines, and there are some.
pub fn call_end_of(
    alloc: Global,
    films: &Films,
    arguments: &[Json<'_>],
    out: &mut String,
) -> Result<(), RowError> {
    let [whole, front, arguments @ ..] = arguments else {
        return Err(RowError::BadRow);
    };
    let line = Line::new(alloc, arguments)?;
    let outcome = line.run(alloc, films, Trouble::None)?;
    let kept = lines_of(alloc, outcome.text()?, &[text_in(front)?])?;
    let is_end = text_in(whole)?.as_bytes().ends_with(kept.as_bytes());
    push_flag(out, is_end && !kept.is_empty())?;
    out.push(' ')?;
    Ok(push_exit(outcome.exit, out)?)
}
