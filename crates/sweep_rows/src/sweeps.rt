use mc_script::{Exit, ShelfCause};
use rows::{Json, RowError, number_in};
use rows_films::Films;
use rows_runs::{
    Line, Outcome, Trouble, before_end, begins_with, from_seek, lines_of, run_over, words_of,
};
use std::alloc::{AllocError, Global};
use std::fmt::Write;

// How a run ends in which one read failed.
const ROSE: Exit = Exit::Shelf(ShelfCause::Rose {
    before: 0,
    after: 1,
});

// What a failed read is told as where a run begins.
const TOLD: &str = "failed 0 1\nfault 1 0 1\nfault 2 0 1\n";

/// What is looked for in each run of a sweep.
#[derive(Clone, Copy)]
pub enum Sweep {
    /// A read fails: the packets before it are given, and it is told.
    Told,
    /// A read fails before a seek: behind the seek the whole film is given.
    Sought,
    /// The same, and what comes before the seek is told twice.
    ToldTwice,
    /// A write fails: what was written before it stands.
    Written,
    /// The film is cut: a front of its packets is given.
    Cut,
}

// How many runs there were, how many of them printed nothing, and the first that went wrong.
#[derive(Drop)]
struct Tally {
    runs: u64,
    silent: u64,
    wrong: Option<u64>,
}

impl Tally {
    fn new() -> Tally {
        Tally {
            runs: 0,
            silent: 0,
            wrong: None,
        }
    }

    fn count(&mut self, number: u64, outcome: &Outcome, is_right: bool) {
        self.runs = self.runs.saturating_add(1);
        if outcome.written.is_empty() {
            self.silent = self.silent.saturating_add(1);
        }
        if !is_right && self.wrong.is_none() {
            self.wrong = Some(number);
        }
    }

    fn push(&self, out: &mut String) -> Result<(), AllocError> {
        write!(out, "{} runs, {} print nothing, ", self.runs, self.silent)?;
        match self.wrong {
            Some(number) => write!(out, "{number} goes wrong"),
            None => out.push_str("none goes wrong"),
        }
    }
}

// Whether a run is as the sweep wants it, beside the text of the whole film.
fn is_right(
    alloc: Global,
    sweep: Sweep,
    number: u64,
    outcome: &Outcome,
    whole: &str,
) -> Result<bool, RowError> {
    let text = outcome.text()?;
    match sweep {
        Sweep::Told => Ok(outcome.exit == ROSE && is_told(text, number, whole)),
        Sweep::Sought => Ok(outcome.exit == ROSE && is_sought(alloc, text, whole)?),
        Sweep::ToldTwice => Ok(outcome.exit == ROSE && is_told_twice(alloc, text, whole)?),
        Sweep::Written => Ok(is_written(outcome, number, whole)),
        Sweep::Cut => {
            let front = before_end(text).as_bytes();
            Ok(outcome.exit == Exit::Done && begins_with(before_end(whole).as_bytes(), front))
        }
    }
}

// Nothing where the read is one of the film's head, else some packets and the failure.
fn is_told(text: &str, number: u64, whole: &str) -> bool {
    match text.strip_suffix(TOLD) {
        Some(given) => number >= HEAD && is_front(before_end(whole), given),
        None => text.is_empty() && number < HEAD,
    }
}

// The octets before the first Cluster of the film of these sweeps.
const HEAD: u64 = 78;

// A front in whole lines.
fn is_front(whole: &str, front: &str) -> bool {
    begins_with(whole.as_bytes(), front.as_bytes()) && (front.is_empty() || front.ends_with('\n'))
}

fn is_sought(alloc: Global, text: &str, whole: &str) -> Result<bool, AllocError> {
    let read = lines_of(alloc, from_seek(text), &["give ", "end "])?;
    Ok(read.as_str() == if text.is_empty() { "" } else { whole })
}

fn is_told_twice(alloc: Global, text: &str, whole: &str) -> Result<bool, AllocError> {
    let given = match text.find("failed ") {
        Some(at) => text.get(..at).unwrap_or(""),
        None => "",
    };
    let told = format!(in alloc; "{given}{TOLD}fault 1 0 1\nfault 2 0 1\nseek 0 ")?;
    Ok(
        is_front(before_end(whole), given)
            && begins_with(text.as_bytes(), told.as_bytes())
            && text.ends_with(whole),
    )
}

// The first write fails, and of the others one that is made.
fn is_written(outcome: &Outcome, number: u64, whole: &str) -> bool {
    let text = outcome.written.as_slice();
    let is_whole = outcome.exit == Exit::Done && number > 0 && text.len() == whole.len();
    begins_with(whole.as_bytes(), text) && (outcome.exit == Exit::Sink || is_whole)
}

fn trouble_of(sweep: Sweep, number: u64) -> Trouble {
    match sweep {
        Sweep::Told | Sweep::Sought | Sweep::ToldTwice => Trouble::Spot(0, number),
        Sweep::Written => Trouble::Bad(number),
        Sweep::Cut => Trouble::None,
    }
}

// The film of a run: its first octets where it is cut.
fn film_of(sweep: Sweep, film: &[u8], number: u64) -> &[u8] {
    match sweep {
        Sweep::Cut => film.get(..number as usize).unwrap_or(film),
        _ => film,
    }
}

/// Runs a line once for each number from one up to another, beside a run in which nothing fails.
pub fn call_sweep(
    alloc: Global,
    films: &Films,
    sweep: Sweep,
    arguments: &[Json<'_>],
    out: &mut String,
) -> Result<(), RowError> {
    let [from, to, arguments @ ..] = arguments else {
        return Err(RowError::BadRow);
    };
    let from = u16::try_from(number_in(from)?)?;
    let to = u16::try_from(number_in(to)?)?;
    let line = Line::new(alloc, arguments)?;
    let tally = swept(alloc, films, sweep, (from, to), &line)?;
    Ok(tally.push(out)?)
}

// What the film gives where nothing fails; of a sweep of writes what the line itself writes.
fn undisturbed(
    alloc: Global,
    sweep: Sweep,
    film: &[u8],
    line: &Line<'_, '_>,
) -> Result<Outcome, RowError> {
    if let Sweep::Written = sweep {
        return line.run_over(alloc, film, Trouble::None);
    }
    let words = words_of(alloc, &["run", "film.mkv"])?;
    run_over(alloc, words.as_slice(), film, None, Trouble::None)
}

fn swept(
    alloc: Global,
    films: &Films,
    sweep: Sweep,
    numbers: (u16, u16),
    line: &Line<'_, '_>,
) -> Result<Tally, RowError> {
    let film = line.octets(films)?;
    let undisturbed = undisturbed(alloc, sweep, film, line)?;
    let whole = undisturbed.text()?;
    let mut tally = Tally::new();
    for number in numbers.0..numbers.1 {
        let number = number as u64;
        let film = film_of(sweep, film, number);
        let outcome = line.run_over(alloc, film, trouble_of(sweep, number))?;
        let is_right = is_right(alloc, sweep, number, &outcome, whole)?;
        tally.count(number, &outcome, is_right);
    }
    Ok(tally)
}
