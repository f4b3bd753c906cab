use mc_outside::{MemSink, Numbers};
use mc_play::run;
use mc_script::Exit;
use rows::{Json, RowError, items_in, octets_in, one, text_in};
use rows_films::{Films, shelf_of};
use std::alloc::{AllocError, Global};

/// What fails once: the read of an octet of a file, or a write call.
#[derive(Clone, Copy)]
pub enum Trouble {
    /// Nothing.
    None,
    /// The read of an octet: the file's number and the octet's place.
    Spot(u32, u64),
    /// The write call of this number, counted from 0.
    Bad(u64),
}

impl Trouble {
    fn spot(self) -> Option<(u32, u64)> {
        match self {
            Trouble::Spot(file, at) => Some((file, at)),
            Trouble::None | Trouble::Bad(_) => None,
        }
    }

    fn bad(self) -> Option<u64> {
        match self {
            Trouble::Bad(call) => Some(call),
            Trouble::None | Trouble::Spot(_, _) => None,
        }
    }
}

/// How a run ended, and what it wrote.
#[derive(Drop)]
pub struct Outcome {
    /// How it ended.
    pub exit: Exit,
    /// The octets that the sink was given.
    pub written: Vec<u8>,
}

impl Outcome {
    /// What it wrote, as a text; a bad row where it is not UTF-8.
    pub fn text(&self) -> Result<&str, RowError> {
        str::from_utf8(self.written.as_slice()).map_err(|_| RowError::BadRow)
    }
}

/// Runs words over a film and a script.
pub fn run_over(
    alloc: Global,
    words: &[String],
    film: &[u8],
    script: Option<&[u8]>,
    trouble: Trouble,
) -> Result<Outcome, RowError> {
    let mut shelf = shelf_of(alloc, film, script, trouble.spot())?;
    let mut numbers = Numbers::new(alloc);
    if let Some(call) = trouble.bad() {
        numbers.push(call)?;
    }
    let mut out = MemSink::new(alloc, numbers);
    let report = run(alloc, words, &mut shelf, &mut out);
    Ok(Outcome {
        exit: report.exit,
        written: Vec::from_slice(alloc, out.text())?,
    })
}

/// Words, each of its own.
pub fn words_of(alloc: Global, words: &[&str]) -> Result<Vec<String>, AllocError> {
    let mut owned = Vec::new(alloc);
    for word in words {
        owned.push(String::from_str(alloc, word)?)?;
    }
    Ok(owned)
}

/// What a row runs: its words, the film's name, and a script where there is one.
#[derive(Drop)]
pub struct Line<'r, 'a> {
    words: Vec<String>,
    film: &'r Json<'a>,
    script: Option<Vec<u8>>,
}

impl<'r, 'a> Line<'r, 'a> {
    /// The line of a row's arguments.
    pub fn new(alloc: Global, arguments: &'r [Json<'a>]) -> Result<Line<'r, 'a>, RowError> {
        match arguments {
            [words, film] => Ok(Line {
                words: words_in(alloc, words)?,
                film,
                script: None,
            }),
            [words, film, script] => Ok(Line {
                words: words_in(alloc, words)?,
                film,
                script: Some(script_in(alloc, script)?),
            }),
            _ => Err(RowError::BadRow),
        }
    }

    /// Runs it.
    pub fn run(&self, alloc: Global, films: &Films, trouble: Trouble) -> Result<Outcome, RowError> {
        let film = films.octets(self.film)?;
        self.run_over(alloc, film, trouble)
    }

    /// Runs it over another film.
    pub fn run_over(
        &self,
        alloc: Global,
        film: &[u8],
        trouble: Trouble,
    ) -> Result<Outcome, RowError> {
        let script = match &self.script {
            Some(script) => Some(script.as_slice()),
            None => None,
        };
        run_over(alloc, self.words.as_slice(), film, script, trouble)
    }

    /// The octets of its film.
    pub fn octets<'f>(&self, films: &'f Films) -> Result<&'f [u8], RowError> {
        films.octets(self.film)
    }
}

fn words_in(alloc: Global, argument: &Json<'_>) -> Result<Vec<String>, RowError> {
    let mut words = Vec::new(alloc);
    for word in items_in(argument)? {
        words.push(String::from_str(alloc, text_in(word)?)?)?;
    }
    Ok(words)
}

// A text, or an array of its octets in hex.
fn script_in(alloc: Global, argument: &Json<'_>) -> Result<Vec<u8>, RowError> {
    match argument {
        Json::String(text) => Ok(Vec::from_slice(alloc, text.as_bytes())?),
        _ => octets_in(alloc, one(items_in(argument)?)?),
    }
}
