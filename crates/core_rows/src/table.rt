use crate::asks::{call_in, long_in};
use crate::outcomes::{BY, end_at, load, refuse, seek, select, view_at};
use crate::shown::{push_answer, push_error, push_kinds, push_order};
use mc_core::{Core, CoreError};
use mc_dispatch::{Call, ClientNo};
use mc_player::Answer;
use mc_props::Reads;
use mc_props::meanings::Standard;
use mc_value::Text;
use rows::{Json, RowError, Table, flag_in, named, none, number_in, one, text_in, two};
use std::alloc::Global;
use std::fmt::Write;

/// The calls of one core after another.
#[derive(Drop)]
pub struct CoreTable<F: Reads<Standard>> {
    // the core whose turn it is is the last; one that had its turn is gone
    cores: Vec<Core<F, Standard>>,
    // how many records the last row that printed some had seen
    seen: usize,
}

impl<F: Reads<Standard>> CoreTable<F> {
    /// The calls of these cores, the last first.
    pub fn new(cores: Vec<Core<F, Standard>>) -> CoreTable<F> {
        CoreTable { cores, seen: 0 }
    }

    fn next(&mut self) {
        let _gone = self.cores.pop();
        self.seen = 0;
    }

    fn push_journal(&mut self, out: &mut String) -> Result<(), RowError> {
        let Some(core) = self.cores.last() else {
            return Err(RowError::BadRow);
        };
        push_kinds(out, core.journal(), self.seen)?;
        self.seen = core.journal().len();
        Ok(())
    }
}

#[derive(Clone, Copy)]
enum Word {
    Create,
    Destroy,
    Call,
    Read,
    Learn,
    LearnEnd,
    Work,
    Loaded,
    Sought,
    Refused,
    Selected,
    Journal,
    Next,
}

const WORDS: [(&str, Word); 13] = [
    ("create", Word::Create),
    ("destroy", Word::Destroy),
    ("call", Word::Call),
    ("read", Word::Read),
    ("learn", Word::Learn),
    ("learn end", Word::LearnEnd),
    ("work", Word::Work),
    ("loaded", Word::Loaded),
    ("sought", Word::Sought),
    ("refused", Word::Refused),
    ("selected", Word::Selected),
    ("journal", Word::Journal),
    ("next", Word::Next),
];

impl<F: Reads<Standard>> Table for CoreTable<F> {
    fn call(
        &mut self,
        alloc: Global,
        name: &str,
        arguments: &[Json<'_>],
        out: &mut String,
    ) -> Result<(), RowError> {
        let word = named(&WORDS, name)?;
        match word {
            Word::Next => {
                none(arguments)?;
                self.next();
                return Ok(());
            }
            Word::Journal => {
                none(arguments)?;
                return self.push_journal(out);
            }
            _ => {}
        }
        match self.cores.last_mut() {
            Some(core) => answer(alloc, core, word, arguments, out),
            None => Err(RowError::BadRow),
        }
    }
}

fn answer<F: Reads<Standard>>(
    alloc: Global,
    core: &mut Core<F, Standard>,
    word: Word,
    arguments: &[Json<'_>],
    out: &mut String,
) -> Result<(), RowError> {
    match word {
        Word::Create => create(alloc, core, arguments, out),
        Word::Destroy => destroy(core, arguments, out),
        Word::Call => call(alloc, core, arguments, out),
        Word::Read => read(alloc, core, arguments, out),
        Word::Learn => learn(alloc, core, arguments, out),
        Word::LearnEnd => learn_end(alloc, core, arguments, out),
        word => {
            none(arguments)?;
            answer_alone(alloc, core, word, out)
        }
    }
}

// The calls without an argument.
fn answer_alone<F: Reads<Standard>>(
    alloc: Global,
    core: &mut Core<F, Standard>,
    word: Word,
    out: &mut String,
) -> Result<(), RowError> {
    match word {
        Word::Work => work(core, out),
        Word::Loaded => push_done(out, load(alloc, core)?),
        Word::Sought => push_done(out, seek(core)?),
        Word::Refused => push_done(out, refuse(core)?),
        Word::Selected => push_done(out, select(core)?),
        _ => Err(RowError::BadRow),
    }
}

fn push_done(out: &mut String, done: Result<(), CoreError>) -> Result<(), RowError> {
    match done {
        Ok(()) => Ok(out.push_str("done")?),
        Err(error) => push_error(out, error),
    }
}

fn client_in(argument: &Json<'_>) -> Result<ClientNo, RowError> {
    Ok(ClientNo(u32::try_from(number_in(argument)?)?))
}

fn create<F: Reads<Standard>>(
    alloc: Global,
    core: &mut Core<F, Standard>,
    arguments: &[Json<'_>],
    out: &mut String,
) -> Result<(), RowError> {
    let (name, size) = two(arguments)?;
    let name = Text::new(alloc, text_in(name)?)?;
    match core.create_client(BY, name, u32::try_from(number_in(size)?)?) {
        Ok(client) => Ok(write!(out, "client {}", client.0)?),
        Err(error) => push_error(out, error),
    }
}

fn destroy<F: Reads<Standard>>(
    core: &mut Core<F, Standard>,
    arguments: &[Json<'_>],
    out: &mut String,
) -> Result<(), RowError> {
    let client = client_in(one(arguments)?)?;
    push_done(out, core.destroy(BY, client))
}

fn call<F: Reads<Standard>>(
    alloc: Global,
    core: &mut Core<F, Standard>,
    arguments: &[Json<'_>],
    out: &mut String,
) -> Result<(), RowError> {
    let [client, name, parts @ ..] = arguments else {
        return Err(RowError::BadRow);
    };
    let client = client_in(client)?;
    let call = call_in(alloc, text_in(name)?, parts)?;
    match core.call(BY, client, call) {
        Ok(answer) => Ok(push_answer(alloc, out, &answer)?),
        Err(error) => push_error(out, error),
    }
}

// A property is asked for and the request worked; it prints the client's next event. Where a row finds
// no memory part of that may have happened, so that it stands behind no line `# patient`.
fn read<F: Reads<Standard>>(
    alloc: Global,
    core: &mut Core<F, Standard>,
    arguments: &[Json<'_>],
    out: &mut String,
) -> Result<(), RowError> {
    let [client, parts @ ..] = arguments else {
        return Err(RowError::BadRow);
    };
    let client = client_in(client)?;
    let asked = call_in(alloc, "get", parts)?;
    if core.order().is_some() {
        return Err(RowError::BadRow);
    }
    let answer = match core.call(BY, client, asked) {
        Ok(Answer::Ok) => core
            .work(BY)
            .and_then(|_| core.call(BY, client, Call::Poll)),
        other => other,
    };
    match answer {
        Ok(answer) => Ok(push_answer(alloc, out, &answer)?),
        Err(error) => push_error(out, error),
    }
}

// The time of a view whose film has ended, with nothing more to read.
fn learn_end<F: Reads<Standard>>(
    alloc: Global,
    core: &mut Core<F, Standard>,
    arguments: &[Json<'_>],
    out: &mut String,
) -> Result<(), RowError> {
    let time = number_in(one(arguments)?)?;
    push_done(out, core.learn(BY, end_at(alloc, time)))
}

// The time of the view in nanoseconds, below 0 for none, and whether it plays.
fn learn<F: Reads<Standard>>(
    alloc: Global,
    core: &mut Core<F, Standard>,
    arguments: &[Json<'_>],
    out: &mut String,
) -> Result<(), RowError> {
    let (time, playing) = two(arguments)?;
    let time = number_in(time)?;
    let time = if time < 0 { None } else { Some(time) };
    let view = view_at(alloc, time, flag_in(playing)?);
    push_done(out, core.learn(BY, view))
}

fn work<F: Reads<Standard>>(
    core: &mut Core<F, Standard>,
    out: &mut String,
) -> Result<(), RowError> {
    if core.order().is_some() {
        return Err(RowError::BadRow);
    }
    match core.work(BY) {
        Ok(order) => Ok(push_order(out, order)?),
        Err(error) => push_error(out, error),
    }
}
