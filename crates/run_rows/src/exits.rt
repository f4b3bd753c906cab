use mc_script::{Exit, ScriptWhy, ShelfCause};
use mc_tracks::Refused;
use rows::{Json, RowError, named, none, number_in, one, text_in, two};
use std::fmt::Write;

#[derive(Clone, Copy)]
enum Way {
    Plain(Exit),
    Rose,
    NoFile,
    File,
    Broken,
    Script,
}

const WAYS: [(&str, Way); 10] = [
    ("done", Way::Plain(Exit::Done)),
    ("no memory", Way::Plain(Exit::NoMemory)),
    ("usage", Way::Plain(Exit::Usage)),
    ("sink", Way::Plain(Exit::Sink)),
    ("journal full", Way::Plain(Exit::JournalFull)),
    ("rose", Way::Rose),
    ("no file", Way::NoFile),
    ("file", Way::File),
    ("broken", Way::Broken),
    ("script", Way::Script),
];

const REFUSALS: [(&str, Refused); 3] = [
    ("NotEbml", Refused::NotEbml),
    ("Version", Refused::Version),
    ("TooMany", Refused::TooMany),
];

const REASONS: [(&str, ScriptWhy); 4] = [
    ("Size", ScriptWhy::Size),
    ("Utf8", ScriptWhy::Utf8),
    ("Word", ScriptWhy::Word),
    ("Number", ScriptWhy::Number),
];

fn exit_in(arguments: &[Json<'_>]) -> Result<Exit, RowError> {
    let [way, parts @ ..] = arguments else {
        return Err(RowError::BadRow);
    };
    match named(&WAYS, text_in(way)?)? {
        Way::Plain(exit) => {
            none(parts)?;
            Ok(exit)
        }
        Way::Rose => rose(parts),
        Way::NoFile => no_file(parts),
        Way::File => Ok(Exit::File(named(&REFUSALS, text_in(one(parts)?)?)?)),
        Way::Broken => broken(parts),
        Way::Script => script(parts),
    }
}

fn rose(parts: &[Json<'_>]) -> Result<Exit, RowError> {
    let (before, after) = two(parts)?;
    Ok(Exit::Shelf(ShelfCause::Rose {
        before: u64::try_from(number_in(before)?)?,
        after: u64::try_from(number_in(after)?)?,
    }))
}

fn no_file(parts: &[Json<'_>]) -> Result<Exit, RowError> {
    let word = u32::try_from(number_in(one(parts)?)?)?;
    Ok(Exit::Shelf(ShelfCause::NoFile { word }))
}

fn broken(parts: &[Json<'_>]) -> Result<Exit, RowError> {
    let at = u64::try_from(number_in(one(parts)?)?)?;
    Ok(Exit::File(Refused::Broken(at)))
}

fn script(parts: &[Json<'_>]) -> Result<Exit, RowError> {
    let (line, why) = two(parts)?;
    Ok(Exit::Script {
        line: u32::try_from(number_in(line)?)?,
        why: named(&REASONS, text_in(why)?)?,
    })
}

/// The status of a way to end, and what is said on standard error.
pub fn call_says(arguments: &[Json<'_>], out: &mut String) -> Result<(), RowError> {
    let exit = exit_in(arguments)?;
    let status = exit.status();
    Ok(write!(out, "{status} {exit}")?)
}
