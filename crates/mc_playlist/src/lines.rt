ghost use Rattle.std.specs.Prelude.{◌≡◌, Ok};
ghost use Rattle.mc_script.specs.Script.{is_comment};
ghost use Rattle.mc_script.specs.Words.{is_name};
ghost use Rattle.mc_playlist.specs.Lines.{Means, act_by, add_act, entry_of, line_said, move_act, move_to, one_entry, plain_act, play_act, verb_of, watch_act, words_said};

use crate::acts::ListAct;
use crate::steps::ListStep;
use mc_command::{CommandError, split_line};
use mc_value::{Text, read_place};
use std::alloc::{AllocError, Global};

/// What a line's first word asks for.
#[derive(Clone, Copy)]
pub enum Verb {
    Add,
    Remove,
    Move,
    Clear,
    Next,
    Prev,
    Jump,
    Play,
    Watch,
}

/// Why a line gives no act.
#[derive(Clone, Copy, Debug, PartialEq, Eq)]
pub enum LineError {
    /// It is outside the grammar.
    Bad,
    /// There was no memory for its words.
    NoMemory,
}

impl From<AllocError> for LineError {
    ghost use Rattle.std.specs.Prelude.{◌≡◌};
    ghost use Rattle.mc_playlist.specs.declared.lines.LineError.TheVariants.{NoMemory};

    ghost from_gives = { λ _ e. e ≡ NoMemory };

    fn from(_error: AllocError) -> LineError {
        LineError::NoMemory
    }
}

/// What a line asks for, or nothing where it has no word or is a comment.
pub fn parse_line(alloc: Global, line: &str) -> Result<Option<ListAct>, LineError>
    ensures { Means result (line_said line.now) }
{
    if is_comment(line) {
        return Ok(None);
    }
    match split_line(alloc, line) {
        Ok(words) => parse_words(words.as_slice()),
        Err(CommandError::Bad { .. }) => Err(LineError::Bad),
        Err(CommandError::NoMemory) => Err(LineError::NoMemory),
    }
}

fn is_comment(line: &str) -> bool
    ensures { result ≡ is_comment line.now }
{
    match line.as_bytes() {
        [] => false,
        [first, ..] => *first == b'#',
    }
}

fn parse_words(words: &[Text]) -> Result<Option<ListAct>, LineError>
    ensures { Means result (words_said (Ok words.now)) }
{
    match words {
        [] => Ok(None),
        [word, args @ ..] => Ok(Some(parse_act(verb_of(word.as_str()), args)?)),
    }
}

fn verb_of(word: &str) -> Option<Verb>
    ensures { result ≡ verb_of word.now }
{
    match word {
        "add" => Some(Verb::Add),
        "remove" => Some(Verb::Remove),
        "move" => Some(Verb::Move),
        "clear" => Some(Verb::Clear),
        "next" => Some(Verb::Next),
        "prev" => Some(Verb::Prev),
        "jump" => Some(Verb::Jump),
        "play" => Some(Verb::Play),
        "watch" => Some(Verb::Watch),
        _ => None,
    }
}

fn parse_act(verb: Option<Verb>, args: &[Text]) -> Result<ListAct, LineError>
    ensures { Means result (act_by verb args.now) }
{
    let Some(verb) = verb else {
        return Err(LineError::Bad);
    };
    match verb {
        Verb::Add => parse_add(args),
        Verb::Remove => Ok(ListAct::Step(ListStep::Remove(parse_entry(args)?))),
        Verb::Move => parse_move(args),
        Verb::Clear => parse_plain(args, ListAct::Step(ListStep::Clear)),
        Verb::Next => parse_plain(args, ListAct::Step(ListStep::Next)),
        Verb::Prev => parse_plain(args, ListAct::Step(ListStep::Prev)),
        Verb::Jump => Ok(ListAct::Step(ListStep::Jump(parse_entry(args)?))),
        Verb::Play => parse_play(args),
        Verb::Watch => parse_watch(args),
    }
}

fn parse_add(args: &[Text]) -> Result<ListAct, LineError>
    ensures { Means result (add_act args.now) }
{
    match args {
        [name] if is_file_name(name.as_str()) => Ok(ListAct::Step(ListStep::Add(name.copy()?))),
        _ => Err(LineError::Bad),
    }
}

// A file's name is not empty and does not begin with a dash.
fn is_file_name(word: &str) -> bool
    ensures { result ≡ is_name word.now }
{
    match word.as_bytes() {
        [] => false,
        [first, ..] => *first != b'-',
    }
}

// The place in a list that is the only word.
fn parse_entry(args: &[Text]) -> Result<u32, LineError>
    ensures { Means result (one_entry args.now) }
{
    match args {
        [place] => entry_of(place.as_str()).ok_or(LineError::Bad),
        _ => Err(LineError::Bad),
    }
}

// A place in a list: digits without a needless 0 in front, below 2^32.
fn entry_of(word: &str) -> Option<u32>
    ensures { result ≡ entry_of word.now }
{
    let place = read_place(word.as_bytes())?;
    if place <= u32::MAX as u64 {
        Some(place as u32)
    } else {
        None
    }
}

fn parse_move(args: &[Text]) -> Result<ListAct, LineError>
    ensures { Means result (move_act args.now) }
{
    match args {
        [from, before] => move_to(entry_of(from.as_str()), entry_of(before.as_str())),
        _ => Err(LineError::Bad),
    }
}

fn move_to(from: Option<u32>, before: Option<u32>) -> Result<ListAct, LineError>
    ensures { Means result (move_to from before) }
{
    match (from, before) {
        (Some(from), Some(before)) => Ok(ListAct::Step(ListStep::Move(from, before))),
        _ => Err(LineError::Bad),
    }
}

fn parse_plain(args: &[Text], act: ListAct) -> Result<ListAct, LineError>
    ensures { Means result (plain_act act args.now) }
{
    match args {
        [] => Ok(act),
        _ => Err(LineError::Bad),
    }
}

fn parse_play(args: &[Text]) -> Result<ListAct, LineError>
    ensures { Means result (play_act args.now) }
{
    match args {
        [] => Ok(ListAct::Play),
        [word] if word.as_str() == "all" => Ok(ListAct::PlayAll),
        _ => Err(LineError::Bad),
    }
}

fn parse_watch(args: &[Text]) -> Result<ListAct, LineError>
    ensures { Means result (watch_act args.now) }
{
    match args {
        [name] => Ok(ListAct::Watch(name.copy()?)),
        _ => Err(LineError::Bad),
    }
}
