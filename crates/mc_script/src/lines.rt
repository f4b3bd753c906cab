ghost use Rattle.std.specs.Prelude.{◌≡◌, Bool, true, false, Some, None, Ok, Err, if◌then◌else◌};
ghost use Rattle.std.specs.Option.{option_map, ok_or};
ghost use Rattle.mc_value.specs.Seconds.{seconds_of};
ghost use Rattle.mc_script.specs.Forms.{act_in, count_of, demux_form, kind_of, plain_form, read_form, read_with, seek_form, verb_of, words_act};
ghost use Rattle.mc_script.specs.Forms.Form.{drain, seek, show};
ghost use Rattle.mc_script.specs.Lines.{Means};
ghost use Rattle.mc_script.specs.Script.{act_of_words, is_comment, line_act};
ghost use Rattle.mc_script.specs.declared.acts.Act.TheVariants as acts;
ghost use Rattle.mc_script.specs.declared.acts.ScriptWhy.TheVariants.{Word, Number};

use crate::acts::{Act, ScriptWhy};
use crate::options::between;
use crate::switches::parse_switch;
use mc_command::{CommandError, split_line};
use mc_packet::{Dir, Kind};
use mc_value::{Text, parse_seconds, read_place};
use std::alloc::{AllocError, Global};

/// What a line's first word asks for.
#[derive(Clone, Copy)]
pub enum Verb {
    Seek,
    Switch,
    Show,
    Demux,
    Read,
    Drain,
}

/// Why a line gives no act.
#[derive(Clone, Copy, Debug, PartialEq, Eq)]
pub enum LineError {
    Refused(ScriptWhy),
    NoMemory,
}

impl From<AllocError> for LineError {
    ghost use Rattle.std.specs.Prelude.{◌≡◌};
    ghost use Rattle.mc_script.specs.declared.lines.LineError.TheVariants.{NoMemory};

    ghost from_gives = { λ _ e. e ≡ NoMemory };

    fn from(_error: AllocError) -> LineError {
        LineError::NoMemory
    }
}

impl From<ScriptWhy> for LineError {
    ghost use Rattle.std.specs.Prelude.{◌≡◌};
    ghost use Rattle.mc_script.specs.declared.lines.LineError.TheVariants.{Refused};

    ghost from_gives = { λ why e. e ≡ Refused why };

    fn from(why: ScriptWhy) -> LineError {
        LineError::Refused(why)
    }
}

/// What a line means, or nothing where it is skipped; whether a job is out where it stands.
pub fn parse_line(alloc: Global, is_out: bool, line: &str) -> Result<Option<Act>, LineError>
    ensures { Means result (line_act is_out line.now) }
{
    if is_comment(line) {
        return Ok(None);
    }
    match split_line(alloc, line) {
        Ok(words) => parse_any(alloc, is_out, words.as_slice()),
        Err(CommandError::Bad { .. }) => Err(LineError::Refused(ScriptWhy::Word)),
        Err(CommandError::NoMemory) => Err(LineError::NoMemory),
    }
}

fn is_comment(line: &str) -> bool
    ensures { result ≡ is_comment line.now }
{
    match line.as_bytes() {
        [] => false,
        [first, ..] => *first == b'#',
    }
}

fn parse_any(alloc: Global, is_out: bool, words: &[Text]) -> Result<Option<Act>, LineError>
    ensures { Means result (act_of_words is_out (Ok words.now)) }
{
    match words {
        [] => Ok(None),
        [word, args @ ..] => Ok(Some(parse_words(alloc, is_out, word.as_str(), args)?)),
    }
}

fn parse_words(alloc: Global, is_out: bool, word: &str, args: &[Text]) -> Result<Act, LineError>
    ensures { Means result (words_act is_out word.now args.now) }
{
    match first_word(word) {
        None => Err(LineError::Refused(ScriptWhy::Word)),
        Some(Verb::Seek) => Ok(parse_seek(args)?),
        Some(Verb::Switch) => parse_switch(alloc, args),
        Some(Verb::Show) => Ok(parse_show(args)?),
        Some(Verb::Demux) => Ok(parse_demux(is_out, args)?),
        Some(Verb::Read) => Ok(parse_read(args)?),
        Some(Verb::Drain) => Ok(parse_drain(is_out, args)?),
    }
}

fn first_word(word: &str) -> Option<Verb>
    ensures { result ≡ verb_of word.now }
{
    match word {
        "seek" => Some(Verb::Seek),
        "switch" => Some(Verb::Switch),
        "show" => Some(Verb::Show),
        "demux" => Some(Verb::Demux),
        "read" => Some(Verb::Read),
        "drain" => Some(Verb::Drain),
        _ => None,
    }
}

pub fn seconds(word: &str) -> Option<i64>
    ensures { result ≡ seconds_of word.now }
{
    parse_seconds(word).ok()
}

fn count(word: &str) -> Option<u32>
    ensures { result ≡ count_of (Some word.now) }
{
    let count = between(1, 1_000_000, read_place(word.as_bytes()))?;
    Some(count as u32)
}

fn seek_to(word: &str, dir: Dir) -> Result<Act, ScriptWhy>
    ensures { result ≡ act_in false (Some (seek word.now dir)) }
{
    match seconds(word) {
        Some(t) => Ok(Act::Seek { t, dir }),
        None => Err(ScriptWhy::Number),
    }
}

fn parse_seek(args: &[Text]) -> Result<Act, ScriptWhy>
    ensures { (out : Bool) → result ≡ act_in out (seek_form args.now) }
{
    match args {
        [time] => seek_to(time.as_str(), Dir::Back),
        [time, word] if word.as_str() == "forward" => seek_to(time.as_str(), Dir::Forward),
        _ => Err(ScriptWhy::Word),
    }
}

fn parse_show(args: &[Text]) -> Result<Act, ScriptWhy>
    ensures { (out : Bool) → result ≡ act_in out (plain_form show args.now) }
{
    match args {
        [] => Ok(Act::Show),
        _ => Err(ScriptWhy::Word),
    }
}

fn parse_drain(is_out: bool, args: &[Text]) -> Result<Act, ScriptWhy>
    ensures { result ≡ act_in is_out (plain_form drain args.now) }
{
    match args {
        [] if !is_out => Ok(Act::Drain),
        _ => Err(ScriptWhy::Word),
    }
}

fn demux(is_out: bool, count: Option<u32>) -> Result<Act, ScriptWhy>
    ensures { result ≡ (if is_out then Err Word else ok_or (option_map acts.Demux count) Number) }
{
    if is_out {
        return Err(ScriptWhy::Word);
    }
    match count {
        Some(count) => Ok(Act::Demux { count }),
        None => Err(ScriptWhy::Number),
    }
}

fn parse_demux(is_out: bool, args: &[Text]) -> Result<Act, ScriptWhy>
    ensures { result ≡ act_in is_out (demux_form args.now) }
{
    match args {
        [] => demux(is_out, Some(1)),
        [word] if word.as_str() == "take" => half(!is_out, Act::DemuxTake),
        [word] if word.as_str() == "give" => half(is_out, Act::DemuxGive),
        [word] => demux(is_out, count(word.as_str())),
        _ => Err(ScriptWhy::Word),
    }
}

/// Half a turn of the demuxer, where it may stand.
fn half(may_stand: bool, act: Act) -> Result<Act, ScriptWhy>
    ensures { result ≡ (if may_stand then Ok act else Err Word) }
{
    if may_stand {
        Ok(act)
    } else {
        Err(ScriptWhy::Word)
    }
}

fn kind(word: &str) -> Option<Kind>
    ensures { result ≡ kind_of word.now }
{
    match word {
        "video" => Some(Kind::Video),
        "audio" => Some(Kind::Audio),
        "sub" => Some(Kind::Sub),
        _ => None,
    }
}

fn parse_read(args: &[Text]) -> Result<Act, ScriptWhy>
    ensures { (out : Bool) → result ≡ act_in out (read_form args.now) }
{
    match args {
        [] => Err(ScriptWhy::Word),
        [word, rest @ ..] => parse_read_of(kind(word.as_str()), rest),
    }
}

fn parse_read_of(kind: Option<Kind>, args: &[Text]) -> Result<Act, ScriptWhy>
    ensures { (out : Bool) → result ≡ act_in out (read_with kind args.now) }
{
    let Some(kind) = kind else {
        return Err(ScriptWhy::Word);
    };
    match args {
        [] => Ok(Act::Read { kind, count: 1 }),
        [word] => match count(word.as_str()) {
            Some(count) => Ok(Act::Read { kind, count }),
            None => Err(ScriptWhy::Number),
        },
        _ => Err(ScriptWhy::Word),
    }
}
