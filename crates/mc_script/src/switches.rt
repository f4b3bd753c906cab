ghost use Rattle.std.specs.Prelude.{◌≡◌, ◌<◌, Bool, IfOk, IfSome, Some, None, position, length};
ghost use Rattle.std.specs.Option.{ok_or};
ghost use Rattle.mc_script.specs.Forms.{act_in, at_form, is_at, switch_at, switch_form, switch_to, tracks_of};
ghost use Rattle.mc_script.specs.Lines.{Means};
ghost use Rattle.mc_script.specs.declared.acts.ScriptWhy.TheVariants.{Number};

use crate::acts::{Act, Numbers, ScriptWhy};
use crate::lines::{LineError, seconds};
use mc_value::{NoMemory, Text, read_place};
use std::alloc::Global;

fn is_at(word: &Text) -> bool
    ensures { result ≡ is_at word.now }
{
    word.as_str() == "at"
}

fn place_of_at(words: &[Text]) -> Option<usize>
    ensures place { result ≡ position is_at words.now }
    ensures within { IfSome result (λ i. i < length words.now) }
{
    words.iter().position(|word| is_at(word))
}

/// The numbers of tracks; `None` where a word is none.
fn parse_tracks(alloc: Global, words: &[Text]) -> Result<Option<Numbers>, NoMemory>
    ensures { IfOk result (λ tracks. tracks ≡ tracks_of words.now) }
{
    let mut tracks = Numbers::new(alloc);
    for word in words {
        match read_place(word.as_str().as_bytes()) {
            Some(number) => tracks.push(number)?,
            None => return Ok(None),
        }
    }
    Ok(Some(tracks))
}

fn switch_now(set: Option<Numbers>) -> Result<Act, ScriptWhy>
    ensures { result ≡ ok_or (switch_to set None) Number }
{
    match set {
        Some(set) => Ok(Act::Switch { set, at: None }),
        None => Err(ScriptWhy::Number),
    }
}

fn switch_at(set: Option<Numbers>, time: Option<i64>) -> Result<Act, ScriptWhy>
    ensures { result ≡ ok_or (switch_at set time) Number }
{
    match (set, time) {
        (Some(set), Some(t)) => Ok(Act::Switch { set, at: Some(t) }),
        _ => Err(ScriptWhy::Number),
    }
}

/// What `switch [NUMBER...] [at SECONDS]` means, from its words behind `switch`.
pub fn parse_switch(alloc: Global, args: &[Text]) -> Result<Act, LineError>
    ensures { (out : Bool) → Means result (act_in out (switch_form args.now)) }
{
    match place_of_at(args) {
        None => Ok(switch_now(parse_tracks(alloc, args)?)?),
        Some(at) => parse_switch_at(alloc, &args[..at], &args[at + 1..]),
    }
}

fn parse_switch_at(alloc: Global, tracks: &[Text], behind: &[Text]) -> Result<Act, LineError>
    ensures { (out : Bool) → Means result (act_in out (at_form tracks.now behind.now)) }
{
    match behind {
        [time] if !is_at(time) => {
            let tracks = parse_tracks(alloc, tracks)?;
            Ok(switch_at(tracks, seconds(time.as_str()))?)
        }
        _ => Err(LineError::Refused(ScriptWhy::Word)),
    }
}
