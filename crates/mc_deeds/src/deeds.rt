//! What a request does once it is taken.
ghost use Rattle.std.specs.Prelude.{◌≡◌, ◌≤ℤ◌, ℤ, not, IfOk, Result, Ok, Err, pos, neg_ℤ, ◌+ℤ◌};
ghost use Rattle.mc_props.specs.Readings.{Answers};
ghost use Rattle.mc_props.specs.declared.refusal.PropError.{PropError};
ghost use Rattle.mc_props.specs.declared.settings.Write.{Write};
ghost use Rattle.mc_value.specs.declared.value.Value.{Value};
ghost use Rattle.mc_player.specs.Deeds.{after_deed, clamped, cycle_deed, dir_of, far, get_deed, goal_of, seek_deed, send_deed, set_deed};
ghost use Rattle.mc_deeds.specs.Changes.{deed_mask};

use mc_dispatch::ClientNo;
use mc_packet::Dir;
use mc_player::Deed;
use mc_props::fields::{MUTE, PAUSE};
use mc_props::{Facts, PropError, Write};
use mc_value::{NoMemory, Value, Words};
use std::alloc::AllocError;

// The furthest time to seek, on either side of 0.
const FAR: i128 = 1 << 62;

// ---- properties

/// What a `Get` does whose property read as this: it gives the value, or fails with that error.
pub fn get_deed(read: Result<Value, PropError>) -> Result<Deed, NoMemory>
    ensures { (wanted : Result Value PropError) → Answers read wanted
        → IfOk result (λ d. d ≡ get_deed wanted) }
{
    match read {
        Ok(value) => Ok(Deed::Gives(value)),
        Err(PropError::NoMemory) => Err(AllocError),
        Err(error) => Ok(Deed::Fails(error.number())),
    }
}

fn write_deed(facts: &Facts, write: Write) -> Deed
    ensures { result ≡ set_deed facts.now (Ok write) }
{
    match write {
        Write::Pause(on) => Deed::Pauses(on),
        Write::Mute(on) => Deed::Mutes(on),
        Write::Select(set) => Deed::Selects {
            set,
            at: facts.cache.time.unwrap_or(0),
        },
    }
}

/// What a `Set` does whose property was to be written so, or fails with that error.
pub fn set_deed(facts: &Facts, write: Result<Write, PropError>) -> Result<Deed, NoMemory>
    ensures { (wanted : Result Write PropError) → Answers write wanted
        → IfOk result (λ d. d ≡ set_deed facts.now wanted) }
{
    match write {
        Ok(write) => Ok(write_deed(facts, write)),
        Err(PropError::NoMemory) => Err(AllocError),
        Err(error) => Ok(Deed::Fails(error.number())),
    }
}

// ---- commands

fn clamped(t: i128) -> i64
    ensures { result ≡ clamped t }
{
    if FAR < t {
        FAR as i64
    } else if t < -FAR {
        -FAR as i64
    } else {
        t as i64
    }
}

/// The time that a seek is for: absolute, or counted from the player's time, clamped to 2^62
/// nanoseconds on either side of 0; none where the player has no time.
pub fn goal_of(time: Option<i64>, t: i64, absolute: bool) -> Option<i64>
    ensures { result ≡ goal_of time t absolute }
{
    if absolute {
        return Some(clamped(t as i128));
    }
    match time {
        Some(here) => Some(clamped(here as i128 + t as i128)),
        None => None,
    }
}

/// The direction in which a seek finds its packet.
pub fn dir_of(forward: bool) -> Dir
    ensures { result ≡ dir_of forward }
{
    if forward { Dir::Forward } else { Dir::Back }
}

/// What a seek does: none is to be had where there is no goal.
pub fn seek_deed(dir: Dir, goal: Option<i64>) -> Deed
    ensures { result ≡ seek_deed dir goal }
{
    match goal {
        Some(t) => Deed::Seeks { t, dir },
        None => Deed::Fails(-12),
    }
}

/// What `cycle` does to a property of the name.
pub fn cycle_deed(facts: &Facts, name: &str) -> Deed
    ensures { result ≡ cycle_deed facts.now name.now }
{
    if name == "pause" {
        Deed::Pauses(!facts.pause)
    } else if name == "mute" {
        Deed::Mutes(!facts.mute)
    } else {
        Deed::Fails(-12)
    }
}

/// What a message to one client does, where that client lives.
pub fn send_deed(words: Words, client: Option<ClientNo>) -> Deed
    ensures { result ≡ send_deed words client }
{
    match client {
        Some(client) => Deed::SendsTo { client, words },
        None => Deed::Fails(-12),
    }
}

// ---- the facts after it

/// The fields of the facts that a deed changes.
pub fn deed_mask(deed: &Deed) -> u32
    ensures { result ≡ deed_mask deed.now }
{
    match deed {
        Deed::Pauses(_) => PAUSE,
        Deed::Mutes(_) => MUTE,
        _ => 0,
    }
}

/// The facts as a deed leaves them.
pub fn apply(facts: &mut Facts, deed: &Deed)
    ensures { facts.new ≡ after_deed deed.now facts.old }
{
    match deed {
        Deed::Pauses(on) => facts.pause = *on,
        Deed::Mutes(on) => facts.mute = *on,
        _ => {}
    }
}
