ghost use Rattle.std.specs.Prelude.{◌≡◌, IfOk, Bool, None, Some};
ghost use Rattle.std.specs.Option.{ok_or, option_copied};
ghost use Rattle.mc_value.specs.Conversions.{as_flag, as_number};
ghost use Rattle.mc_value.specs.declared.value.Value.{out-Value};
ghost use Rattle.mc_props.specs.Readings.{Answers};
ghost use Rattle.mc_props.specs.Settings.{flag_write, is_no, number_write, selection_write, track_at, track_write, with_track, written};
ghost use Rattle.mc_props.specs.declared.refusal.PropError.TheVariants as refusal;
ghost use Rattle.mc_props.specs.declared.settings.Write.TheVariants as write;

use crate::facts::Facts;
use crate::refusal::PropError;
use crate::track_values::nth_of_kind;
use mc_packet::{Choice, Kind, TrackNo};
use mc_tracks::{Track, TrackList};
use mc_value::{Format, Value, convert};
use std::alloc::Global;

/// What setting a property changes.
#[derive(Clone, Copy, Debug, PartialEq, Eq)]
pub enum Write {
    /// The player is paused, or goes on.
    Pause(bool),
    /// Its sound is off, or on.
    Mute(bool),
    /// These tracks are selected.
    Select(Choice),
}

/// What a value writes under a name: `pause` and `mute` take what converts to a flag; `vid`, `aid`
/// and `sid` take `no`, or what converts to a track's number among those of its kind. `ReadOnly`
/// for every other name.
pub(crate) fn written(
    alloc: Global,
    name: &str,
    facts: &Facts,
    value: &Value,
) -> Result<Write, PropError>
    ensures { Answers result (written name.now facts.now value.now) }
{
    if name == "pause" {
        Ok(Write::Pause(flag_of(alloc, value)?))
    } else if name == "mute" {
        Ok(Write::Mute(flag_of(alloc, value)?))
    } else if name == "vid" {
        selection(alloc, Kind::Video, facts, value)
    } else if name == "aid" {
        selection(alloc, Kind::Audio, facts, value)
    } else if name == "sid" {
        selection(alloc, Kind::Sub, facts, value)
    } else {
        Err(PropError::ReadOnly)
    }
}

fn flag_of(alloc: Global, value: &Value) -> Result<bool, PropError>
    ensures { Answers result (ok_or (as_flag (out-Value value.now)) refusal.PropertyFormat) }
{
    match convert(alloc, value, Format::Flag)? {
        Value::Flag(flag) => Ok(flag),
        _ => Err(PropError::PropertyFormat),
    }
}

fn number_of(alloc: Global, value: &Value) -> Result<i64, PropError>
    ensures { Answers result (ok_or (as_number (out-Value value.now)) refusal.PropertyFormat) }
{
    match convert(alloc, value, Format::Int64)? {
        Value::Int(number) => Ok(number),
        _ => Err(PropError::PropertyFormat),
    }
}

fn selection(alloc: Global, kind: Kind, facts: &Facts, value: &Value) -> Result<Write, PropError>
    ensures { Answers result (selection_write kind facts.now (out-Value value.now)) }
{
    if is_no(value) {
        return Ok(Write::Select(with_track(kind, None, facts.set)));
    }
    let number = number_of(alloc, value)?;
    select(kind, facts.set, track_at(kind, number, &facts.tracks))
}

fn is_no(value: &Value) -> bool
    ensures { result ≡ is_no (out-Value value.now) }
{
    match value {
        Value::Str(text) => text.as_str() == "no",
        _ => false,
    }
}

fn select(kind: Kind, set: Choice, track: Option<&Track>) -> Result<Write, PropError>
    ensures { result ≡ track_write kind set (option_copied track.entry) }
{
    match track {
        None => Err(PropError::NoSuchTrack),
        Some(track) if track.encoded => Err(PropError::Unsupported),
        Some(track) => Ok(Write::Select(with_track(kind, Some(track.no), set))),
    }
}

fn track_at(kind: Kind, number: i64, tracks: &TrackList) -> Option<&Track>
    ensures { option_copied result ≡ track_at kind number tracks.now }
{
    if number < 1 {
        return None;
    }
    nth_of_kind(tracks.as_slice(), kind, number as usize - 1)
}

fn with_track(kind: Kind, track: Option<TrackNo>, set: Choice) -> Choice
    ensures { result ≡ with_track kind track set }
{
    match kind {
        Kind::Video => Choice {
            video: track,
            ..set
        },
        Kind::Audio => Choice {
            audio: track,
            ..set
        },
        Kind::Sub => Choice { sub: track, ..set },
    }
}
