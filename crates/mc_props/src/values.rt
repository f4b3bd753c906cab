ghost use Rattle.std.specs.Prelude.{◌≡◌, IfOk};
ghost use Rattle.std.specs.Option.{option_map};
ghost use Rattle.mc_value.specs.declared.value.Value.TheVariants as value;
ghost use Rattle.mc_props.specs.declared.reading.Reading.TheVariants.{Is};
ghost use Rattle.mc_props.specs.Standard.{file_part, has_track, reading_of, standard_of, text_reading, time_reading, value_of};

use crate::cache_value::{cache_map, time_value};
use crate::facts::Facts;
use crate::names::behind_slash;
use crate::properties::{Property, needs_file, property_at};
use crate::reading::Reading;
use crate::track_values::{selected, track_list};
use mc_packet::Choice;
use mc_value::{NoMemory, Text, Value};
use std::alloc::Global;

/// What the property at a place of `standard_entries` shows of these facts; no other place has one.
/// It depends on the fields of the entry's mask alone. All properties but `pause`, `mute` and
/// `idle-active` have no value until a file is loaded.
#[tactic(auto, unfolding(crate::specs::Standard::standard_of))]
pub fn standard(alloc: Global, entry: u32, facts: &Facts) -> Result<Reading, NoMemory>
    ensures { IfOk result (λ r. r ≡ standard_of entry facts.now) }
{
    match property_at(entry) {
        Some(property) => reading_of(alloc, property, facts),
        None => Ok(Reading::Unavailable),
    }
}

fn reading_of(alloc: Global, property: Property, facts: &Facts) -> Result<Reading, NoMemory>
    ensures { IfOk result (λ r. r ≡ reading_of property facts.now) }
{
    if needs_file(property) && !facts.loaded {
        return Ok(Reading::Unavailable);
    }
    value_of(alloc, property, facts)
}

fn value_of(alloc: Global, property: Property, facts: &Facts) -> Result<Reading, NoMemory>
    ensures { IfOk result (λ r. r ≡ value_of property facts.now) }
{
    match property {
        Property::Pause => Ok(flag(facts.pause)),
        Property::Mute => Ok(flag(facts.mute)),
        Property::Path => path(&facts.path),
        Property::Filename => filename(alloc, &facts.path),
        Property::FileFormat => text(alloc, "mkv"),
        Property::IdleActive => Ok(flag(!facts.loaded)),
        Property::Seekable => Ok(flag(has_track(facts.set))),
        Property::TrackList => Ok(Reading::Is(track_list(alloc, &facts.tracks, facts.set)?)),
        Property::Track(kind) => {
            Ok(Reading::Is(selected(alloc, kind, &facts.tracks, facts.set)?))
        }
        Property::TimePos => time(alloc, facts.cache.time),
        Property::DemuxerCacheState => Ok(Reading::Is(cache_map(alloc, &facts.cache)?)),
        Property::EofReached => Ok(flag(facts.cache.ended)),
    }
}

fn flag(flag: bool) -> Reading
    ensures { result ≡ Is (value.Flag flag) }
{
    Reading::Is(Value::Flag(flag))
}

fn text(alloc: Global, text: &str) -> Result<Reading, NoMemory>
    ensures { IfOk result (λ r. r ≡ Is (value.Str text.now)) }
{
    Ok(Reading::Is(Value::Str(Text::new(alloc, text)?)))
}

fn path(path: &Option<Text>) -> Result<Reading, NoMemory>
    ensures { IfOk result (λ r. r ≡ text_reading path.now) }
{
    match path {
        Some(path) => Ok(Reading::Is(Value::Str(path.copy()?))),
        None => Ok(Reading::Unavailable),
    }
}

fn filename(alloc: Global, path: &Option<Text>) -> Result<Reading, NoMemory>
    ensures { IfOk result (λ r. r ≡ text_reading (option_map file_part path.now)) }
{
    match path {
        Some(path) => text(alloc, file_part(path.as_str())),
        None => Ok(Reading::Unavailable),
    }
}

fn file_part(path: &str) -> &str
    ensures { result.now ≡ file_part path.now }
{
    match behind_slash(path) {
        Some(rest) => file_part(rest),
        None => path,
    }
}

fn has_track(set: Choice) -> bool
    ensures { result ≡ has_track set }
{
    set.video.is_some() || set.audio.is_some() || set.sub.is_some()
}

fn time(alloc: Global, time: Option<i64>) -> Result<Reading, NoMemory>
    ensures { IfOk result (λ r. r ≡ time_reading time) }
{
    match time {
        Some(time) => Ok(Reading::Is(time_value(alloc, time)?)),
        None => Ok(Reading::Unavailable),
    }
}
