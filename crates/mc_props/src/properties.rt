ghost use Rattle.std.specs.Prelude.{◌≡◌, IfOk, slice_get};
ghost use Rattle.mc_props.specs.Entries.{AreEntries};
ghost use Rattle.mc_props.specs.Standard.{entry_of, may_be_set, needs_file, properties, property_mask, property_name, standard_of, standard_table, track_property};

use crate::entries::{PropEntries, PropEntry};
use crate::fields::{CACHE, FILE, MUTE, PAUSE, SELECTION};
use mc_packet::Kind;
use mc_value::{NoMemory, Text};
use std::alloc::Global;

/// The properties of a player, as mpv's manual names them.
#[derive(Clone, Copy, Debug, PartialEq, Eq)]
pub enum Property {
    /// `pause`: whether the player is paused.
    Pause,
    /// `mute`: whether its sound is off.
    Mute,
    /// `path`: the file, as it was named.
    Path,
    /// `filename`: the part of the path behind its last slash.
    Filename,
    /// `file-format`: always `mkv`.
    FileFormat,
    /// `idle-active`: whether no file is loaded.
    IdleActive,
    /// `seekable`: whether a track is selected.
    Seekable,
    /// `track-list`: a map for each track.
    TrackList,
    /// `vid`, `aid`, `sid`: the number of the selected track among those of its kind, or `no`.
    Track(Kind),
    /// `time-pos`: the reader's time in seconds.
    TimePos,
    /// `demuxer-cache-state`: what the cache tells of itself.
    DemuxerCacheState,
    /// `eof-reached`: whether each selected track was read to its end.
    EofReached,
}

/// The entries of the properties of a player, in the order of their places.
pub fn standard_entries(alloc: Global) -> Result<PropEntries, NoMemory>
    ensures value { IfOk result (λ entries. entries ≡ standard_table) }
    ensures fit { IfOk result (λ entries. AreEntries standard_of entries) }
{
    let mut entries = PropEntries::new(alloc);
    for property in properties() {
        entries.push(entry_of(alloc, property)?)?;
    }
    Ok(entries)
}

/// The property at a place of `standard_entries`.
pub(crate) fn property_at(place: u32) -> Option<Property>
    ensures { result ≡ slice_get properties place }
{
    properties().get(place as usize).copied()
}

fn properties() -> [Property; 14]
    ensures { result ≡ properties }
{
    [
        Property::Pause,
        Property::Mute,
        Property::Path,
        Property::Filename,
        Property::FileFormat,
        Property::IdleActive,
        Property::Seekable,
        Property::TrackList,
        Property::Track(Kind::Video),
        Property::Track(Kind::Audio),
        Property::Track(Kind::Sub),
        Property::TimePos,
        Property::DemuxerCacheState,
        Property::EofReached,
    ]
}

fn entry_of(alloc: Global, property: Property) -> Result<PropEntry, NoMemory>
    ensures { IfOk result (λ entry. entry ≡ entry_of property) }
{
    Ok(PropEntry {
        name: Text::new(alloc, name_of(property))?,
        mask: mask_of(property),
        writable: may_be_set(property),
    })
}

fn name_of(property: Property) -> &'static str
    ensures { result.now ≡ property_name property }
{
    match property {
        Property::Pause => "pause",
        Property::Mute => "mute",
        Property::Path => "path",
        Property::Filename => "filename",
        Property::FileFormat => "file-format",
        Property::IdleActive => "idle-active",
        Property::Seekable => "seekable",
        Property::TrackList => "track-list",
        Property::Track(kind) => track_name(kind),
        Property::TimePos => "time-pos",
        Property::DemuxerCacheState => "demuxer-cache-state",
        Property::EofReached => "eof-reached",
    }
}

fn track_name(kind: Kind) -> &'static str
    ensures { result.now ≡ track_property kind }
{
    match kind {
        Kind::Video => "vid",
        Kind::Audio => "aid",
        Kind::Sub => "sid",
    }
}

fn mask_of(property: Property) -> u32
    ensures { result ≡ property_mask property }
{
    match property {
        Property::Pause => PAUSE,
        Property::Mute => MUTE,
        Property::Path | Property::Filename | Property::FileFormat | Property::IdleActive => FILE,
        Property::Seekable | Property::TrackList | Property::Track(_) => FILE | SELECTION,
        Property::TimePos | Property::DemuxerCacheState | Property::EofReached => FILE | CACHE,
    }
}

fn may_be_set(property: Property) -> bool
    ensures { result ≡ may_be_set property }
{
    matches!(
        property,
        Property::Pause | Property::Mute | Property::Track(_)
    )
}

/// Whether a property has no value until a file is loaded.
pub(crate) fn needs_file(property: Property) -> bool
    ensures { result ≡ needs_file property }
{
    !matches!(
        property,
        Property::Pause | Property::Mute | Property::IdleActive
    )
}
