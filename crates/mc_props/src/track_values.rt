ghost use Rattle.std.specs.Prelude.{◌≡◌, ◌<◌, ◌^◌, ◌+◌, ◌==◌, ◌++◌, ◌∷◌, [], IfOk, IfSome, OnOk, position, slice_get};
ghost use Rattle.std.specs.Option.{option_copied};
ghost use Rattle.mc_value.specs.declared.value.Value.TheVariants as value;
ghost use Rattle.mc_tracks.specs.TrackList.{all_of_kind, is_of};
ghost use Rattle.mc_props.specs.Tracks.{chosen, flags_of, id_of, id_of_chosen, id_value, if_filled, is_it, kind_name, number_value, numbers_of, selected_of, texts_of, track_list, track_map};

use mc_packet::{Choice, Kind, TrackNo};
use mc_tracks::{Track, TrackList};
use mc_value::{NoMemory, Pairs, Text, Value, Values};
use std::alloc::Global;

/// `track-list`: a map for each track.
pub(crate) fn track_list(alloc: Global, tracks: &TrackList, set: Choice) -> Result<Value, NoMemory>
    ensures { IfOk result (λ v. v ≡ track_list tracks.now set) }
{
    let tracks = tracks.as_slice();
    let mut maps = Values::new(alloc);
    for track in tracks {
        maps.push(track_map(alloc, tracks, set, track)?)?;
    }
    Ok(Value::Array(maps))
}

fn track_map(alloc: Global, tracks: &[Track], set: Choice, track: &Track) -> Result<Value, NoMemory>
    ensures { IfOk result (λ v. v ≡ track_map tracks.now set track.now) }
{
    let mut pairs = Pairs::new(alloc);
    put_numbers(alloc, &mut pairs, tracks, track)?;
    put_texts(alloc, &mut pairs, track)?;
    put_flags(alloc, &mut pairs, set, track)?;
    Ok(Value::Map(pairs))
}

fn put_numbers(
    alloc: Global,
    pairs: &mut Pairs,
    tracks: &[Track],
    track: &Track,
) -> Result<(), NoMemory>
    ensures { OnOk result (pairs.new ≡ pairs.old ++ numbers_of tracks.now track.now) }
{
    let id = id_of(tracks, track.kind, track.no).unwrap_or(0);
    put(alloc, pairs, "id", number_value(id))?;
    put_text(alloc, pairs, "type", kind_name(track.kind))?;
    put(alloc, pairs, "src-id", number_value(track.no))
}

fn put_texts(alloc: Global, pairs: &mut Pairs, track: &Track) -> Result<(), NoMemory>
    ensures { OnOk result (pairs.new ≡ pairs.old ++ texts_of track.now) }
{
    put_if_filled(alloc, pairs, "title", track.name.as_str())?;
    put_if_filled(alloc, pairs, "lang", track.language.as_str())?;
    put_text(alloc, pairs, "codec", track.codec.as_str())
}

fn put_flags(alloc: Global, pairs: &mut Pairs, set: Choice, track: &Track) -> Result<(), NoMemory>
    ensures { OnOk result (pairs.new ≡ pairs.old ++ flags_of set track.now) }
{
    put(alloc, pairs, "default", Value::Flag(track.default))?;
    let selected = is_it(chosen(track.kind, set), track.no);
    put(alloc, pairs, "selected", Value::Flag(selected))
}

/// Puts a value under a name, behind the others.
pub(crate) fn put(
    alloc: Global,
    pairs: &mut Pairs,
    name: &str,
    value: Value,
) -> Result<(), NoMemory>
    ensures { OnOk result (pairs.new ≡ pairs.old ++ (name.now, value) ∷ []) }
{
    pairs.push((Text::new(alloc, name)?, value))
}

fn put_text(alloc: Global, pairs: &mut Pairs, name: &str, text: &str) -> Result<(), NoMemory>
    ensures { OnOk result (pairs.new ≡ pairs.old ++ (name.now, value.Str text.now) ∷ []) }
{
    put(alloc, pairs, name, Value::Str(Text::new(alloc, text)?))
}

fn put_if_filled(alloc: Global, pairs: &mut Pairs, name: &str, text: &str) -> Result<(), NoMemory>
    ensures { OnOk result (pairs.new ≡ pairs.old ++ if_filled name.now text.now) }
{
    if text.is_empty() {
        return Ok(());
    }
    put_text(alloc, pairs, name, text)
}

/// `vid`, `aid` or `sid`: the number of the selected track of a kind, or `no`.
pub(crate) fn selected(
    alloc: Global,
    kind: Kind,
    tracks: &TrackList,
    set: Choice,
) -> Result<Value, NoMemory>
    ensures { IfOk result (λ v. v ≡ selected_of kind tracks.now set) }
{
    match id_of_chosen(tracks.as_slice(), kind, chosen(kind, set)) {
        Some(id) => Ok(number_value(id)),
        None => Ok(Value::Str(Text::new(alloc, "no")?)),
    }
}

fn id_of_chosen(tracks: &[Track], kind: Kind, number: Option<TrackNo>) -> Option<u64>
    ensures { result ≡ id_of_chosen tracks.now kind number }
{
    match number {
        Some(number) => id_of(tracks, kind, number),
        None => None,
    }
}

/// A track's number among those of its kind, which are counted from 1.
fn id_of(tracks: &[Track], kind: Kind, number: TrackNo) -> Option<u64>
    ensures { result ≡ id_of tracks.now kind number }
{
    match place_of(tracks, kind, number) {
        Some(place) => Some(place as u64 + 1),
        None => None,
    }
}

fn place_of(tracks: &[Track], kind: Kind, number: TrackNo) -> Option<usize>
    ensures place { result ≡ position (λ t. t.no == number) (all_of_kind kind tracks.now) }
    ensures small { IfSome result (λ k. k + 1 < 2 ^ 64) }
{
    tracks
        .iter()
        .filter(|track| is_of(kind, track.kind))
        .position(|track| track.no == number)
}

/// The track at a place among those of a kind, which is counted from 0.
pub(crate) fn nth_of_kind(tracks: &[Track], kind: Kind, place: usize) -> Option<&Track>
    ensures { option_copied result ≡ slice_get (all_of_kind kind tracks.now) place }
{
    tracks
        .iter()
        .filter(|track| is_of(kind, track.kind))
        .nth(place)
}

/// Whether two kinds are the same.
fn is_of(kind: Kind, other: Kind) -> bool
    ensures { result ≡ is_of kind other }
{
    kind == other
}

fn chosen(kind: Kind, set: Choice) -> Option<TrackNo>
    ensures { result ≡ chosen kind set }
{
    match kind {
        Kind::Video => set.video,
        Kind::Audio => set.audio,
        Kind::Sub => set.sub,
    }
}

fn is_it(chosen: Option<TrackNo>, number: TrackNo) -> bool
    ensures { result ≡ is_it chosen number }
{
    match chosen {
        Some(chosen) => chosen == number,
        None => false,
    }
}

fn kind_name(kind: Kind) -> &'static str
    ensures { result.now ≡ kind_name kind }
{
    match kind {
        Kind::Video => "video",
        Kind::Audio => "audio",
        Kind::Sub => "sub",
    }
}

/// A number as a value, as far as an `i64` holds it.
pub(crate) fn number_value(number: u64) -> Value
    ensures { result ≡ number_value number }
{
    Value::Int(number.min(i64::MAX as u64) as i64)
}
