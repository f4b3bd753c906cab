ghost use Rattle.std.specs.Prelude.{◌≡◌, ◌++◌, ◌-◌, ◌<◌, ◌≤◌, ◌^◌, length, All, IsTrue, OnOk, IfOk, IfSome};
ghost use Rattle.mc_ebml.specs.Written.{is_id};
ghost use Rattle.mc_written.specs.Elements.{element_text, elements};
ghost use Rattle.mc_tracks.specs.TrackList.{HasNumbers};
ghost use Rattle.mc_written.specs.Fronts.{name_element, duration_element, type_of, flag, number_elements, text_elements, track_elements, entry, tracks_body, info, opening_text, front_with, front_text, HasShortTexts, IsShortText};

use mc_ebml::{Size, ids, write_element, write_head, write_text, write_uint};
use mc_packet::{Kind, NoMemory};
use mc_tracks::Track;
use std::alloc::Global;

// Appends an element whose body is a plain text.
#[tactic(auto, using(crate::proofs::Fronts::texts))]
fn write_plain(out: &mut Vec<u8>, id: u32, text: &str) -> Result<(), NoMemory>
    requires id { IsTrue (is_id id) }
    requires text { IsShortText text.now }
    ensures ok { OnOk result (out.new.items ≡ out.old.items ++ element_text (id, text.now)) }
{
    write_text(out, id, text)
}

// Appends a Name, unless it is empty.
fn write_name(out: &mut Vec<u8>, name: &str) -> Result<(), NoMemory>
    requires { IsShortText name.now }
    ensures ok { OnOk result
        (out.new.items ≡ out.old.items ++ elements (name_element name.now)) }
{
    if name.is_empty() {
        return Ok(());
    }
    write_plain(out, ids::NAME, name)
}

// Appends a DefaultDuration, where there is one.
fn write_duration(out: &mut Vec<u8>, duration: Option<u64>) -> Result<(), NoMemory>
    ensures ok { OnOk result
        (out.new.items ≡ out.old.items ++ elements (duration_element duration)) }
    ensures fits { IfSome duration (λ n. n < 2 ^ 64) }
{
    match duration {
        Some(n) => write_uint(out, ids::DEFAULT_DURATION, n),
        None => Ok(()),
    }
}

// The TrackType of a kind.
fn type_of(kind: Kind) -> u64
    ensures { result ≡ type_of kind }
{
    match kind {
        Kind::Video => 1,
        Kind::Audio => 2,
        Kind::Sub => 17,
    }
}

// The value of a flag.
fn flag(set: bool) -> u64
    ensures { result ≡ flag set }
{
    if set { 1 } else { 0 }
}

// Appends what a TrackEntry says in numbers, but for the duration.
fn write_numbers(out: &mut Vec<u8>, track: &Track) -> Result<(), NoMemory>
    ensures ok { OnOk result
        (out.new.items ≡ out.old.items ++ elements (number_elements track.now)) }
    ensures fit { OnOk result ((track.now.no < 2 ^ 64) × (track.now.uid < 2 ^ 64)) }
{
    write_uint(out, ids::TRACK_NUMBER, track.no)?;
    write_uint(out, ids::TRACK_UID, track.uid)?;
    write_uint(out, ids::TRACK_TYPE, type_of(track.kind))?;
    write_uint(out, ids::FLAG_DEFAULT, flag(track.default))
}

// Appends what it says behind these.
fn write_texts(out: &mut Vec<u8>, track: &Track) -> Result<(), NoMemory>
    requires { HasShortTexts track.now }
    ensures ok { OnOk result
        (out.new.items ≡ out.old.items ++ elements (text_elements track.now)) }
    ensures fits { OnOk result (IfSome track.now.duration (λ n. n < 2 ^ 64)) }
{
    write_plain(out, ids::LANGUAGE, track.language.as_str())?;
    write_plain(out, ids::CODEC_ID, track.codec.as_str())?;
    write_name(out, track.name.as_str())?;
    write_duration(out, track.duration)
}

// The body of a TrackEntry.
fn entry_body(alloc: Global, track: &Track) -> Result<Vec<u8>, NoMemory>
    requires { HasShortTexts track.now }
    ensures text { IfOk result (λ v. v.items ≡ elements (track_elements track.now)) }
    ensures numbers { OnOk result (HasNumbers track.now) }
{
    let mut body = Vec::new(alloc);
    write_numbers(&mut body, track)?;
    write_texts(&mut body, track)?;
    Ok(body)
}

// Appends a TrackEntry.
fn write_entry(alloc: Global, out: &mut Vec<u8>, track: &Track) -> Result<(), NoMemory>
    requires { HasShortTexts track.now }
    ensures ok { OnOk result (out.new.items ≡ out.old.items ++ element_text (entry track.now)) }
    ensures numbers { OnOk result (HasNumbers track.now) }
{
    let body = entry_body(alloc, track)?;
    write_element(out, ids::TRACK_ENTRY, body.as_slice())
}

// The body of Tracks.
fn tracks_body(alloc: Global, tracks: &[Track]) -> Result<Vec<u8>, NoMemory>
    requires { All HasShortTexts tracks.now }
    ensures text { IfOk result (λ v. v.items ≡ tracks_body tracks.now) }
    ensures numbers { OnOk result (All HasNumbers tracks.now) }
{
    let mut body = Vec::new(alloc);
    for track in tracks {
        write_entry(alloc, &mut body, track)?;
    }
    Ok(body)
}

// Appends the EBML header and the head of the Segment.
fn write_opening(alloc: Global, out: &mut Vec<u8>) -> Result<(), NoMemory>
    ensures ok { OnOk result (out.new.items ≡ out.old.items ++ opening_text) }
{
    let mut body = Vec::new(alloc);
    write_text(&mut body, ids::DOC_TYPE, "matroska")?;
    write_element(out, ids::EBML_HEADER, body.as_slice())?;
    write_head(out, ids::SEGMENT, Size::Unknown)
}

// Appends Info.
fn write_info(alloc: Global, out: &mut Vec<u8>, scale: u64) -> Result<(), NoMemory>
    ensures ok { OnOk result (out.new.items ≡ out.old.items ++ element_text (info scale)) }
{
    let mut body = Vec::new(alloc);
    write_uint(&mut body, ids::TIMESTAMP_SCALE, scale)?;
    write_element(out, ids::INFO, body.as_slice())
}

/// Appends what stands before the Clusters of a film: the EBML header, which says no more than
/// `matroska` (RFC 8794, section 11.2), the head of a Segment of unknown size, Info with the
/// TimestampScale in nanoseconds, and Tracks with this body (RFC 9559, section 5.1).
///
/// At `NoMemory` what was appended is left open.
pub fn write_front_with(
    alloc: Global,
    out: &mut Vec<u8>,
    scale: u64,
    body: &[u8],
) -> Result<(), NoMemory>
    requires { length body.now < 2 ^ 56 - 1 }
    ensures ok { OnOk result (out.new.items ≡ out.old.items ++ front_with scale body.now) }
{
    write_opening(alloc, out)?;
    write_info(alloc, out, scale)?;
    write_element(out, ids::TRACKS, body)
}

/// Appends what stands before the Clusters of a film of these tracks: as `write_front_with`, with a
/// TrackEntry for each track in order. That has its TrackNumber, TrackUID, TrackType, FlagDefault,
/// Language and CodecID, its Name where it is not empty, and its DefaultDuration where it has one
/// (RFC 9559, section 5.1.4.1).
///
/// At `NoMemory` what was appended is left open.
pub fn write_front(
    alloc: Global,
    out: &mut Vec<u8>,
    scale: u64,
    tracks: &[Track],
) -> Result<(), NoMemory>
    requires few { length tracks.now ≤ 64 }
    requires texts { All HasShortTexts tracks.now }
    ensures ok { OnOk result (out.new.items ≡ out.old.items ++ front_text scale tracks.now) }
    ensures numbers { OnOk result (All HasNumbers tracks.now) }
{
    let body = tracks_body(alloc, tracks)?;
    write_front_with(alloc, out, scale, body.as_slice())
}
