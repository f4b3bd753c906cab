use mc_packet::{Kind, TrackNo};
use mc_tracks::{
    Refused, Track, TrackList, TracksError, default_choice, parse_ebml_header, parse_info,
    parse_tracks,
};
use rows::{Json, RowError, number_in, octets_in, one, push_flag, text_in, three, two};
use std::alloc::Global;
use std::fmt::Write;

fn push_refusal(refused: Refused, out: &mut String) -> Result<(), RowError> {
    let text = match refused {
        Refused::NotEbml => "NotEbml",
        Refused::Version => "Version",
        Refused::DocType => "DocType",
        Refused::NoSegment => "NoSegment",
        Refused::NoInfo => "NoInfo",
        Refused::NoTracks => "NoTracks",
        Refused::Broken(at) => return Ok(write!(out, "Broken {at}")?),
        Refused::NoNumber => "NoNumber",
        Refused::TwiceNumber => "TwiceNumber",
        Refused::ScaleZero => "ScaleZero",
        Refused::TooMany => "TooMany",
    };
    Ok(out.push_str(text)?)
}

fn push_error(error: TracksError, out: &mut String) -> Result<(), RowError> {
    match error {
        TracksError::Refused(refused) => push_refusal(refused, out),
        TracksError::NoMemory => Err(RowError::NoMemory),
    }
}

/// The offset behind an EBML header.
pub fn call_ebml_header(
    alloc: Global,
    arguments: &[Json<'_>],
    out: &mut String,
) -> Result<(), RowError> {
    let octets = octets_in(alloc, one(arguments)?)?;
    match parse_ebml_header(octets.as_slice()) {
        Ok(behind) => Ok(write!(out, "{behind}")?),
        Err(refused) => push_refusal(refused, out),
    }
}

/// The scale of an Info whose body begins at offset 27.
pub fn call_info(alloc: Global, arguments: &[Json<'_>], out: &mut String) -> Result<(), RowError> {
    let octets = octets_in(alloc, one(arguments)?)?;
    match parse_info(octets.as_slice(), 27) {
        Ok(scale) => Ok(write!(out, "{scale}")?),
        Err(error) => push_error(error, out),
    }
}

/// The tracks of a Tracks whose body begins at offset 39, and the first choice among them.
pub fn call_tracks(
    alloc: Global,
    arguments: &[Json<'_>],
    out: &mut String,
) -> Result<(), RowError> {
    let octets = octets_in(alloc, one(arguments)?)?;
    match parse_tracks(alloc, octets.as_slice(), 39) {
        Ok(list) => push_list(&list.copy()?, out),
        Err(error) => push_error(error, out),
    }
}

fn push_list(list: &TrackList, out: &mut String) -> Result<(), RowError> {
    write!(out, "{}:", list.len())?;
    for track in list.as_slice() {
        out.push(' ')?;
        push_track(track, out)?;
        out.push(',')?;
    }
    let choice = default_choice(list);
    out.push_str(" plays")?;
    push_chosen(choice.video, out)?;
    push_chosen(choice.audio, out)?;
    push_chosen(choice.sub, out)
}

fn push_chosen(track: Option<TrackNo>, out: &mut String) -> Result<(), RowError> {
    match track {
        Some(track) => Ok(write!(out, " {track}")?),
        None => Ok(out.push_str(" none")?),
    }
}

fn push_track(track: &Track, out: &mut String) -> Result<(), RowError> {
    let (codec, language) = (track.codec.as_str(), track.language.as_str());
    write!(out, "{} {} ", track.no, kind_name(track.kind))?;
    Ok(write!(out, "{codec} {language}")?)
}

// A kind of track by its name.
fn kind_in(argument: &Json<'_>) -> Result<Kind, RowError> {
    match text_in(argument)? {
        "video" => Ok(Kind::Video),
        "audio" => Ok(Kind::Audio),
        "sub" => Ok(Kind::Sub),
        _ => Err(RowError::BadRow),
    }
}

// The name of a kind of track.
fn kind_name(kind: Kind) -> &'static str {
    match kind {
        Kind::Video => "video",
        Kind::Audio => "audio",
        Kind::Sub => "sub",
    }
}

// The list of a row's Tracks, which is one that is read.
fn list_in(alloc: Global, argument: &Json<'_>) -> Result<TrackList, RowError> {
    let octets = octets_in(alloc, argument)?;
    match parse_tracks(alloc, octets.as_slice(), 39) {
        Ok(list) => Ok(list),
        Err(TracksError::NoMemory) => Err(RowError::NoMemory),
        Err(TracksError::Refused(_)) => Err(RowError::BadRow),
    }
}

/// Whether a number is listed, and whether it is known.
pub fn call_known(alloc: Global, arguments: &[Json<'_>], out: &mut String) -> Result<(), RowError> {
    let (list, number) = two(arguments)?;
    let (list, number) = (list_in(alloc, list)?, u64::try_from(number_in(number)?)?);
    push_flag(out, list.get(number).is_some())?;
    out.push(' ')?;
    Ok(push_flag(out, list.is_known(number))?)
}

/// The number of the track of this place in its kind.
pub fn call_of_kind(
    alloc: Global,
    arguments: &[Json<'_>],
    out: &mut String,
) -> Result<(), RowError> {
    let (list, kind, id) = three(arguments)?;
    let list = list_in(alloc, list)?;
    let id = u32::try_from(number_in(id)?)?;
    match list.of_kind(kind_in(kind)?, id) {
        Some(track) => Ok(write!(out, "{}", track.no)?),
        None => Ok(out.push_str("none")?),
    }
}
