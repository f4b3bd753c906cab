use crate::answers::push_places;
use bytes::Bytes;
use mc_dump::choose;
use mc_film::{FilmError, film};
use mc_packet::{Kind, Packet, Packets, TrackNo};
use mc_tracks::{Track, TrackList};
use mc_value::Text;
use rows::{Json, RowError, flag_in, none, number_in, octets_in, one, text_in};
use rows_films::Films;
use rows_packets::{at, block_in, kind_in, nanos_in, track_in};
use std::alloc::Global;
use std::fmt::Write;

/// The tracks and the packets of the film that is written next.
#[derive(Drop)]
pub struct Held {
    /// Its tracks, in the order of their rows.
    pub tracks: TrackList,
    /// Its packets, in the order of their rows.
    pub packets: Packets,
}

impl Held {
    /// No track and no packet.
    pub fn new(alloc: Global) -> Held {
        Held {
            tracks: TrackList::new(alloc),
            packets: Packets::new(alloc),
        }
    }
}

// Lists a track more, where its number isn't listed.
fn list(tracks: &mut TrackList, track: Track) -> Result<(), RowError> {
    if tracks.get(track.no).is_some() {
        return Err(RowError::BadRow);
    }
    Ok(tracks.push(track)?)
}

fn push_held(held: &Held, out: &mut String) -> Result<(), RowError> {
    let (tracks, packets) = (held.tracks.len(), held.packets.len());
    Ok(write!(out, "{tracks} tracks, {packets} packets")?)
}

fn lead_in(argument: &Json<'_>) -> Result<Option<TrackNo>, RowError> {
    match argument {
        Json::Null => Ok(None),
        _ => Ok(Some(track_in(argument)?)),
    }
}

/// `["choose",FILM,LEAD,FROM,TO]`: holds the tracks of a film, and the packets that are chosen of
/// its own; answers how many these are, and their places.
pub fn call_choose(
    alloc: Global,
    films: &Films,
    held: &mut Held,
    arguments: &[Json<'_>],
    out: &mut String,
) -> Result<(), RowError> {
    let [name, lead, from, to] = arguments else {
        return Err(RowError::BadRow);
    };
    let (lead, from, to) = (lead_in(lead)?, nanos_in(from)?, nanos_in(to)?);
    let whole = match film(alloc, films.octets(name)?) {
        Ok(whole) => whole,
        Err(FilmError::Refused(_)) => return Err(RowError::BadRow),
        Err(FilmError::NoMemory) => return Err(RowError::NoMemory),
    };
    let packets = choose(alloc, whole.packets.as_slice(), lead, from, to)?;
    push_places(packets.as_slice(), out)?;
    held.tracks = whole.tracks;
    held.packets = packets;
    Ok(())
}

/// `["clear"]`: holds nothing.
pub fn call_clear(
    alloc: Global,
    held: &mut Held,
    arguments: &[Json<'_>],
    out: &mut String,
) -> Result<(), RowError> {
    none(arguments)?;
    *held = Held::new(alloc);
    push_held(held, out)
}

/// `["track",NUMBER,UID,KIND,CODEC,NAME,LANGUAGE,DEFAULT,DURATION]`: one track more; the duration is
/// in nanoseconds, or `null`.
pub fn call_track(
    alloc: Global,
    held: &mut Held,
    arguments: &[Json<'_>],
    out: &mut String,
) -> Result<(), RowError> {
    let [no, uid, kind, codec, name, language, default, duration] = arguments else {
        return Err(RowError::BadRow);
    };
    let duration = match duration {
        Json::Null => None,
        _ => Some(block_in(duration)?),
    };
    let track = Track {
        no: track_in(no)?,
        uid: block_in(uid)?,
        kind: kind_in(kind)?,
        codec: Text::new(alloc, text_in(codec)?)?,
        name: Text::new(alloc, text_in(name)?)?,
        language: Text::new(alloc, text_in(language)?)?,
        default: flag_in(default)?,
        duration,
        encoded: false,
    };
    list(&mut held.tracks, track)?;
    push_held(held, out)
}

fn subtitle(alloc: Global, no: TrackNo, name: &str) -> Result<Track, RowError> {
    Ok(Track {
        no,
        uid: no,
        kind: Kind::Sub,
        codec: Text::new(alloc, "S_TEXT/UTF8")?,
        name: Text::new(alloc, name)?,
        language: Text::new(alloc, "eng")?,
        default: false,
        duration: None,
        encoded: false,
    })
}

/// `["tracks",COUNT,NAME]`: holds subtitles with the numbers from 1 on, all of that name, in place of
/// its tracks.
pub fn call_tracks(
    alloc: Global,
    held: &mut Held,
    arguments: &[Json<'_>],
    out: &mut String,
) -> Result<(), RowError> {
    let [count, name] = arguments else {
        return Err(RowError::BadRow);
    };
    let count = u8::try_from(number_in(count)?)?;
    let mut tracks = TrackList::new(alloc);
    for no in 0..count {
        list(&mut tracks, subtitle(alloc, no as u64 + 1, text_in(name)?)?)?;
    }
    held.tracks = tracks;
    push_held(held, out)
}

/// `["packet",TRACK,TIME,KEY,HEX]`: one packet more, whose place is its number from 0 on.
pub fn call_packet(
    alloc: Global,
    held: &mut Held,
    arguments: &[Json<'_>],
    out: &mut String,
) -> Result<(), RowError> {
    let [track, time, key, body] = arguments else {
        return Err(RowError::BadRow);
    };
    let (track, time, key) = (track_in(track)?, number_in(time)?, flag_in(key)?);
    let body = octets_in(alloc, body)?;
    let packet = Packet {
        track,
        pos: at(held.packets.len() as u64),
        time,
        sync: key,
        key,
        body: Bytes::copy_from_slice(alloc, body.as_slice())?,
    };
    held.packets.push(packet)?;
    push_held(held, out)
}

/// `["packets",COUNT,TRACK,STEP]`: holds packets of one octet, each so many nanoseconds behind the
/// last, in place of its packets.
pub fn call_packets(
    alloc: Global,
    held: &mut Held,
    arguments: &[Json<'_>],
    out: &mut String,
) -> Result<(), RowError> {
    let [count, track, step] = arguments else {
        return Err(RowError::BadRow);
    };
    let count = u16::try_from(number_in(count)?)?;
    let (track, step) = (track_in(track)?, u32::try_from(number_in(step)?)?);
    let mut packets = Packets::new(alloc);
    for number in 0..count {
        packets.push(Packet {
            track,
            pos: at(number as u64),
            time: number as i64 * step as i64,
            sync: true,
            key: true,
            body: Bytes::copy_from_slice(alloc, &[(number % 256) as u8])?,
        })?;
    }
    held.packets = packets;
    push_held(held, out)
}
