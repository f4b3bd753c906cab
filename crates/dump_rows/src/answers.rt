use mc_dump::DumpError;
use mc_film::{FilmError, WholeFilm, film};
use mc_packet::Packet;
use mc_tracks::Track;
use rows::RowError;
use rows_packets::push_place;
use std::alloc::Global;
use std::fmt::Write;

/// Appends how many packets there are, and where they stand.
pub fn push_places(packets: &[Packet], out: &mut String) -> Result<(), RowError> {
    write!(out, "{}:", packets.len())?;
    for packet in packets {
        out.push(' ')?;
        push_place(Some(packet.pos), out)?;
    }
    Ok(())
}

/// Appends why a film is not written, or not whole.
pub fn push_error(error: DumpError, out: &mut String) -> Result<(), RowError> {
    match error {
        DumpError::Empty => Ok(out.push_str("Empty")?),
        DumpError::TooLow { pos } => {
            out.push_str("TooLow at ")?;
            Ok(push_place(Some(pos), out)?)
        }
        DumpError::Sink => Ok(out.push_str("Sink")?),
        DumpError::NoMemory => Err(RowError::NoMemory),
    }
}

/// The film that octets are; a bad row where they are refused.
pub fn read_back(alloc: Global, octets: &[u8]) -> Result<WholeFilm, RowError> {
    match film(alloc, octets) {
        Ok(film) => Ok(film),
        Err(FilmError::Refused(_)) => Err(RowError::BadRow),
        Err(FilmError::NoMemory) => Err(RowError::NoMemory),
    }
}

// A track's number, UID, kind, texts, its mark as default and its frames' duration.
fn push_track(track: &Track, out: &mut String) -> Result<(), RowError> {
    write!(out, "\ntrack {} {} {:?}", track.no, track.uid, track.kind)?;
    write!(out, " {} ", track.codec.as_str())?;
    write!(out, "{:?} ", track.name.as_str())?;
    write!(out, "{} {}", track.language.as_str(), track.default)?;
    match track.duration {
        Some(duration) => Ok(write!(out, " {duration}")?),
        None => Ok(()),
    }
}

// A packet's track, place and time, its key mark, and its payload.
fn push_packet(packet: &Packet, out: &mut String) -> Result<(), RowError> {
    write!(out, "\n{} at ", packet.track)?;
    push_place(Some(packet.pos), out)?;
    write!(out, " time {}", packet.time)?;
    if packet.key {
        out.push_str(" key")?;
    }
    out.push(' ')?;
    push_octets(packet.octets(), out)
}

/// Appends a film: its scale, its ending, its tracks and its packets, a line each.
pub fn push_film(film: &WholeFilm, out: &mut String) -> Result<(), RowError> {
    write!(out, "scale {} {:?}", film.scale, film.ending)?;
    for track in film.tracks.as_slice() {
        push_track(track, out)?;
    }
    for packet in film.packets.as_slice() {
        push_packet(packet, out)?;
    }
    Ok(())
}

/// Appends octets as hex digits, or `empty`.
pub fn push_octets(octets: &[u8], out: &mut String) -> Result<(), RowError> {
    if octets.is_empty() {
        return Ok(out.push_str("empty")?);
    }
    for octet in octets {
        write!(out, "{:02X}", *octet)?;
    }
    Ok(())
}
