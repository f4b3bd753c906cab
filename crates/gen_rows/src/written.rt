use mc_film::{FilmError, WholeFilm, film};
use mc_gen::{Sums, summary_line, write_generated};
use mc_outside::{CleanSink, MemSink, Numbers, Sink, SinkError};
use mc_packet::Packet;
use rows::{Json, RowError, items_in, one, three, two};
use rows_packets::{block_in, push_ending, push_place};
use std::alloc::Global;
use std::fmt::Write;

// A number of pictures.
pub(crate) fn pictures_in(argument: &Json<'_>) -> Result<u32, RowError> {
    u32::try_from(block_in(argument)?).map_err(|_| RowError::BadRow)
}

// The film of so many pictures.
pub(crate) fn written(alloc: Global, n: u32) -> Result<CleanSink, RowError> {
    let mut sink = CleanSink::new(alloc);
    match write_generated(alloc, n, &mut sink) {
        Ok(()) => Ok(sink),
        Err(_) => Err(RowError::NoMemory),
    }
}

// The film as the reader of whole films finds it; a bad row where it is refused.
fn read_back(alloc: Global, octets: &[u8]) -> Result<WholeFilm, RowError> {
    match film(alloc, octets) {
        Ok(film) => Ok(film),
        Err(FilmError::Refused(_)) => Err(RowError::BadRow),
        Err(FilmError::NoMemory) => Err(RowError::NoMemory),
    }
}

fn push_octets(octets: &[u8], out: &mut String) -> Result<(), RowError> {
    for octet in octets {
        write!(out, "{:02X}", *octet)?;
    }
    Ok(())
}

/// `["octets",N]`: the octets of the film of N pictures.
pub fn call_octets(
    alloc: Global,
    arguments: &[Json<'_>],
    out: &mut String,
) -> Result<(), RowError> {
    let n = pictures_in(one(arguments)?)?;
    push_octets(written(alloc, n)?.text(), out)
}

// A packet's track, place and time, its marks, and its payload.
fn push_packet(packet: &Packet, out: &mut String) -> Result<(), RowError> {
    write!(out, "\n{} at ", packet.track)?;
    push_place(Some(packet.pos), out)?;
    write!(out, " time {}", packet.time)?;
    if packet.key {
        out.push_str(" key")?;
    }
    out.push(' ')?;
    push_octets(packet.octets(), out)
}

/// `["packets",N,FROM,COUNT]`: so many of its packets, from one on, counted from 0; a line each.
pub fn call_packets(
    alloc: Global,
    arguments: &[Json<'_>],
    out: &mut String,
) -> Result<(), RowError> {
    let (n, from, count) = three(arguments)?;
    let film = read_back(alloc, written(alloc, pictures_in(n)?)?.text())?;
    let (from, count) = (block_in(from)? as usize, block_in(count)? as usize);
    write!(out, "{} packets", film.packets.len())?;
    for packet in film.packets.as_slice().iter().skip(from).take(count) {
        push_packet(packet, out)?;
    }
    Ok(())
}

// What is counted in a film.
fn sums(film: &WholeFilm) -> Sums {
    let mut sums = Sums {
        packets: film.packets.len() as u64,
        octets: 0,
        last: 0,
    };
    for packet in film.packets.as_slice() {
        sums.octets = sums.octets.saturating_add(packet.octets().len() as u64);
        sums.last = sums.last.max(packet.time);
    }
    sums
}

/// `["summary",N]`: the size of the film of N pictures, its tracks, how it ends, and the line of what
/// is counted in it.
pub fn call_summary(
    alloc: Global,
    arguments: &[Json<'_>],
    out: &mut String,
) -> Result<(), RowError> {
    let n = pictures_in(one(arguments)?)?;
    let sink = written(alloc, n)?;
    let film = read_back(alloc, sink.text())?;
    write!(out, "{} octets, scale {}", sink.text().len(), film.scale)?;
    for track in film.tracks.as_slice() {
        let (no, codec) = (track.no, track.codec.as_str());
        write!(out, ", track {no} {:?} {codec}", track.kind)?;
    }
    out.push_str(", ")?;
    push_ending(Some(film.ending), out)?;
    out.push('\n')?;
    let line = summary_line(alloc, n, sums(&film), 0)?;
    Ok(out.push_str(line.as_str().trim_end())?)
}

// Writes the film into a sink; how that ended.
fn push_written<K: Sink>(
    alloc: Global,
    n: u32,
    sink: &mut K,
    out: &mut String,
) -> Result<(), RowError> {
    match write_generated(alloc, n, sink) {
        Ok(()) => Ok(out.push_str("Ok")?),
        Err(SinkError::Failed) => Ok(out.push_str("Failed")?),
        Err(SinkError::NoMemory) => Err(RowError::NoMemory),
    }
}

/// `["fails",N,[CALL,..]]`: writes that film into a sink whose write calls of these numbers, from 0,
/// fail; answers the error, how many octets were written, and whether they are the film's first.
pub fn call_fails(alloc: Global, arguments: &[Json<'_>], out: &mut String) -> Result<(), RowError> {
    let (n, calls) = two(arguments)?;
    let n = pictures_in(n)?;
    let mut bad = Numbers::new(alloc);
    for call in items_in(calls)? {
        bad.push(block_in(call)?)?;
    }
    let mut sink = MemSink::new(alloc, bad);
    push_written(alloc, n, &mut sink, out)?;
    let is_front = written(alloc, n)?.text().starts_with(sink.text());
    let len = sink.text().len();
    Ok(write!(out, " behind {len} octets, front {is_front}")?)
}
