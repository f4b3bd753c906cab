use crate::answers::{push_error, push_film, push_octets, read_back};
use crate::held::Held;
use mc_dump::{DumpError, is_dumpable, write_film};
use mc_outside::{CleanSink, MemSink, Numbers, Sink};
use mc_packet::Packet;
use rows::{Json, RowError, items_in, one, two};
use rows_packets::block_in;
use std::alloc::Global;
use std::fmt::Write;

// Writes what is held into a sink; a bad row where it cannot be a film.
fn write_into<K: Sink>(
    alloc: Global,
    held: &Held,
    scale: u64,
    out: &mut K,
) -> Result<Result<(), DumpError>, RowError> {
    if scale == 0 || !is_dumpable(&held.tracks, held.packets.as_slice()) {
        return Err(RowError::BadRow);
    }
    Ok(write_film(alloc, out, scale, &held.tracks, held.packets.as_slice()))
}

/// `["write",SCALE]`: the size of the film of what is held, and the film that it is read back as.
pub fn call_write(
    alloc: Global,
    held: &Held,
    arguments: &[Json<'_>],
    out: &mut String,
) -> Result<(), RowError> {
    let scale = block_in(one(arguments)?)?;
    let mut sink = CleanSink::new(alloc);
    match write_into(alloc, held, scale, &mut sink)? {
        Ok(()) => {
            write!(out, "{} octets, ", sink.text().len())?;
            push_film(&read_back(alloc, sink.text())?, out)
        }
        Err(error) => push_error(error, out),
    }
}

/// `["octets",SCALE]`: the octets of that film.
pub fn call_octets(
    alloc: Global,
    held: &Held,
    arguments: &[Json<'_>],
    out: &mut String,
) -> Result<(), RowError> {
    let scale = block_in(one(arguments)?)?;
    let mut sink = CleanSink::new(alloc);
    match write_into(alloc, held, scale, &mut sink)? {
        Ok(()) => push_octets(sink.text(), out),
        Err(error) => push_error(error, out),
    }
}

// Whether a packet stands behind others without a gap, as it does in one Cluster: its SimpleBlock
// has a head of two octets, and four before its payload.
fn follows(packet: &Packet, last: &Packet) -> bool {
    packet.pos.block.saturating_sub(last.pos.block) == last.body.len() as u64 + 6
}

// At which packets, counted from 0, a Cluster begins.
fn push_clusters(packets: &[Packet], out: &mut String) -> Result<(), RowError> {
    for (number, pair) in packets.windows(2).enumerate() {
        if let [last, packet] = pair {
            if !follows(packet, last) {
                write!(out, " {}", number.saturating_add(1))?;
            }
        }
    }
    Ok(())
}

/// `["clusters",SCALE]`: the size of that film, its number of tracks and packets, and the packets,
/// counted from 0, at which its Clusters begin but the first. Payloads have at most 122 octets.
pub fn call_clusters(
    alloc: Global,
    held: &Held,
    arguments: &[Json<'_>],
    out: &mut String,
) -> Result<(), RowError> {
    let scale = block_in(one(arguments)?)?;
    let mut sink = CleanSink::new(alloc);
    match write_into(alloc, held, scale, &mut sink)? {
        Ok(()) => {
            let film = read_back(alloc, sink.text())?;
            write!(
                out,
                "{} octets, {} tracks",
                sink.text().len(),
                film.tracks.len()
            )?;
            write!(out, ", {} packets, cut at", film.packets.len())?;
            push_clusters(film.packets.as_slice(), out)
        }
        Err(error) => push_error(error, out),
    }
}

/// `["fails",SCALE,[CALL,..]]`: writes that film into a sink whose write calls of these numbers,
/// from 0, fail; answers the error, how many octets were written, and whether they are the film's
/// first.
pub fn call_fails(
    alloc: Global,
    held: &Held,
    arguments: &[Json<'_>],
    out: &mut String,
) -> Result<(), RowError> {
    let (scale, calls) = two(arguments)?;
    let scale = block_in(scale)?;
    let mut bad = Numbers::new(alloc);
    for call in items_in(calls)? {
        bad.push(block_in(call)?)?;
    }
    let mut sink = MemSink::new(alloc, bad);
    match write_into(alloc, held, scale, &mut sink)? {
        Ok(()) => out.push_str("Ok")?,
        Err(error) => push_error(error, out)?,
    }
    let mut whole = CleanSink::new(alloc);
    if let Err(DumpError::NoMemory) = write_into(alloc, held, scale, &mut whole)? {
        return Err(RowError::NoMemory);
    }
    let is_front = whole.text().starts_with(sink.text());
    Ok(write!(
        out,
        " behind {} octets, front {is_front}",
        sink.text().len()
    )?)
}
