use crate::made::{Film, VIDEO};
use mc_dump::{DumpError, choose, is_dumpable, write_film};
use mc_outside::Sink;
use mc_packet::{NoMemory, Packet};
use mc_tracks::TrackList;
use std::alloc::Global;
use std::io;

/// The nanoseconds of a unit of time in the film: a millisecond.
const SCALE: u64 = 1_000_000;

/// Chooses the film's second half, and says how many packets that are.
pub fn choose_half(alloc: Global, film: &Film) -> Result<usize, NoMemory> {
    let packets = film.packets.as_slice();
    let from = packets.get(packets.len() / 2).map(|packet| packet.time);
    Ok(choose(alloc, packets, Some(VIDEO), from, None)?.len())
}

/// Writes the film.
pub fn write<K: Sink>(alloc: Global, out: &mut K, film: &Film) -> io::Result<()> {
    write_tested(alloc, out, SCALE, &film.tracks, film.packets.as_slice())
}

/// Writes a film of tracks and packets, where they can be one; else it is invalid input.
pub fn write_tested<K: Sink>(
    alloc: Global,
    out: &mut K,
    scale: u64,
    tracks: &TrackList,
    packets: &[Packet],
) -> io::Result<()> {
    if scale == 0 || !is_dumpable(tracks, packets) {
        return Err(io::Error::from(io::ErrorKind::InvalidInput));
    }
    write_film(alloc, out, scale, tracks, packets).map_err(|error| match error {
        DumpError::Empty | DumpError::TooLow { .. } => io::Error::from(io::ErrorKind::InvalidInput),
        DumpError::Sink => io::Error::from(io::ErrorKind::WriteZero),
        DumpError::NoMemory => io::Error::from(io::ErrorKind::OutOfMemory),
    })
}
