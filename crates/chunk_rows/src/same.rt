use mc_film::film;
use mc_packet::{Chunk, Ending, Packet, Packets};
use std::alloc::Global;

fn is_same(one: &Packet, other: &Packet) -> bool {
    one.track == other.track
        && one.pos == other.pos
        && one.time == other.time
        && one.sync == other.sync
        && one.key == other.key
        && one.body.as_slice() == other.body.as_slice()
}

fn are_same(some: &[Packet], others: &[Packet]) -> bool {
    some.len() == others.len()
        && some
            .iter()
            .zip(others)
            .all(|(one, other)| is_same(one, other))
}

/// Whether two chunks are equal.
pub fn is_same_chunk(one: &Chunk, other: &Chunk) -> bool {
    one.from == other.from
        && one.to == other.to
        && one.ending == other.ending
        && are_same(one.packets.as_slice(), other.packets.as_slice())
}

/// Whether packets and an ending are those of the film read whole.
pub fn are_the_film(alloc: Global, octets: &[u8], read: Option<(Packets, Ending)>) -> bool {
    match (read, film(alloc, octets)) {
        (Some((packets, ending)), Ok(whole)) => {
            ending == whole.ending && are_same(packets.as_slice(), whole.packets.as_slice())
        }
        _ => false,
    }
}
