ghost use Rattle.std.specs.Prelude.{◌≡◌, ◌≤◌, ◌<◌, IfOk, IsSomeAnd, IsTrue};
ghost use Rattle.mc_packet.specs.Shape.{HasShape};
ghost use Rattle.mc_queue.specs.Places.{weights};
ghost use Rattle.mc_cache.specs.Cache.{ranges_of, weight_of};

use bytes::Bytes;
use mc_cache::Cache;
use mc_packet::{Chunk, Ending, Heads, Mark, NoMemory, Packet, Packets};
use rows::RowError;
use rows_packets::{at, is_light, mark_at};
use std::alloc::Global;

// The most octets of a cache that is fed.
const MOST: u128 = 1_000_000;

/// The head of the one track at a block.
pub fn heads_at(block: u16) -> Heads {
    Heads {
        video: Some(at(block as u64)),
        audio: None,
        sub: None,
    }
}

// At least the weight of all packets.
fn weight(cache: &Cache) -> u128
    ensures { weight_of (ranges_of cache.now) ≤ result }
{
    let heads = heads_at(0);
    cache.forward(&heads) as u128 + cache.back(&heads) as u128
}

// A packet in a block: its time is ten times the block and so much more.
fn packet(block: u16, later: i64, sync: bool) -> Packet {
    Packet {
        track: 1,
        pos: at(block as u64),
        time: (block as i64 * 10).saturating_add(later),
        sync,
        key: sync,
        body: Bytes::new(),
    }
}

// The packet that a letter names in a block.
fn packet_of(letter: char, block: u16) -> Option<Packet> {
    match letter {
        'k' => Some(packet(block, 0, true)),
        'p' => Some(packet(block, 0, false)),
        'x' => Some(packet(block, 1, true)),
        _ => None,
    }
}

fn packets_of(alloc: Global, letter: char, block: u16) -> Result<Packets, NoMemory> {
    let mut packets = Packets::new(alloc);
    if let Some(packet) = packet_of(letter, block) {
        packets.push(packet)?;
    }
    Ok(packets)
}

// The film from a mark on over a packet, or up to a block without one.
fn part(alloc: Global, from: Mark, letter: char, block: u16) -> Result<Chunk, NoMemory>
    ensures { IfOk result (λ c. c.from ≡ from) }
{
    let packets = packets_of(alloc, letter, block)?;
    let to = mark_at(block as u64 + packets.len() as u64);
    let ending = if letter == 'e' {
        Some(Ending::Clean)
    } else {
        None
    };
    Ok(Chunk {
        from,
        to,
        packets,
        ending,
    })
}

fn feed(cache: &mut Cache, chunk: Chunk) -> Result<(), RowError>
    requires current { IsSomeAnd cache.old.current (λ r. chunk.from ≡ r.mark) }
    requires shape { HasShape chunk }
{
    if !is_light(chunk.packets.as_slice()) || weight(cache) > MOST {
        return Err(RowError::BadRow);
    }
    cache.feed(chunk)?;
    Ok(())
}

/// Reads the film on, over a packet, or up to a block without one.
#[tactic(auto, using(crate::proofs::Marks::still_marked))]
pub fn read(alloc: Global, cache: &mut Cache, letter: char, block: u16) -> Result<(), RowError> {
    let Some(from) = cache.mark() else {
        return Err(RowError::BadRow);
    };
    let chunk = part(alloc, from, letter, block)?;
    if !chunk.has_shape() {
        return Err(RowError::BadRow);
    }
    cache.make_room_to_feed(&chunk)?;
    feed(cache, chunk)
}
