use mc_packet::{Packets, weight};
use mc_queue::{Queue, UnionError, is_before};
use rows::{Json, RowError, items_in, three};
use rows_packets::{at, block_in, packet_in};
use std::alloc::Global;

// The most octets of a queue that is made longer or united.
const MOST: u64 = 1_000_000;

// Puts a packet behind the others; the queue then reaches just past its block.
fn put(alloc: Global, queue: &mut Queue, argument: &Json<'_>) -> Result<(), RowError> {
    let packet = packet_in(alloc, argument, &[16, 17])?;
    let (pos, end) = (packet.pos, at(packet.pos.block.saturating_add(1)));
    if packet.track != queue.track() || weight(&packet) > MOST || queue.weight() > MOST {
        return Err(RowError::BadRow);
    }
    if is_before(pos, queue.to()) || !is_before(pos, end) {
        return Err(RowError::BadRow);
    }
    let mut packets = Packets::new(alloc);
    packets.push(packet)?;
    Ok(queue.append(end, packets)?)
}

// Lets the queue reach up to a block.
fn reach(alloc: Global, queue: &mut Queue, upto: u64) -> Result<(), RowError> {
    let end = at(upto);
    if is_before(end, queue.to()) || queue.weight() > MOST {
        return Err(RowError::BadRow);
    }
    Ok(queue.append(end, Packets::new(alloc))?)
}

/// A queue of track 1 over the blocks from one up to another, with these packets.
pub fn queue_in(alloc: Global, arguments: &[Json<'_>]) -> Result<Queue, RowError> {
    let (from, to, packets) = three(arguments)?;
    let mut queue = Queue::new(alloc, 1, at(block_in(from)?));
    for packet in items_in(packets)? {
        put(alloc, &mut queue, packet)?;
    }
    reach(alloc, &mut queue, block_in(to)?)?;
    Ok(queue)
}

/// Unites two queues; `None` where they do not meet or are too heavy.
pub fn unite(queue: &mut Queue, other: &mut Queue) -> Option<Result<(), UnionError>> {
    if queue.track() != other.track()
        || is_before(other.to(), queue.from())
        || is_before(queue.to(), other.from())
        || queue.weight() > MOST
        || other.weight() > MOST
    {
        return None;
    }
    Some(queue.union(other))
}

/// Drops a queue's packets before a block; `None` where the queue does not reach there.
pub fn drop_to(queue: &mut Queue, cut: u64) -> Option<u64> {
    let cut = at(cut);
    if is_before(cut, queue.from()) || is_before(queue.to(), cut) {
        return None;
    }
    Some(queue.drop_upto(cut))
}
