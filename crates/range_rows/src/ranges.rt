ghost use Rattle.std.specs.Prelude.{◌≡◌, ◌<◌, IsTrue, is_some};
ghost use Rattle.mc_queue.specs.Places.{weights};
ghost use Rattle.mc_range.specs.Tracks.{queue_under, selected_under};

use mc_packet::{Choice, Chunk, Ending, Kind, Packet, Packets, Starts, TrackNo};
use mc_range::{Range, UnionError};
use rows::{Json, RowError, items_in};
use rows_packets::{block_in, choice_in, ending_in, is_light, mark_at, packet_in, starts_in};
use std::alloc::Global;

// The most octets of a range that is made longer or joined.
const MOST: u128 = 1_000_000;

// Feeds a range with a part of the film up to a block; gives the track that took it.
fn feed(
    range: &mut Range,
    to: u64,
    packets: Packets,
    ending: Option<Ending>,
) -> Result<Option<TrackNo>, RowError> {
    let chunk = Chunk {
        from: range.mark(),
        to: mark_at(to),
        packets,
        ending,
    };
    if !chunk.has_shape() || !is_light(chunk.packets.as_slice()) || range.weight() > MOST {
        return Err(RowError::BadRow);
    }
    Ok(range.extend(chunk)?)
}

/// Feeds a range with the film up to just past a packet.
pub fn put(
    alloc: Global,
    range: &mut Range,
    argument: &Json<'_>,
) -> Result<Option<TrackNo>, RowError> {
    let packet = packet_in(alloc, argument, &[])?;
    let to = packet.pos.block.saturating_add(1);
    let mut packets = Packets::new(alloc);
    packets.push(packet)?;
    feed(range, to, packets, None)
}

/// Feeds a range with the film up to a block, where there is no packet.
pub fn reach(
    alloc: Global,
    range: &mut Range,
    to: &Json<'_>,
    ending: &Json<'_>,
) -> Result<Option<TrackNo>, RowError> {
    let (to, ending) = (block_in(to)?, ending_in(ending)?);
    feed(range, to, Packets::new(alloc), ending)
}

fn begun(alloc: Global, set: Choice, starts: &Starts) -> Result<Range, RowError> {
    if !set.is_distinct() || !starts.are_at_mark() {
        return Err(RowError::BadRow);
    }
    Ok(Range::new(alloc, set, starts))
}

/// A range of these tracks: the set, their starts, the mark, and then the packets and where and how
/// the range ends.
pub fn range_in(alloc: Global, arguments: &[Json<'_>]) -> Result<Range, RowError> {
    let [set, starts, mark, packets, to, ending] = arguments else {
        return Err(RowError::BadRow);
    };
    let mut range = begun(alloc, choice_in(set)?, &starts_in(starts, mark)?)?;
    for packet in items_in(packets)? {
        put(alloc, &mut range, packet)?;
    }
    reach(alloc, &mut range, to, ending)?;
    Ok(range)
}

/// Joins a range with another one; `None` where they do not touch or are too heavy.
pub fn join(range: &mut Range, other: &mut Range) -> Option<Result<(), UnionError>> {
    if !range.touches(other) || range.weight() > MOST || other.weight() > MOST {
        return None;
    }
    Some(range.join(other))
}

/// Selects other tracks.
pub fn retrack(range: &mut Range, set: Choice) -> Result<(), RowError> {
    if !set.is_distinct() {
        return Err(RowError::BadRow);
    }
    range.retrack(set);
    Ok(())
}

// The selected track of a kind.
fn selected(range: &Range, kind: Kind) -> Option<TrackNo>
    ensures { result ≡ selected_under kind range.now.set }
{
    let set = range.set();
    match kind {
        Kind::Video => set.video,
        Kind::Audio => set.audio,
        Kind::Sub => set.sub,
    }
}

// Whether a kind has a queue.
fn has_queue(range: &Range, kind: Kind) -> bool
    ensures { result ≡ is_some (queue_under kind range.now.queues) }
{
    let spans = range.spans();
    match kind {
        Kind::Video => spans.video.is_some(),
        Kind::Audio => spans.audio.is_some(),
        Kind::Sub => spans.sub.is_some(),
    }
}

/// Gives a selected track a queue that it does not have.
pub fn add_track(
    range: &mut Range,
    kind: Kind,
    track: TrackNo,
    start: u64,
    mark: u64,
) -> Result<(), RowError> {
    if selected(range, kind) != Some(track) || has_queue(range, kind) || mark > start {
        return Err(RowError::BadRow);
    }
    range.add_track(kind, track, start, mark_at(mark));
    Ok(())
}
