use crate::arguments::{natural_in, push_octets, push_some, some_in};
use bytes::Bytes;
use mc_packet::{
    CacheView, Choice, Chunk, Level, Mark, Packet, Packets, Pos, RangeViews, Starts, sum, weight,
};
use rows::{Json, RowError, flag_in, items_in, number_in, octets_in, one, push_flag, three, two};
use std::alloc::Global;
use std::fmt::Write;

/// The checksum of a payload.
pub fn call_sum(alloc: Global, arguments: &[Json<'_>], out: &mut String) -> Result<(), RowError> {
    let octets = octets_in(alloc, one(arguments)?)?;
    Ok(write!(out, "{}", sum(octets.as_slice()))?)
}

fn pos_in(block: &Json<'_>, lane: &Json<'_>) -> Result<Pos, RowError> {
    Ok(Pos {
        block: natural_in(block)?,
        lane: u16::try_from(number_in(lane)?)?,
    })
}

// A packet: its track, block, lane and time, whether it is a sync point and a keyframe, its payload.
fn packet_in(alloc: Global, arguments: &[Json<'_>]) -> Result<Packet, RowError> {
    let [track, block, lane, time, sync, key, body] = arguments else {
        return Err(RowError::BadRow);
    };
    let octets = octets_in(alloc, body)?;
    Ok(Packet {
        track: natural_in(track)?,
        pos: pos_in(block, lane)?,
        time: number_in(time)?,
        sync: flag_in(sync)?,
        key: flag_in(key)?,
        body: Bytes::copy_from_slice(alloc, octets.as_slice())?,
    })
}

/// A packet's copy, and its weight.
pub fn call_packet(
    alloc: Global,
    arguments: &[Json<'_>],
    out: &mut String,
) -> Result<(), RowError> {
    let packet = packet_in(alloc, arguments)?;
    let copied = packet.copy()?;
    push_packet(&copied, out)?;
    Ok(write!(out, " weighs {}", weight(&packet))?)
}

/// Appends a packet: its track and place, its time, its marks and its payload.
pub fn push_packet(packet: &Packet, out: &mut String) -> Result<(), RowError> {
    let Pos { block, lane } = packet.pos;
    write!(out, "{} at {block}.{lane}, {}", packet.track, packet.time)?;
    push_marks(packet, out)?;
    Ok(push_octets(out, packet.octets())?)
}

fn push_marks(packet: &Packet, out: &mut String) -> Result<(), RowError> {
    if packet.sync {
        out.push_str(" sync")?;
    }
    if packet.key {
        out.push_str(" key")?;
    }
    Ok(out.push(' ')?)
}

// The packets of a row's arrays.
fn packets_in(alloc: Global, argument: &Json<'_>) -> Result<Packets, RowError> {
    let mut packets = Packets::new(alloc);
    for item in items_in(argument)? {
        packets.push(packet_in(alloc, items_in(item)?)?)?;
    }
    Ok(packets)
}

fn mark_in(argument: &Json<'_>) -> Result<Mark, RowError> {
    Ok(Mark {
        pos: natural_in(argument)?,
        level: Level::Segment,
    })
}

/// How many packets a chunk's copy has, and whether it has the shape of one of a film.
pub fn call_chunk(alloc: Global, arguments: &[Json<'_>], out: &mut String) -> Result<(), RowError> {
    let (from, to, packets) = three(arguments)?;
    let chunk = Chunk {
        from: mark_in(from)?,
        to: mark_in(to)?,
        packets: packets_in(alloc, packets)?,
        ending: None,
    };
    let copied = chunk.copy(alloc)?;
    write!(out, "{} ", copied.packets.len())?;
    Ok(push_flag(out, chunk.has_shape())?)
}

/// The octets ahead and behind of a view's copy.
pub fn call_view(alloc: Global, arguments: &[Json<'_>], out: &mut String) -> Result<(), RowError> {
    let (forward, back) = two(arguments)?;
    let view = CacheView {
        ranges: RangeViews::new(alloc),
        forward: natural_in(forward)?,
        back: natural_in(back)?,
        bof: true,
        ending: None,
        time: None,
        playing: false,
        ended: false,
    };
    let copied = view.copy(alloc)?;
    Ok(write!(out, "{} {}", copied.forward, copied.back)?)
}

/// The lead of a choice, whether it is empty and has track 2, and whether its tracks differ.
pub fn call_choice(arguments: &[Json<'_>], out: &mut String) -> Result<(), RowError> {
    let (video, audio, sub) = three(arguments)?;
    let choice = Choice {
        video: some_in(video)?,
        audio: some_in(audio)?,
        sub: some_in(sub)?,
    };
    push_some(out, choice.lead())?;
    out.push(' ')?;
    push_flag(out, choice.is_empty())?;
    out.push(' ')?;
    push_flag(out, choice.has(2))?;
    out.push(' ')?;
    Ok(push_flag(out, choice.is_distinct())?)
}

/// Whether a mark is at most each start.
pub fn call_starts(arguments: &[Json<'_>], out: &mut String) -> Result<(), RowError> {
    let [mark, video, audio, sub] = arguments else {
        return Err(RowError::BadRow);
    };
    let starts = Starts {
        video: some_in(video)?,
        audio: some_in(audio)?,
        sub: some_in(sub)?,
        mark: mark_in(mark)?,
    };
    Ok(push_flag(out, starts.are_at_mark())?)
}
