use bytes::Bytes;
use mc_block::{
    BlockError, Place, block_head, block_track, frames, group_body, parse_block, parse_group,
    write_simple_block,
};
use mc_packet::{LARGEST_BLOCK, Packet, Packets};
use rows::{Json, RowError, flag_in, number_in, octets_in, one, two};
use std::alloc::Global;
use std::fmt::Write;

fn push_error(error: BlockError, out: &mut String) -> Result<(), RowError> {
    let text = match error {
        BlockError::TooLarge => "TooLarge",
        BlockError::BadGroup => "BadGroup",
        BlockError::ShortBlock => "ShortBlock",
        BlockError::BadLace => "BadLace",
        BlockError::TimeRange => "TimeRange",
        BlockError::NoMemory => return Err(RowError::NoMemory),
    };
    Ok(out.push_str(text)?)
}

/// Where the frames of a block with these flags stand in what stands behind them.
pub fn call_frames(
    alloc: Global,
    arguments: &[Json<'_>],
    out: &mut String,
) -> Result<(), RowError> {
    let (flags, rest) = two(arguments)?;
    let flags = u8::try_from(number_in(flags)?)?;
    let rest = octets_in(alloc, rest)?;
    match frames(alloc, flags, rest.as_slice()) {
        Ok(spans) => push_spans(spans.as_slice(), out),
        Err(error) => push_error(error, out),
    }
}

fn push_spans(spans: &[(usize, usize)], out: &mut String) -> Result<(), RowError> {
    write!(out, "{}:", spans.len())?;
    for (begin, end) in spans {
        write!(out, " {begin}-{end}")?;
    }
    Ok(())
}

// Where the blocks of the rows stand: at offset 66, in a Cluster of time 0.
fn place(duration: Option<u64>) -> Place {
    Place {
        pos: 66,
        cluster_time: 0,
        scale: 1_000_000,
        duration,
    }
}

fn push_packets(found: Result<Packets, BlockError>, out: &mut String) -> Result<(), RowError> {
    match found {
        Ok(packets) => push_all(&packets, out),
        Err(error) => push_error(error, out),
    }
}

fn push_all(packets: &Packets, out: &mut String) -> Result<(), RowError> {
    write!(out, "{}:", packets.len())?;
    for packet in packets.as_slice() {
        out.push(' ')?;
        push_packet(packet, out)?;
    }
    Ok(())
}

// A packet's track, lane and time, its marks, and the length of its payload.
fn push_packet(packet: &Packet, out: &mut String) -> Result<(), RowError> {
    write!(
        out,
        "{}.{} at {} ",
        packet.track, packet.pos.lane, packet.time
    )?;
    if packet.sync {
        out.push_str("sync ")?;
    }
    if packet.key {
        out.push_str("key ")?;
    }
    Ok(write!(out, "{}", packet.octets().len())?)
}

/// The packets of a SimpleBlock, of whose track a frame lasts so many nanoseconds; with 0 that is
/// not known.
pub fn call_block(alloc: Global, arguments: &[Json<'_>], out: &mut String) -> Result<(), RowError> {
    let (duration, body) = two(arguments)?;
    let duration = match u64::try_from(number_in(duration)?)? {
        0 => None,
        duration => Some(duration),
    };
    let octets = octets_in(alloc, body)?;
    let body = Bytes::copy_from_slice(alloc, octets.as_slice())?;
    push_packets(parse_block(alloc, &body, place(duration)), out)
}

/// The packets of a BlockGroup; `no block` where it has none.
pub fn call_group(alloc: Global, arguments: &[Json<'_>], out: &mut String) -> Result<(), RowError> {
    let octets = octets_in(alloc, one(arguments)?)?;
    let body = Bytes::copy_from_slice(alloc, octets.as_slice())?;
    if let Ok(None) = group_body(&body) {
        return Ok(out.push_str("no block")?);
    }
    push_packets(parse_group(alloc, &body, place(None)), out)
}

/// The track number with which a block begins.
pub fn call_block_track(
    alloc: Global,
    arguments: &[Json<'_>],
    out: &mut String,
) -> Result<(), RowError> {
    let octets = octets_in(alloc, one(arguments)?)?;
    match block_track(octets.as_slice()) {
        Ok(track) => Ok(write!(out, "{track}")?),
        Err(error) => push_error(error, out),
    }
}

/// A block's head: its track, its time, its flags, and where its frames begin.
pub fn call_block_head(
    alloc: Global,
    arguments: &[Json<'_>],
    out: &mut String,
) -> Result<(), RowError> {
    let octets = octets_in(alloc, one(arguments)?)?;
    match block_head(octets.as_slice()) {
        Ok(head) => {
            write!(out, "{} {} ", head.track, head.relative)?;
            Ok(write!(out, "{:x} at {}", head.flags, head.at)?)
        }
        Err(error) => push_error(error, out),
    }
}

/// A SimpleBlock of one frame.
pub fn call_write_block(
    alloc: Global,
    arguments: &[Json<'_>],
    out: &mut String,
) -> Result<(), RowError> {
    let [track, relative, key, body] = arguments else {
        return Err(RowError::BadRow);
    };
    let track = u64::try_from(number_in(track)?)?;
    let relative = i16::try_from(number_in(relative)?)?;
    let key = flag_in(key)?;
    let body = octets_in(alloc, body)?;
    if track >= 1 << 56 || body.len() as u64 > LARGEST_BLOCK {
        return Err(RowError::BadRow);
    }
    let mut octets = Vec::new(alloc);
    write_simple_block(&mut octets, track, relative, key, body.as_slice())?;
    for octet in octets.as_slice() {
        write!(out, "{octet:02x}")?;
    }
    Ok(())
}
