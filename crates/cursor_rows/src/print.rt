use mc_cursor::{Cursor, CursorError, HeadChunk, OpenError};
use mc_packet::{Chunk, Packet};
use std::alloc::AllocError;
use std::fmt::Write;

// The most octets of a payload that are printed; of a longer one the number is.
const SHOWN: usize = 8;

/// The word behind a refusal.
pub fn push_refusal(out: &mut String, error: OpenError) -> Result<(), AllocError> {
    match error {
        OpenError::Refused(refused) => write!(out, "refused {refused:?}"),
        OpenError::ReadFault => out.push_str("read fault"),
        OpenError::NoMemory => out.push_str("no memory"),
    }
}

/// What a cursor knows of its film, and where it stands.
pub fn push_cursor(out: &mut String, cursor: &Cursor) -> Result<(), AllocError> {
    write!(
        out,
        "scale {} tracks {} at {:?}",
        cursor.scale(),
        cursor.tracks().len(),
        cursor.mark()
    )
}

/// A call of a cursor that gave nothing.
pub fn push_failure(out: &mut String, error: CursorError) -> Result<(), AllocError> {
    out.push_str(match error {
        CursorError::ReadFault => "read fault",
        CursorError::NoMemory => "no memory",
    })
}

fn push_payload(out: &mut String, body: &[u8]) -> Result<(), AllocError> {
    if body.len() > SHOWN {
        return write!(out, " length {}", body.len());
    }
    out.push_str(" ")?;
    for octet in body {
        write!(out, "{:02X}", *octet)?;
    }
    Ok(())
}

fn push_packet(out: &mut String, packet: &Packet) -> Result<(), AllocError> {
    write!(
        out,
        " {}.{} track {} time {}",
        packet.pos.block, packet.pos.lane, packet.track, packet.time
    )?;
    out.push_str(if packet.key { " key" } else { "" })?;
    out.push_str(if packet.sync { " sync" } else { "" })?;
    push_payload(out, packet.body.as_slice())
}

/// A part, with each of its packets.
pub fn push_chunk(out: &mut String, chunk: &Chunk) -> Result<(), AllocError> {
    write!(out, "from {} to {:?}:", chunk.from.pos, chunk.to)?;
    for packet in chunk.packets.as_slice() {
        push_packet(out, packet)?;
    }
    match chunk.ending {
        Some(ending) => write!(out, " {ending:?}"),
        None => Ok(()),
    }
}

/// A part without its payloads.
pub fn push_head(out: &mut String, head: &HeadChunk) -> Result<(), AllocError> {
    write!(out, "from {} to {:?}:", head.from.pos, head.to)?;
    if let Some(block) = head.block {
        write!(
            out,
            " {} track {} time {} {}",
            block.pos,
            block.track,
            block.time,
            if block.key { "key" } else { "no key" }
        )?;
    }
    match head.ending {
        Some(ending) => write!(out, " {ending:?}"),
        None => Ok(()),
    }
}
