ghost use Rattle.std.specs.Prelude.{◌+◌, ◌<◌, length, sum_by, IsTrue};
ghost use Rattle.mc_packet.specs.declared.packet.Packet.{Packet};

use crate::places::{at, block_in, track_in};
use bytes::Bytes;
use mc_packet::{Ending, Packet, Packets};
use rows::{Json, RowError, flag_in, items_in, named, number_in, text_in};
use std::alloc::Global;

/// A packet with this payload.
pub fn packet_in(alloc: Global, argument: &Json<'_>, body: &[u8]) -> Result<Packet, RowError> {
    let [track, block, time, sync] = items_in(argument)? else {
        return Err(RowError::BadRow);
    };
    let sync = flag_in(sync)?;
    Ok(Packet {
        track: track_in(track)?,
        pos: at(block_in(block)?),
        time: number_in(time)?,
        sync,
        key: sync,
        body: Bytes::copy_from_slice(alloc, body)?,
    })
}

/// An array of packets, each with this payload.
pub fn packets_in(alloc: Global, argument: &Json<'_>, body: &[u8]) -> Result<Packets, RowError> {
    let mut packets = Packets::new(alloc);
    for packet in items_in(argument)? {
        packets.push(packet_in(alloc, packet, body)?)?;
    }
    Ok(packets)
}

const ENDINGS: [(&str, Option<Ending>); 2] = [("open", None), ("clean", Some(Ending::Clean))];

/// Whether the film goes on (`open`) or ends cleanly (`clean`).
pub fn ending_in(argument: &Json<'_>) -> Result<Option<Ending>, RowError> {
    named(&ENDINGS, text_in(argument)?)
}

/// At most one packet, whose payload has fewer than 900 octets: what a range or a cache of a table is
/// fed, so that all of them together stay far below what a `u64` counts.
pub fn is_light(packets: &[Packet]) -> bool
    ensures { IsTrue result → sum_by (λ (p : Packet). length p.body + 64) packets.now < 1000 }
{
    match packets {
        [] => true,
        [packet] => packet.body.len() < 900,
        _ => false,
    }
}
