ghost use Rattle.std.specs.Prelude.{◌≡◌, filter, find, IfOk};
ghost use Rattle.std.specs.Option.{option_copied};
ghost use Rattle.mc_dump.specs.Chosen.{is_lead, is_upto, last_block, first_block, last_upto, anchor, is_below, is_chosen, from_anchor, chosen};

use mc_packet::{NoMemory, Packet, Packets, TrackNo};
use std::alloc::Global;

fn is_lead(lead: TrackNo, packet: &Packet) -> bool
    ensures { result ≡ is_lead lead packet.now }
{
    packet.sync && packet.track == lead
}

fn is_upto(lead: TrackNo, time: i64, packet: &Packet) -> bool
    ensures { result ≡ is_upto lead time packet.now }
{
    is_lead(lead, packet) && packet.time <= time
}

// The lead's first sync point.
fn first(lead: TrackNo, packets: &[Packet]) -> Option<&Packet>
    ensures { option_copied result ≡ find (is_lead lead) packets.now }
{
    packets.iter().find(|packet| is_lead(lead, packet))
}

// Its block.
fn first_block(lead: TrackNo, packets: &[Packet]) -> Option<u64>
    ensures { result ≡ first_block (is_lead lead) packets.now }
{
    match first(lead, packets) {
        Some(packet) => Some(packet.pos.block),
        None => None,
    }
}

// The block of the lead's last sync point that is not past a time.
fn last_block(lead: TrackNo, time: i64, packets: &[Packet]) -> Option<u64>
    ensures { result ≡ last_block (is_upto lead time) packets.now }
{
    let mut found = None;
    for packet in packets {
        if is_upto(lead, time, packet) {
            found = Some(packet.pos.block);
        }
    }
    found
}

fn last_upto(lead: TrackNo, from: Option<i64>, packets: &[Packet]) -> Option<u64>
    ensures { result ≡ last_upto lead from packets.now }
{
    match from {
        Some(time) => last_block(lead, time, packets),
        None => None,
    }
}

// The block at which the chosen packets begin.
fn anchor(lead: TrackNo, from: Option<i64>, packets: &[Packet]) -> Option<u64>
    ensures { result ≡ anchor lead from packets.now }
{
    match last_upto(lead, from, packets) {
        Some(block) => Some(block),
        None => first_block(lead, packets),
    }
}

fn is_below(to: Option<i64>, time: i64) -> bool
    ensures { result ≡ is_below to time }
{
    match to {
        Some(to) => time < to,
        None => true,
    }
}

fn is_chosen(block: u64, to: Option<i64>, packet: &Packet) -> bool
    ensures { result ≡ is_chosen block to packet.now }
{
    block <= packet.pos.block && is_below(to, packet.time)
}

fn from_block(
    alloc: Global,
    block: u64,
    to: Option<i64>,
    packets: &[Packet],
) -> Result<Packets, NoMemory>
    ensures { IfOk result (λ ps. ps ≡ filter (is_chosen block to) packets.now) }
{
    let mut chosen = Packets::new(alloc);
    for packet in packets {
        if is_chosen(block, to, packet) {
            chosen.push(packet.copy()?)?;
        }
    }
    Ok(chosen)
}

fn from_lead(
    alloc: Global,
    lead: TrackNo,
    from: Option<i64>,
    to: Option<i64>,
    packets: &[Packet],
) -> Result<Packets, NoMemory>
    ensures { IfOk result
        (λ ps. ps ≡ from_anchor (anchor lead from packets.now) to packets.now) }
{
    match anchor(lead, from, packets) {
        Some(block) => from_block(alloc, block, to, packets),
        None => Ok(Packets::new(alloc)),
    }
}

/// The packets that mpv's `dump-cache` would write of those that are cached, for a span of time in
/// nanoseconds: from the block of the lead's last sync point not past `from` on, else, or without
/// `from`, from that of its first; and of these the ones whose time is below `to`, where there is
/// one. There are none without a lead, or where it has no sync point. The payloads are shared.
pub fn choose(
    alloc: Global,
    packets: &[Packet],
    lead: Option<TrackNo>,
    from: Option<i64>,
    to: Option<i64>,
) -> Result<Packets, NoMemory>
    ensures { IfOk result (λ ps. ps ≡ chosen lead from to packets.now) }
{
    match lead {
        Some(lead) => from_lead(alloc, lead, from, to, packets),
        None => Ok(Packets::new(alloc)),
    }
}
