ghost use Rattle.std.specs.Prelude.{◌≡◌, ◌+◌, ◌*◌, ◌<◌, ◌≤◌, ◌^◌, ◌++◌, ℕ, length, take, All, IfOk, OnOk};
ghost use Rattle.std.specs.List.{prefix_len};
ghost use Rattle.mc_outside.specs.Sink.{WriteCause};
ghost use Rattle.mc_written.specs.Elements.{element_text};
ghost use Rattle.mc_written.specs.Clusters.{block, blocks_text, cluster, clusters_text};
ghost use Rattle.mc_dump.specs.Clustered.{units, fits_in, block_with, blocks_with, cluster_len, cluster_with, begin_with, clusters_of, CanBeBlock, CanBeLaid};
ghost use Rattle.mc_dump.specs.Writes.{Wrote};

use crate::scale::{fits_in, not_negative, relative, units};
use mc_block::block_len;
use mc_ebml::{Size, head_len, ids};
use mc_outside::{Sink, SinkError, write_full};
use mc_packet::{NoMemory, Packet};
use mc_written::{write_block_head, write_cluster_head};

// The most blocks that a Cluster takes.
const MOST_BLOCKS: usize = 1_024;

// The first packets, as many as a Cluster takes at the most.
fn front(packets: &[Packet]) -> &[Packet]
    ensures value { result.now ≡ take 1024 packets.now }
    ensures few { length result.now ≤ length packets.now }
    ensures most { length result.now ≤ 1024 }
{
    if packets.len() <= MOST_BLOCKS {
        packets
    } else {
        packets.split_at(MOST_BLOCKS).0
    }
}

// How many packets from the first on a Cluster of that time can say.
fn fitting(scale: u64, time: u64, packets: &[Packet]) -> usize
    requires { 0 < scale }
    ensures value { result ≡ prefix_len (λ p. fits_in time (units scale p)) packets.now }
    ensures within { result ≤ length packets.now }
{
    let mut taken = 0usize;
    for packet in packets {
        if !fits_in(time, units(scale, packet.time)) {
            return taken;
        }
        taken += 1;
    }
    taken
}

// How many of these packets a Cluster of that time takes.
fn cluster_len(scale: u64, time: u64, packets: &[Packet]) -> usize
    requires { 0 < scale }
    ensures value { result ≡ cluster_len scale time packets.now }
    ensures within { result ≤ length packets.now }
{
    fitting(scale, time, front(packets))
}

// The time of the Cluster that begins with a packet.
fn begin_with(scale: u64, packet: &Packet) -> u64
    requires { 0 < scale }
    ensures { result ≡ begin_with scale packet.now }
{
    not_negative(units(scale, packet.time))
}

// How many octets the SimpleBlock of a packet takes, whatever its time.
fn element_len(packet: &Packet) -> u64
    requires { CanBeBlock packet.now }
    ensures value { (scale time : ℕ)
        → result ≡ length (element_text (block (block_with scale time packet.now))) }
    ensures small { result ≤ 67108891 }
{
    let len = block_len(packet.track, packet.octets());
    (head_len(ids::SIMPLE_BLOCK, Size::Known(len as u64)) + len) as u64
}

// How many octets the blocks of packets take together.
fn blocks_len(packets: &[Packet]) -> u64
    requires few { length packets.now ≤ 1024 }
    requires each { All CanBeBlock packets.now }
    ensures value { (scale time : ℕ)
        → result ≡ length (blocks_text (blocks_with scale time packets.now)) }
    ensures small { result < 2 ^ 48 }
{
    let mut len = 0;
    for packet in packets {
        len += element_len(packet);
    }
    len
}

// What stands before a packet's payload in a Cluster of that time, in place of what `head` held.
fn block_head(head: &mut Vec<u8>, scale: u64, time: u64, packet: &Packet) -> Result<(), NoMemory>
    requires positive { 0 < scale }
    requires laid { CanBeLaid scale time packet.now }
    ensures ok { let text = element_text (block (block_with scale time packet.now)) in
        OnOk result (head.new.items ++ packet.now.body ≡ text) }
{
    let relative = relative(time, units(scale, packet.time)) as i16;
    head.clear();
    write_block_head(head, packet.track, relative, packet.key, packet.octets())
}

// What stands before the blocks of a Cluster of that time, in place of what `head` held.
fn cluster_head(
    head: &mut Vec<u8>,
    scale: u64,
    time: u64,
    packets: &[Packet],
) -> Result<(), NoMemory>
    requires few { length packets.now ≤ 1024 }
    requires each { All CanBeBlock packets.now }
    ensures ok { let blocks = blocks_with scale time packets.now in
        let text = element_text (cluster (record { time = time; blocks = blocks })) in
        OnOk result (head.new.items ++ blocks_text blocks ≡ text) }
{
    head.clear();
    write_cluster_head(head, time, blocks_len(packets))
}

// Writes a packet as a block of a Cluster of that time. `head` is room for what stands before its
// payload.
fn write_block<K: Sink>(
    out: &mut K,
    head: &mut Vec<u8>,
    scale: u64,
    time: u64,
    packet: &Packet,
) -> Result<(), SinkError>
    requires positive { 0 < scale }
    requires laid { CanBeLaid scale time packet.now }
    ensures written { let text = element_text (block (block_with scale time packet.now)) in
        Wrote (K.text out.old) (K.text out.new) text result }
    ensures cause { WriteCause (K.faults out.old) (K.faults out.new) result }
{
    let Ok(()) = block_head(head, scale, time, packet) else {
        return Err(SinkError::NoMemory);
    };
    write_full(out, head.as_slice())?;
    write_full(out, packet.octets())
}

// Writes packets as the blocks of a Cluster of that time.
fn write_blocks<K: Sink>(
    out: &mut K,
    head: &mut Vec<u8>,
    scale: u64,
    time: u64,
    packets: &[Packet],
) -> Result<(), SinkError>
    requires positive { 0 < scale }
    requires laid { All (CanBeLaid scale time) packets.now }
    ensures written { let text = blocks_text (blocks_with scale time packets.now) in
        Wrote (K.text out.old) (K.text out.new) text result }
    ensures cause { WriteCause (K.faults out.old) (K.faults out.new) result }
{
    for packet in packets {
        write_block(out, head, scale, time, packet)?;
    }
    Ok(())
}

// Writes the Cluster of that time that these packets begin, and tells how many it took.
fn write_cluster<K: Sink>(
    out: &mut K,
    head: &mut Vec<u8>,
    scale: u64,
    time: u64,
    packets: &[Packet],
) -> Result<usize, SinkError>
    requires positive { 0 < scale }
    requires each { All CanBeBlock packets.now }
    ensures written { let text = element_text (cluster (cluster_with scale time packets.now)) in
        Wrote (K.text out.old) (K.text out.new) text result }
    ensures taken { IfOk result (λ n. n ≡ cluster_len scale time packets.now) }
    ensures within { IfOk result (λ n. n ≤ length packets.now) }
    ensures cause { WriteCause (K.faults out.old) (K.faults out.new) result }
{
    let taken = cluster_len(scale, time, packets);
    let (mine, _) = packets.split_at(taken);
    let Ok(()) = cluster_head(head, scale, time, mine) else {
        return Err(SinkError::NoMemory);
    };
    write_full(out, head.as_slice())?;
    write_blocks(out, head, scale, time, mine)?;
    Ok(taken)
}

/// Writes the Clusters of packets, each behind the other. `head` is room for what stands before
/// blocks and payloads; what it holds does not count.
pub(crate) fn write_clusters<K: Sink>(
    out: &mut K,
    head: &mut Vec<u8>,
    scale: u64,
    packets: &[Packet],
) -> Result<(), SinkError>
    requires positive { 0 < scale }
    requires each { All CanBeBlock packets.now }
    ensures written { let text = clusters_text (clusters_of scale packets.now) in
        Wrote (K.text out.old) (K.text out.new) text result }
    ensures cause { WriteCause (K.faults out.old) (K.faults out.new) result }
{
    let mut rest = packets;
    for _ in 0..packets.len() {
        let Some(first) = rest.first() else {
            return Ok(());
        };
        let taken = write_cluster(out, head, scale, begin_with(scale, first), rest)?;
        rest = rest.split_at(taken).1;
    }
    Ok(())
}
