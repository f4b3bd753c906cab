ghost use Rattle.std.specs.Prelude.{◌≡◌, ◌↔◌, ◌<◌, ◌≤◌, ◌^◌, [], length, All, None, Some, Err, IfErr, OnOk, OnErr};
ghost use Rattle.mc_outside.specs.Sink.{Grows, GrowsByFront, WriteCause};
ghost use Rattle.mc_packet.specs.declared.packet.Pos.{Pos};
ghost use Rattle.mc_tracks.specs.TrackList.{HaveDistinctNumbers, HasNumbers};
ghost use Rattle.mc_written.specs.Fronts.{HasShortTexts};
ghost use Rattle.mc_dump.specs.declared.error.DumpError.TheVariants as DumpError;
ghost use Rattle.mc_dump.specs.Clustered.{first_low, scale_for, CanBeBlock};
ghost use Rattle.mc_dump.specs.Dumped.{dumped_text, AreDumpable, AreOfFilm, DumpsReadBack};
ghost use Rattle.mc_dump.specs.Writes.{DumpCause, GrowsBack, IsEarly, Wrote};

use crate::cluster::write_clusters;
use crate::error::DumpError;
use crate::law::dumped_films;
use crate::scale::{first_low, scale_for};
use mc_outside::{Sink, SinkError, write_full};
use mc_packet::Packet;
use mc_tracks::{Track, TrackList};
use mc_written::write_front;
use std::alloc::Global;

// Writes the film, part by part: no more of it is in memory than its front, or the head of a block.
#[tactic(auto, unfolding(crate::specs::Dumped::dumped_text, mc_written::specs::Films::film_text))]
fn write_parts<K: Sink>(
    alloc: Global,
    out: &mut K,
    scale: u64,
    tracks: &[Track],
    packets: &[Packet],
) -> Result<(), SinkError>
    requires positive { 0 < scale }
    requires few { length tracks.now ≤ 64 }
    requires texts { All HasShortTexts tracks.now }
    requires each { All CanBeBlock packets.now }
    ensures written { let text = dumped_text scale tracks.now packets.now in
        Wrote (K.text out.old) (K.text out.new) text result }
    ensures numbers { OnOk result (All HasNumbers tracks.now) }
    ensures cause { WriteCause (K.faults out.old) (K.faults out.new) result }
{
    let mut head = Vec::new(alloc);
    let Ok(()) = write_front(alloc, &mut head, scale, tracks) else {
        return Err(SinkError::NoMemory);
    };
    write_full(out, head.as_slice())?;
    write_clusters(out, &mut head, scale, packets)
}

/// Writes packets and their tracks as a Matroska film of its own (RFC 9559): an EBML header, a
/// Segment of unknown size, Info, Tracks with the tracks in order, and Clusters of known size, all
/// in shortest form. `scale` is its TimestampScale in nanoseconds where it divides every time, else
/// 1 is. Each packet is one SimpleBlock, also those that shared a laced one. A new Cluster begins
/// after 1,024 blocks, and where a block could not say its time.
///
/// There have to be at most 64 tracks, with texts of at most 65,536 octets without a zero octet; and
/// each packet has to be of a listed track whose number is below 2^56, with a time within 2^62
/// nanoseconds and a payload of at most 67,108,864 octets. `is_dumpable` tells.
///
/// At `Ok` the film that was written, read back, has these tracks and packets: as many in the same
/// order, each with the same track, time, key mark and payload; and it ends as it should. That is
/// promised where tracks and packets are some film's and none of the tracks is encoded.
///
/// `Empty` comes exactly without a packet, and `TooLow` exactly where a time is below -32,768 units
/// of the scale, with the first such place; both before anything is written. At `Sink` and at
/// `NoMemory` a front of the film was written. Payloads are written from where they lie.
pub fn write_film<K: Sink>(
    alloc: Global,
    out: &mut K,
    scale: u64,
    tracks: &TrackList,
    packets: &[Packet],
) -> Result<(), DumpError>
    // what `is_dumpable` tests
    requires positive { 0 < scale }
    requires dumpable { AreDumpable tracks.now packets.now }
    // what is written, and how it is read back
    ensures text { OnOk result (Grows (K.text out.old) (K.text out.new)
        (dumped_text (scale_for scale packets.now) tracks.now packets.now)) }
    ensures reads_back { OnOk result (AreOfFilm tracks.now packets.now
        → GrowsBack (scale_for scale packets.now) tracks.now packets.now (K.text out.old)
        (K.text out.new)) }
    // what is found before anything is written
    ensures empty { (result ≡ Err DumpError.Empty) ↔ (packets.now ≡ []) }
    ensures too_low { (pos : Pos) → (result ≡ Err (DumpError.TooLow pos))
        ↔ (first_low (scale_for scale packets.now) packets.now ≡ Some pos) }
    ensures early { IfErr result (λ e. IsEarly e → K.text out.new ≡ K.text out.old) }
    // what was written where the sink or memory failed
    ensures front { OnErr result (GrowsByFront (K.text out.old) (K.text out.new)
        (dumped_text (scale_for scale packets.now) tracks.now packets.now)) }
    ensures cause { DumpCause (K.faults out.old) (K.faults out.new) result }
{
    if packets.is_empty() {
        return Err(DumpError::Empty);
    }
    let scale = scale_for(scale, packets);
    if let Some(pos) = first_low(scale, packets) {
        return Err(DumpError::TooLow { pos });
    }
    dumped_films();
    Ok(write_parts(alloc, out, scale, tracks.as_slice(), packets)?)
}
