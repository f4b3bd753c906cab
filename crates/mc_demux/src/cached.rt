//! The packets that are cached, as one list.
ghost use Rattle.std.specs.Prelude.{◌≡◌, ◌≤◌, ◌++◌, IfOk, OnOk, length, reverse};
ghost use Rattle.std.specs.List.{prefix_len};
ghost use Rattle.mc_journal.specs.Films.{Film};
ghost use Rattle.mc_calls.specs.Cached.{cached_by, cached_of, held_in, held_of, is_earlier, merged};
ghost use Rattle.mc_calls.specs.Demuxers.{IsDemux};
ghost use Rattle.mc_calls.specs.Film.{StandsFor};

use crate::demux::Demux;
use crate::reading::past;
use mc_cache::Cache;
use mc_packet::{NoMemory, Packet, Packets, Pos, TrackNo};
use mc_queue::{is_before, rank_of};
use std::alloc::Global;

/// Whether a packet comes before another: by place, and on a tie by track.
fn is_earlier(packet: &Packet, other: &Packet) -> bool
    ensures { result ≡ is_earlier packet.now other.now }
{
    is_before(packet.pos, other.pos)
        || (rank_of(packet.pos) == rank_of(other.pos) && packet.track < other.track)
}

/// How many packets of a list come before this one, from the front on.
fn earlier_len(packet: &Packet, others: &[Packet]) -> usize
    ensures value { result ≡ prefix_len (λ q. is_earlier q packet.now) others.now }
    ensures within { result ≤ length others.now }
{
    others
        .iter()
        .take_while(|other| is_earlier(other, packet))
        .count()
}

/// Puts copies of packets behind others.
fn push_all(to: &mut Packets, packets: &[Packet]) -> Result<(), NoMemory>
    ensures { OnOk result (to.new ≡ to.old ++ packets.now) }
{
    for packet in packets {
        to.push(packet.copy()?)?;
    }
    Ok(())
}

/// Two lists in order as one.
fn merge(alloc: Global, ours: &[Packet], theirs: &[Packet]) -> Result<Packets, NoMemory>
    ensures { IfOk result (λ ps. ps ≡ merged is_earlier ours.now theirs.now) }
{
    let mut all = Packets::new(alloc);
    let mut rest = theirs;
    for packet in ours {
        let (earlier, later) = rest.split_at(earlier_len(packet, rest));
        push_all(&mut all, earlier)?;
        all.push(packet.copy()?)?;
        rest = later;
    }
    push_all(&mut all, rest)?;
    Ok(all)
}

/// What the current range holds of a track, in order.
fn copy_track(alloc: Global, cache: &Cache, track: TrackNo) -> Result<Packets, NoMemory>
    ensures { IfOk result (λ ps. ps ≡ held_in track cache.now.current) }
{
    let _mark = cache.mark();
    let mut packets = Packets::new(alloc);
    let mut place = Pos { block: 0, lane: 0 };
    while let Some(packet) = cache.first_at(track, place) {
        packets.push(packet.copy()?)?;
        place = past(packet.pos);
    }
    Ok(packets)
}

/// The same of a kind's track, and nothing without one.
fn copy_kind(alloc: Global, cache: &Cache, track: Option<TrackNo>) -> Result<Packets, NoMemory>
    ensures { IfOk result (λ ps. ps ≡ held_of track cache.now.current) }
{
    match track {
        Some(track) => copy_track(alloc, cache, track),
        None => Ok(Packets::new(alloc)),
    }
}

impl Demux {
    /// The packets that the current range holds of the selected tracks, in order of their places, and
    /// on a tie by rising track number; none without a current range. Their payloads are shared and
    /// not copied. Of a film that the demuxer stands for they are its packets of these tracks that
    /// lie in the range by the journal, in file order. `NoMemory` is the only refusal.
    pub fn cached(&self) -> Result<Packets, NoMemory>
        ensures value { IfOk result (λ ps. ps ≡ cached_of self.now) }
        ensures film { (film : Film) → StandsFor film self.now
            → IfOk result (λ ps. ps ≡ cached_by film (reverse self.now.journal)) }
        ensures demux { IsDemux self.now }
    {
        let alloc = *self.journal.allocator();
        let video = copy_kind(alloc, &self.cache, self.set.video)?;
        let audio = copy_kind(alloc, &self.cache, self.set.audio)?;
        let sub = copy_kind(alloc, &self.cache, self.set.sub)?;
        let beside = merge(alloc, audio.as_slice(), sub.as_slice())?;
        let all = merge(alloc, video.as_slice(), beside.as_slice())?;
        Ok(all)
    }
}
