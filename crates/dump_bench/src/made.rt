ghost use Rattle.std.specs.Prelude.{◌≡◌, IfOk};

use bytes::Bytes;
use mc_packet::{Kind, NoMemory, Packet, Packets, Pos, TrackNo};
use mc_tracks::{Track, TrackList};
use mc_value::Text;
use std::alloc::Global;

/// The lead.
pub const VIDEO: TrackNo = 1;

const AUDIO: TrackNo = 2;

// Nanoseconds from one packet to the next.
const SPACING: u64 = 20_000_000;

// How many packets there are from one keyframe of the video track to the next, of both tracks.
const KEY_EACH: u32 = 50;

/// A film of two tracks that is made in memory; a packet's octets lie by themselves.
#[derive(Drop)]
pub struct Film {
    /// A video and an audio track.
    pub tracks: TrackList,
    /// Their packets in turn.
    pub packets: Packets,
}

impl Film {
    /// A film of so many packets with so many octets each.
    pub fn new(alloc: Global, count: u32, octets: u32) -> Result<Film, NoMemory> {
        let mut payload = Vec::new(alloc);
        payload.resize(octets as usize, 7)?;
        let mut packets = Packets::new(alloc);
        for number in 0..count {
            packets.push(packet(alloc, number, payload.as_slice())?)?;
        }
        Ok(Film {
            tracks: tracks(alloc)?,
            packets,
        })
    }
}

// The time in nanoseconds of the packet with this number, counted from 0 over both tracks.
fn time_of(number: u32) -> i64 {
    (number as u64 * SPACING) as i64
}

// A packet of the video track at even numbers, of the audio track at odd ones.
fn packet(alloc: Global, number: u32, payload: &[u8]) -> Result<Packet, NoMemory> {
    let is_video = number % 2 == 0;
    let key = !is_video || number % KEY_EACH == 0;
    Ok(Packet {
        track: if is_video { VIDEO } else { AUDIO },
        pos: Pos {
            block: number as u64,
            lane: 0,
        },
        time: time_of(number),
        sync: key,
        key,
        body: Bytes::copy_from_slice(alloc, payload)?,
    })
}

fn track(alloc: Global, no: TrackNo, kind: Kind, codec: &str) -> Result<Track, NoMemory>
    ensures { IfOk result (λ t. t.no ≡ no) }
{
    Ok(Track {
        no,
        uid: no,
        kind,
        codec: Text::new(alloc, codec)?,
        name: Text::new(alloc, "")?,
        language: Text::new(alloc, "eng")?,
        default: true,
        duration: None,
        encoded: false,
    })
}

fn tracks(alloc: Global) -> Result<TrackList, NoMemory> {
    let mut tracks = TrackList::new(alloc);
    tracks.push(track(alloc, VIDEO, Kind::Video, "V_MPEG2")?)?;
    tracks.push(track(alloc, AUDIO, Kind::Audio, "A_PCM/INT/LIT")?)?;
    Ok(tracks)
}
