ghost use Rattle.std.specs.Prelude.{◌≡◌, ◌≢◌, ◌↔◌, ◌<◌, ◌≤◌, length, All, IsTrue};
ghost use Rattle.mc_packet.specs.Shape.{is_near};
ghost use Rattle.mc_written.specs.Fronts.{IsShortText, HasShortTexts};
ghost use Rattle.mc_dump.specs.Clustered.{CanBeBlock};
ghost use Rattle.mc_dump.specs.Dumped.{AreDumpable, CanBeDumped};

use mc_packet::{LARGEST_BLOCK, Packet};
use mc_tracks::{Track, TrackList};

// The most tracks of a film.
const MOST_TRACKS: usize = 64;

// The most octets of a text that is read.
const LONGEST_TEXT: usize = 65_536;

// The most nanoseconds that a time lies before or behind the film's start.
const FARTHEST: i64 = 1 << 62;

fn has_no_zero(octets: &[u8]) -> bool
    ensures { IsTrue result ↔ All (λ b. b ≢ 0) octets.now }
{
    octets.iter().all(|octet| *octet != 0)
}

fn is_short_text(text: &str) -> bool
    ensures { IsTrue result ↔ IsShortText text.now }
{
    text.len() <= LONGEST_TEXT && has_no_zero(text.as_bytes())
}

fn has_short_texts(track: &Track) -> bool
    ensures { IsTrue result ↔ HasShortTexts track.now }
{
    is_short_text(track.codec.as_str())
        && is_short_text(track.name.as_str())
        && is_short_text(track.language.as_str())
}

fn have_short_texts(tracks: &[Track]) -> bool
    ensures { IsTrue result ↔ All HasShortTexts tracks.now }
{
    tracks.iter().all(|track| has_short_texts(track))
}

fn can_be_block(packet: &Packet) -> bool
    ensures { IsTrue result ↔ CanBeBlock packet.now }
{
    packet.track < 1 << 56 && packet.body.len() as u64 <= LARGEST_BLOCK
}

fn is_near(time: i64) -> bool
    ensures { result ≡ is_near time }
{
    -FARTHEST <= time && time <= FARTHEST
}

fn can_be_dumped(tracks: &TrackList, packet: &Packet) -> bool
    ensures { IsTrue result ↔ CanBeDumped tracks.now packet.now }
{
    tracks.get(packet.track).is_some() && is_near(packet.time) && can_be_block(packet)
}

fn are_all_dumpable(tracks: &TrackList, packets: &[Packet]) -> bool
    ensures { IsTrue result ↔ All (CanBeDumped tracks.now) packets.now }
{
    packets.iter().all(|packet| can_be_dumped(tracks, packet))
}

/// Whether tracks and packets can be written as a film: at most 64 tracks with texts of at most
/// 65,536 octets without a zero octet; and packets each of which is of a listed track whose number
/// is below 2^56, has a time within 2^62 nanoseconds and a payload of at most 67,108,864 octets.
pub fn is_dumpable(tracks: &TrackList, packets: &[Packet]) -> bool
    ensures { IsTrue result ↔ AreDumpable tracks.now packets.now }
{
    tracks.len() <= MOST_TRACKS
        && have_short_texts(tracks.as_slice())
        && are_all_dumpable(tracks, packets)
}
