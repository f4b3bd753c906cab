ghost use Rattle.std.specs.Prelude.{◌≡◌, IfOk, is_some};
ghost use Rattle.mc_packet.specs.Shape.{HasShape};
ghost use Rattle.mc_journal.specs.Used.{least_start, place_of_starts};
ghost use Rattle.std.specs.Option.{option_map_or};
ghost use Rattle.mc_calls.specs.Outcomes.{AreStartsFor};

use mc_packet::{Choice, Chunk, Ending, Mark, Packet, Packets, Starts, TrackNo};
use rows::RowError;
use rows_packets::mark_at;
use std::alloc::Global;

// The octets of each block.
const BLOCK: u64 = 7;

// The film from a mark to just past its next packet, or to its end.
fn cut_at(alloc: Global, film: &[Packet], from: Mark) -> Result<Chunk, RowError>
    ensures { IfOk result (λ c. c.from ≡ from) }
{
    let mut packets = Packets::new(alloc);
    let Some(next) = film.iter().find(|packet| from.pos <= packet.pos.block) else {
        return Ok(Chunk {
            from,
            to: from,
            packets,
            ending: Some(Ending::Clean),
        });
    };
    let to = mark_at(next.pos.block.saturating_add(BLOCK));
    packets.push(next.copy()?)?;
    Ok(Chunk {
        from,
        to,
        packets,
        ending: None,
    })
}

/// The part of a film from a mark on.
pub fn part_at(alloc: Global, film: &[Packet], from: Mark) -> Result<Chunk, RowError>
    ensures shape { IfOk result HasShape }
    ensures from { IfOk result (λ c. c.from ≡ from) }
{
    let part = cut_at(alloc, film, from)?;
    if !part.has_shape() {
        return Err(RowError::BadRow);
    }
    Ok(part)
}

fn least(a: Option<u64>, b: Option<u64>) -> Option<u64>
    ensures { result ≡ least_start a b }
{
    match (a, b) {
        (None, b) => b,
        (Some(a), None) => Some(a),
        (Some(a), Some(b)) => if b <= a { Some(b) } else { Some(a) },
    }
}

fn place_of(start: Option<u64>) -> u64
    ensures { result ≡ option_map_or (λ block. block) start 0 }
{
    match start {
        Some(block) => block,
        None => 0,
    }
}

fn start(track: Option<TrackNo>, block: u64) -> Option<u64>
    ensures { is_some result ≡ is_some track }
{
    match track {
        Some(_) => Some(block),
        None => None,
    }
}

/// Starts of just the tracks of a set, a subtitle's at the video track's.
pub fn starts_at(set: Choice, video: u64, audio: u64) -> Starts
    ensures { AreStartsFor set result }
{
    let sub = start(set.sub, video);
    let video = start(set.video, video);
    let audio = start(set.audio, audio);
    Starts {
        video,
        audio,
        sub,
        mark: mark_at(place_of(least(video, least(audio, sub)))),
    }
}
