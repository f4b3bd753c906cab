ghost use Rattle.std.specs.Prelude.{◌≡◌, ◌+◌, ◌^◌, ◌<◌, ◌≤◌, ℕ, length, Ok, IfOk, IfSome};
ghost use Rattle.std.specs.Option.{option_copied};
ghost use Rattle.mc_walk.specs.declared.element.WalkError.TheVariants.{NoMemory};
ghost use Rattle.mc_packet.specs.Shape.{AreBetween};
ghost use Rattle.mc_block.specs.Block.{track_of};
ghost use Rattle.mc_tracks.specs.TrackList.{IsTrackList};
ghost use Rattle.mc_walk.specs.Answers.{Gives};
ghost use Rattle.mc_walk.specs.Blocks.{fault_of, faulted, body_in, known_track, timed, some_opened, opened, tracked, block_element_of};

use crate::movement::Role;
use bytes::Bytes;
use mc_block::{BlockBody, BlockError, Place, block_packets, block_track, group_body, simple_body};
use mc_packet::{Fault, Packets, TrackNo};
use mc_tracks::{Track, TrackList};
use std::alloc::{AllocError, Global};

/// Why a block element gives no packets.
#[derive(Clone, Copy, Debug, PartialEq, Eq)]
pub enum WalkError {
    /// The film is damaged there.
    Fault(Fault),
    /// Memory was wanting.
    NoMemory,
}

impl From<AllocError> for WalkError {
    ghost from_gives = { λ _ e. e ≡ NoMemory };

    fn from(_e: AllocError) -> WalkError {
        WalkError::NoMemory
    }
}

impl From<BlockError> for WalkError {
    ghost use Rattle.mc_packet.specs.Shape.{AreBetween};
    ghost use Rattle.mc_block.specs.Block.{track_of};
    ghost use Rattle.mc_tracks.specs.TrackList.{IsTrackList};
    ghost use Rattle.mc_walk.specs.Answers.{walk_error};

    ghost from_gives = { λ b e. e ≡ walk_error b };

    fn from(e: BlockError) -> WalkError {
        match e {
            BlockError::ShortBlock => WalkError::Fault(Fault::ShortBlock),
            BlockError::BadLace => WalkError::Fault(Fault::BadLace),
            BlockError::TooLarge => WalkError::Fault(Fault::TooLarge),
            BlockError::TimeRange => WalkError::Fault(Fault::TimeRange),
            BlockError::BadGroup => WalkError::Fault(Fault::BadGroup),
            BlockError::NoMemory => WalkError::NoMemory,
        }
    }
}

// The block of an element, which a group may lack.
fn body_of(role: Role, octets: &Bytes) -> Result<Option<BlockBody>, WalkError>
    ensures value { Gives result (faulted (body_in role octets.now)) }
    ensures small { IfOk result (λ found. IfSome found (λ body. length body.octets ≤ 67108864)) }
{
    match role {
        Role::SimpleBlock => Ok(Some(simple_body(octets)?)),
        Role::BlockGroup => Ok(group_body(octets)?),
        Role::Other | Role::Timestamp => Ok(None),
    }
}

/// The track of this number, where it is listed and not encoded.
pub(crate) fn find_known(tracks: &TrackList, no: TrackNo) -> Option<&Track>
    ensures { option_copied result ≡ known_track tracks.now no }
{
    match tracks.get(no) {
        Some(track) if !track.encoded => Some(track),
        _ => None,
    }
}

// The frames of a known track's block, once the Cluster has a time.
fn timed_packets(
    alloc: Global,
    place: u64,
    scale: u64,
    time: Option<u64>,
    body: &BlockBody,
    duration: Option<u64>,
) -> Result<Packets, WalkError>
    ensures value { Gives result (timed place scale time body.now duration) }
    ensures law { (n : ℕ) → track_of body.now.octets ≡ Ok n → 0 < n → n < 2 ^ 56
        → length body.now.octets ≤ 67108864 → IfOk result (AreBetween place (place + 1)) }
{
    let Some(cluster_time) = time else {
        return Err(WalkError::Fault(Fault::NoTime));
    };
    let place = Place {
        pos: place,
        cluster_time,
        scale,
        duration,
    };
    Ok(block_packets(alloc, body, place)?)
}

// The frames of a block; a track that is not known has none.
fn known_packets(
    alloc: Global,
    tracks: &TrackList,
    scale: u64,
    place: u64,
    time: Option<u64>,
    body: &BlockBody,
) -> Result<Packets, WalkError>
    ensures value { Gives result (some_opened tracks.now place scale time body.now) }
    ensures law { IsTrackList tracks.now → length body.now.octets ≤ 67108864
        → IfOk result (AreBetween place (place + 1)) }
{
    let no = block_track(body.octets.as_slice())?;
    match find_known(tracks, no) {
        Some(track) => timed_packets(alloc, place, scale, time, body, track.duration),
        None => Ok(Packets::new(alloc)),
    }
}

/// The packets of the block element at the film's offset `place`, in a Cluster whose time, in
/// units of `scale` nanoseconds, may be known (RFC 9559, sections 5.1.3.4 and 5.1.3.5).
///
/// The faults come in this order: `TooLarge`, `BadGroup`, `ShortBlock` at the track number; a
/// block of a track that is not listed, or encoded, gives no packets; then `NoTime`,
/// `ShortBlock`, `BadLace`, `TimeRange`. Whatever the octets are, the packets are at most 256 of
/// one track, at this place and in order, with payloads of at most 67,108,864 octets together.
#[tactic(auto, unfolding(crate::specs::Blocks::block_element_of))]
pub fn block_element(
    alloc: Global,
    tracks: &TrackList,
    scale: u64,
    place: u64,
    time: Option<u64>,
    role: Role,
    octets: &Bytes,
) -> Result<Packets, WalkError>
    ensures value { Gives result (block_element_of tracks.now scale place time role octets.now) }
    ensures law { IsTrackList tracks.now → IfOk result (AreBetween place (place + 1)) }
{
    match body_of(role, octets)? {
        Some(body) => known_packets(alloc, tracks, scale, place, time, &body),
        None => Ok(Packets::new(alloc)),
    }
}
