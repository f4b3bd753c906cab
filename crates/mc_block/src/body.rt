ghost use Rattle.std.specs.Prelude.{◌≡◌, ◌+◌, ◌^◌, ◌<◌, ◌≤◌, length, drop, IfOk};
ghost use Rattle.mc_block.specs.Block.{Gives, number_of, track_of, behind_track, head_of, simple_body_of};
ghost use Rattle.mc_ebml.specs.Element.{coded_at};

use crate::error::BlockError;
use crate::parts::{BlockBody, BlockHead};
use bytes::Bytes;
use mc_ebml::{Coded, read_coded};
use mc_packet::{LARGEST_BLOCK, TrackNo};

// The track number, which may be all ones.
fn read_number(octets: &[u8]) -> Result<Coded, BlockError>
    ensures value { result ≡ number_of (coded_at octets.now 0) }
    ensures bounds { IfOk result (λ n. (1 ≤ n.width) × (n.width ≤ length octets.now)) }
    ensures small { IfOk result (λ n. n.value < 2 ^ 56) }
{
    match read_coded(octets, 0) {
        Ok(number) => Ok(number),
        Err(_) => Err(BlockError::ShortBlock),
    }
}

/// The head of a block (RFC 9559, sections 10.1 and 10.2), which begins its octets: its track
/// number, coded like a size, where all ones are a number too; its time relative to its Cluster;
/// and its flags.
///
/// `ShortBlock` exactly where these do not stand whole, or the track number begins with octet 0.
#[tactic(auto, unfolding(crate::specs::Block::head_of))]
pub fn block_head(body: &[u8]) -> Result<BlockHead, BlockError>
    ensures value { result ≡ head_of body.now }
    ensures bounds { IfOk result (λ h. h.at ≤ length body.now) }
    ensures small { IfOk result (λ h. h.track < 2 ^ 56) }
{
    let number = read_number(body)?;
    let (_, rest) = body.split_at(number.width);
    let [high, low, flags, ..] = rest else {
        return Err(BlockError::ShortBlock);
    };
    Ok(BlockHead {
        track: number.value,
        relative: i16::from_be_bytes([*high, *low]),
        flags: *flags,
        at: number.width + 3,
    })
}

/// The track number with which a block's octets begin, before anything else of them is looked at.
///
/// `ShortBlock` exactly where it does not stand whole or begins with octet 0.
#[tactic(auto, unfolding(crate::specs::Block::track_of))]
pub fn block_track(octets: &[u8]) -> Result<TrackNo, BlockError>
    ensures value { result ≡ track_of octets.now }
    ensures small { IfOk result (λ n. n < 2 ^ 56) }
{
    let number = read_number(octets)?;
    Ok(number.value)
}

/// The block of a SimpleBlock (RFC 9559, section 5.1.3.4), whose octets are the element's body.
/// Its flags tell whether it is a keyframe.
///
/// `TooLarge` exactly where the body has more than 67,108,864 octets; it may give `NoMemory`.
pub fn simple_body(body: &Bytes) -> Result<BlockBody, BlockError>
    ensures value { Gives result (simple_body_of body.now) }
    ensures small { IfOk result (λ block. length block.octets ≤ 67108864) }
{
    if body.len() as u64 > LARGEST_BLOCK {
        return Err(BlockError::TooLarge);
    }
    Ok(BlockBody {
        octets: body.clone()?,
        keyframe: None,
    })
}
