ghost use Rattle.std.specs.Prelude.{◌≡◌, ◌+◌, ◌*◌, ◌^◌, ◌<◌, ◌≤◌, pos, neg_ℤ, ◌≤ℤ◌, ◌*ℤ◌, ◌+ℤ◌, Some, None, unwrap_or, if◌then◌else◌, FitsSigned};
ghost use Rattle.std.specs.Int.{w128};
ghost use Rattle.std.specs.Option.{SomeIff};
ghost use Rattle.mc_block.specs.Block.{time_of, in_range};

use crate::parts::{BlockHead, Place};

const LIMIT: i128 = 1 << 62;

// How many units of the scale a block is from the film's start.
fn units(place: &Place, head: BlockHead) -> i128
    ensures { result ≡ pos place.now.cluster_time +ℤ head.relative }
{
    place.cluster_time as i128 + head.relative as i128
}

// How far a frame is from its block.
#[tactic(auto, using(crate::proofs::FarTimes::small_offset))]
fn offset(duration: Option<u64>, lane: u16) -> i128
    ensures value { result ≡ pos (lane * unwrap_or duration 0) }
    ensures small { lane * unwrap_or duration 0 < 2 ^ 80 }
{
    lane as i128 * duration.unwrap_or(0) as i128
}

// A time of a packet, where it is in range.
fn limited(time: i128) -> Option<i64>
    ensures { result ≡ (if in_range time then Some time else None) }
{
    if time < -LIMIT || time > LIMIT {
        None
    } else {
        Some(time as i64)
    }
}

// How far a block is from the film's start, where that fits.
fn start(place: &Place, head: BlockHead) -> Option<i128>
    ensures { let time = (pos place.now.cluster_time +ℤ head.relative) *ℤ pos place.now.scale in
        SomeIff result (FitsSigned w128 time) time }
{
    units(place, head).checked_mul(place.scale as i128)
}

/// The time in nanoseconds of a block's frame, counted from 0, where it lies within plus or minus
/// 2^62: the block's relative time is added to that of its Cluster, and a DefaultDuration for each
/// frame before it (RFC 9559, section 11.2).
#[tactic(auto, using(crate::proofs::FarTimes::too_far))]
pub fn frame_time(place: &Place, head: BlockHead, lane: u16) -> Option<i64>
    ensures { result ≡ time_of place.now head.relative lane }
{
    let offset = offset(place.duration, lane);
    let time = start(place, head)?.checked_add(offset)?;
    limited(time)
}
