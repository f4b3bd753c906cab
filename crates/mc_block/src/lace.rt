ghost use Rattle.std.specs.Prelude.{◌≡◌, ◌+◌, ◌-◌, ◌<◌, ◌≤◌, length, sum, nat_le, if◌then◌else◌, Ok, Err, All, IfOk, [], ◌∷◌};
ghost use Rattle.mc_block.specs.declared.error.BlockError.TheVariants.{BadLace};
ghost use Rattle.mc_block.specs.Frames.{lacing_of, is_laced, laced, spans, frames_in, frames_of, LiesIn, FillUp};
ghost use Rattle.mc_block.specs.Block.{Gives};

use crate::error::BlockError;
use crate::parts::FrameSpans;
use crate::sizes::lace_sizes;
use std::alloc::Global;

/// How the frames of a block are laced (RFC 9559, section 10.3).
#[derive(Clone, Copy, Debug, PartialEq, Eq)]
pub(crate) enum Lacing {
    /// One frame, without a lace.
    Single,
    Xiph,
    Fixed,
    Ebml,
}

// The lacing that bits 1 and 2 of the flags tell.
pub(crate) fn lacing_of(flags: u8) -> Lacing
    ensures { result ≡ lacing_of flags }
{
    match flags / 2 % 4 {
        0 => Lacing::Single,
        1 => Lacing::Xiph,
        2 => Lacing::Fixed,
        _ => Lacing::Ebml,
    }
}

/// Whether a block with these flags has a lace (RFC 9559, section 10.1).
pub fn is_laced(flags: u8) -> bool
    ensures { result ≡ is_laced flags }
{
    match lacing_of(flags) {
        Lacing::Single => false,
        Lacing::Xiph | Lacing::Fixed | Lacing::Ebml => true,
    }
}

// Frames of these sizes, one behind another from a place on, and one more up to the end.
fn spans(alloc: Global, sizes: &[u128], at: usize, stop: usize) -> Result<FrameSpans, BlockError>
    requires { at ≤ stop }
    ensures value { Gives result (if nat_le (sum sizes.now) (stop - at)
        then Ok (spans at stop sizes.now) else Err BadLace) }
    ensures lie { IfOk result (All (LiesIn stop)) }
    ensures count { IfOk result (λ frames. length frames ≡ length sizes.now + 1) }
{
    let mut frames = FrameSpans::new(alloc);
    let mut begin = at;
    for size in sizes {
        if *size > (stop - begin) as u128 {
            return Err(BlockError::BadLace);
        }
        let end = begin + *size as usize;
        frames.push((begin, end))?;
        begin = end;
    }
    frames.push((begin, stop))?;
    Ok(frames)
}

// The frames of a lace.
fn laced(alloc: Global, lacing: Lacing, rest: &[u8]) -> Result<FrameSpans, BlockError>
    ensures value { Gives result (laced lacing rest.now) }
    ensures lie { IfOk result (All (LiesIn (length rest.now))) }
    ensures few { IfOk result (λ frames. length frames ≤ 256) }
{
    let [n, octets @ ..] = rest else {
        return Err(BlockError::BadLace);
    };
    let Some((sizes, taken)) = lace_sizes(alloc, lacing, *n, octets)? else {
        return Err(BlockError::BadLace);
    };
    spans(alloc, sizes.as_slice(), 1 + taken, rest.len())
}

// One frame.
fn single(alloc: Global, len: usize) -> Result<FrameSpans, BlockError>
    ensures value { Gives result (Ok ((0, len) ∷ [])) }
    ensures lie { IfOk result (All (LiesIn len)) }
    ensures few { IfOk result (λ frames. length frames ≤ 256) }
{
    let mut frames = FrameSpans::new(alloc);
    frames.push((0, len))?;
    Ok(frames)
}

// The frames of a block of that lacing.
fn frames_in(alloc: Global, lacing: Lacing, rest: &[u8]) -> Result<FrameSpans, BlockError>
    ensures value { Gives result (frames_in lacing rest.now) }
    ensures lie { IfOk result (All (LiesIn (length rest.now))) }
    ensures few { IfOk result (λ frames. length frames ≤ 256) }
{
    match lacing {
        Lacing::Single => single(alloc, rest.len()),
        _ => laced(alloc, lacing, rest),
    }
}

/// The frames of a block with these flags, in what stands behind them (RFC 9559, section 10.3):
/// each begins where the one before it ends, and the last ends where the block does. There are at
/// most 256.
///
/// `BadLace` exactly where the number of frames or a size does not stand whole, a coded number
/// begins with octet 0, the first size of an EBML lace is all ones, a size is negative, the sizes
/// exceed what is left for the frames, or frames of one size do not fill it. Memory alone is the
/// other refusal.
#[tactic(auto, unfolding(crate::specs::Frames::frames_of))]
pub fn frames(alloc: Global, flags: u8, rest: &[u8]) -> Result<FrameSpans, BlockError>
    ensures value { Gives result (frames_of flags rest.now) }
    ensures fill { IfOk result (FillUp (length rest.now)) }
    ensures lie { IfOk result (All (LiesIn (length rest.now))) }
    ensures few { IfOk result (λ frames. length frames ≤ 256) }
{
    frames_in(alloc, lacing_of(flags), rest)
}
