ghost use Rattle.std.specs.Prelude.{◌≡◌, ◌+◌, ◌<◌, ◌^◌, length, IfOk};
ghost use Rattle.mc_tracks.specs.Answer.{answer};
ghost use Rattle.mc_tracks.specs.Header.{positive_scale, info_of};

use crate::children::Master;
use crate::fields::{check_children, find_integer};
use crate::refused::{Refused, TracksError};
use mc_ebml::ids;

/// The TimestampScale, in nanoseconds, of an Info whose body begins at the offset `at` of the file
/// (RFC 9559, section 5.1.2.9); without one it is 1,000,000.
///
/// `Broken` with the offset of the first child that has a bad head, has no size, runs past the
/// body's end, or is a TimestampScale of more than 8 octets; then `ScaleZero`. It takes no memory.
pub fn parse_info(body: &[u8], at: u64) -> Result<u64, TracksError>
    requires { at + length body.now < 2 ^ 64 }
    ensures value { result ≡ answer (info_of body.now at) }
    ensures positive { IfOk result (λ scale. 0 < scale) }
{
    Ok(read_scale(body, at)?)
}

#[tactic(auto, unfolding(crate::specs::Header::info_of))]
fn read_scale(body: &[u8], at: u64) -> Result<u64, Refused>
    requires { at + length body.now < 2 ^ 64 }
    ensures value { result ≡ info_of body.now at }
    ensures positive { IfOk result (λ scale. 0 < scale) }
{
    check_children(Master::Info, body, at)?;
    let scale = find_integer(Master::Info, body, ids::TIMESTAMP_SCALE, 1_000_000);
    if scale == 0 {
        return Err(Refused::ScaleZero);
    }
    Ok(scale)
}
