ghost use Rattle.std.specs.Prelude.{◌≡◌, ◌++◌, ◌+◌, ◌*◌, ◌^◌, ◌<◌, ◌≤◌, length, IfOk, OnOk};
ghost use Rattle.mc_written.specs.Clusters.{blocks_text};
ghost use Rattle.mc_gen.specs.Generated.{blocks, picture_body};
ghost use Rattle.mc_gen.specs.Rounds.{pictures_text};

use mc_block::write_simple_block;
use mc_packet::{NoMemory, TrackNo};
use std::alloc::Global;

const VIDEO: TrackNo = 1;

const AUDIO: TrackNo = 2;

// What picture i shows.
fn picture_body(alloc: Global, i: u64) -> Result<Vec<u8>, NoMemory>
    ensures octets { IfOk result (λ v. v.items ≡ picture_body i) }
    ensures small { IfOk result (λ v. length v.items ≤ 39) }
{
    let mut body = Vec::new(alloc);
    for j in 0..8 + i % 32 {
        body.push(((i % 256 + j) % 256) as u8)?;
    }
    Ok(body)
}

// Appends the blocks of picture i: it and two sounds, the later one 20 milliseconds behind it.
fn push_picture(alloc: Global, out: &mut Vec<u8>, i: u64) -> Result<(), NoMemory>
    ensures ok { OnOk result (out.new.items ≡ out.old.items ++ blocks_text (blocks i)) }
{
    let body = picture_body(alloc, i)?;
    let sound = [(i % 256) as u8; 4];
    let since = (40 * (i % 12)) as i16;
    let later = (40 * (i % 12) + 20) as i16;
    write_simple_block(out, VIDEO, since, i % 12 == 0, body.as_slice())?;
    write_simple_block(out, AUDIO, since, true, &sound)?;
    write_simple_block(out, AUDIO, later, true, &sound)
}

/// Appends the blocks of so many pictures from `first` on.
pub(crate) fn push_pictures(
    alloc: Global,
    out: &mut Vec<u8>,
    first: u64,
    count: u64,
) -> Result<(), NoMemory>
    requires { first + count < 2 ^ 64 }
    ensures ok { OnOk result (out.new.items ≡ out.old.items ++ pictures_text first count) }
{
    for i in first..first + count {
        push_picture(alloc, out, i)?;
    }
    Ok(())
}
