ghost use Rattle.std.specs.Prelude.{◌≡◌, ◌++◌, ◌*◌, ◌^◌, ◌<◌, ◌≤◌, List, length, IfOk, OnOk};
ghost use Rattle.mc_written.specs.Clusters.{Block, blocks_text, cluster};
ghost use Rattle.mc_written.specs.Elements.{element_text};
ghost use Rattle.mc_gen.specs.Generated.{cluster_at};
ghost use Rattle.mc_gen.specs.Rounds.{whole_text, IsRound};

use crate::pictures::push_pictures;
use mc_packet::NoMemory;
use mc_written::write_cluster_head;
use std::alloc::Global;

// How many pictures a whole Cluster has.
const PICTURES: u64 = 12;

// How many whole Clusters there are until their blocks come again: what a picture's blocks are
// depends on its place in its Cluster, and on its number up to multiples of 32 and 256.
const ROUND: u64 = 64;

/// Makes the blocks of the first whole Clusters, of which those of all others are copies.
pub(crate) fn round(alloc: Global) -> Result<Vec<Vec<u8>>, NoMemory>
    ensures { IfOk result (λ r. IsRound r.items) }
{
    let mut round = Vec::new(alloc);
    for k in 0..ROUND {
        let mut blocks = Vec::new(alloc);
        push_pictures(alloc, &mut blocks, PICTURES * k, PICTURES)?;
        round.push(blocks)?;
    }
    Ok(round)
}

// The blocks of whole Cluster k.
fn whole(round: &[Vec<u8>], k: u64) -> &[u8]
    requires { IsRound round.now }
    ensures { result.now ≡ whole_text k }
{
    round[(k % ROUND) as usize].as_slice()
}

// Appends the Cluster of that time, in milliseconds, with these blocks.
fn push_blocks(out: &mut Vec<u8>, time: u64, blocks: &[u8]) -> Result<(), NoMemory>
    requires { length blocks.now < 2 ^ 48 }
    ensures ok { OnOk result ((each : List Block) → blocks_text each ≡ blocks.now
        → out.new.items
        ≡ out.old.items ++ element_text (cluster (record { time = time; blocks = each }))) }
{
    write_cluster_head(out, time, blocks.len() as u64)?;
    out.extend_from_slice(blocks)
}

/// Appends Cluster k of the film of n pictures.
pub(crate) fn push_cluster(
    alloc: Global,
    out: &mut Vec<u8>,
    round: &[Vec<u8>],
    n: u64,
    k: u64,
) -> Result<(), NoMemory>
    requires few { n < 2 ^ 32 }
    requires begun { 12 * k < n }
    requires round { IsRound round.now }
    ensures ok { OnOk result
        (out.new.items ≡ out.old.items ++ element_text (cluster (cluster_at n (12 * k)))) }
{
    let first = PICTURES * k;
    let left = n - first;
    if left >= PICTURES {
        return push_blocks(out, 40 * first, whole(round, k));
    }
    let mut blocks = Vec::new(alloc);
    push_pictures(alloc, &mut blocks, first, left)?;
    push_blocks(out, 40 * first, blocks.as_slice())
}
