ghost use Rattle.std.specs.Prelude.{◌≡◌, ◌++◌, ◌+◌, ◌-◌, ◌<◌, ◌≤◌, ◌^◌, List, length, OnOk};
ghost use Rattle.mc_block.specs.Written.{key_flags, simple_block};
ghost use Rattle.mc_written.specs.Clusters.{Block, Cluster, blocks_text, cluster};
ghost use Rattle.mc_written.specs.Elements.{element_text};

use mc_block::block_len;
use mc_ebml::{Size, ids, uint_len, write_coded, write_head, write_uint};
use mc_packet::{NoMemory, TrackNo};

/// Appends the head of a Cluster (RFC 9559, section 5.1.3) and its Timestamp, in units of the film's
/// scale. Behind these belong its blocks, which take `size` octets together.
///
/// At `NoMemory` what was appended is left open.
#[tactic(auto, unfolding(mc_ebml::specs::Written::element_octets))]
pub fn write_cluster_head(out: &mut Vec<u8>, time: u64, size: u64) -> Result<(), NoMemory>
    requires { size < 2 ^ 48 }
    ensures ok { OnOk result ((blocks : List Block) → length (blocks_text blocks) ≡ size
        → out.new.items ++ blocks_text blocks
        ≡ out.old.items ++ element_text (cluster (record { time = time; blocks = blocks }))) }
{
    let stamp = uint_len(ids::TIMESTAMP, time) as u64;
    write_head(out, ids::CLUSTER, Size::Known(stamp + size))?;
    write_uint(out, ids::TIMESTAMP, time)
}

// The flags of a keyframe, or none.
fn key_flags(key: bool) -> u8
    ensures { result ≡ key_flags key }
{
    if key { 0x80 } else { 0 }
}

/// Appends an unlaced SimpleBlock (RFC 9559, section 10.2) up to its payload, `body`, which belongs
/// behind it: so a payload can be written from where it lies.
///
/// At `NoMemory` what was appended is left open.
#[tactic(auto, unfolding(mc_ebml::specs::Written::element_octets))]
pub fn write_block_head(
    out: &mut Vec<u8>,
    track: TrackNo,
    relative: i16,
    key: bool,
    body: &[u8],
) -> Result<(), NoMemory>
    requires track { track < 2 ^ 56 }
    requires size { length body.now ≤ 67108864 }
    ensures ok { OnOk result (out.new.items ++ body.now
        ≡ out.old.items ++ simple_block track relative key body.now) }
{
    let [high, low] = relative.to_be_bytes();
    write_head(
        out,
        ids::SIMPLE_BLOCK,
        Size::Known(block_len(track, body) as u64),
    )?;
    write_coded(out, track)?;
    out.extend_from_slice(&[high, low, key_flags(key)])
}
