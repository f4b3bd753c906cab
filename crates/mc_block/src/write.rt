ghost use Rattle.std.specs.Prelude.{◌≡◌, ℤ, Bool, ◌+◌, ◌^◌, ◌<◌, ◌≤◌, ◌++◌, length, OnOk, OnErr, vec_len, vec_capacity};
ghost use Rattle.mc_ebml.specs.Written.{coded_octets};
ghost use Rattle.mc_block.specs.Written.{key_flags, plain_block, simple_block, HasPacket, HasSimpleBlock};

use mc_ebml::{Size, coded_len, head_len, ids, write_coded, write_head};
use mc_packet::{NoMemory, TrackNo};

// The flags of a keyframe, or none.
fn key_flags(key: bool) -> u8
    ensures { result ≡ key_flags key }
{
    if key { 0x80 } else { 0 }
}

// Appends octets.
fn push_octets(out: &mut Vec<u8>, octets: &[u8]) -> Result<(), NoMemory>
    ensures ok { OnOk result (out.new.items ≡ out.old.items ++ octets.now) }
    ensures err { OnErr result (out.new.items ≡ out.old.items) }
    ensures full { OnErr result (vec_capacity out.old < vec_len out.old + length octets.now) }
    ensures capacity { vec_capacity out.old ≤ vec_capacity out.new }
{
    out.extend_from_slice(octets)
}

/// How many octets the body of a plain block takes, whatever its time and flags, so that the size
/// of a Cluster can be told before its blocks are written.
pub fn block_len(track: TrackNo, body: &[u8]) -> usize
    requires track { track < 2 ^ 56 }
    requires size { length body.now ≤ 67108864 }
    ensures parts { result ≡ length (coded_octets track) + 3 + length body.now }
    ensures value { (relative : ℤ) (key : Bool)
        → result ≡ length (plain_block track relative key body.now) }
    ensures small { result < 2 ^ 32 }
{
    coded_len(track) + 3 + body.len()
}

// Appends the octets of a block.
fn push_block(
    out: &mut Vec<u8>,
    track: TrackNo,
    relative: i16,
    key: bool,
    body: &[u8],
) -> Result<(), NoMemory>
    requires track { track < 2 ^ 56 }
    requires size { length body.now ≤ 67108864 }
    ensures ok { OnOk result
        (out.new.items ≡ out.old.items ++ plain_block track relative key body.now) }
    ensures err { OnErr result (out.new.items ≡ out.old.items) }
    ensures full { let block = plain_block track relative key body.now in
        OnErr result (vec_capacity out.old < vec_len out.old + length block) }
    ensures capacity { vec_capacity out.old ≤ vec_capacity out.new }
    ensures packet { OnOk result
        (HasPacket track relative key body.now (plain_block track relative key body.now)) }
{
    let [high, low] = relative.to_be_bytes();
    out.reserve(block_len(track, body))?;
    write_coded(out, track)?;
    push_octets(out, &[high, low, key_flags(key)])?;
    push_octets(out, body)
}

/// Appends an unlaced SimpleBlock (RFC 9559, section 10.2) with that payload: its track number in
/// the fewest octets whose value bits hold it, its time relative to its Cluster, and its flags, of
/// which none but the keyframe's is set. What it appends is read back as that one packet.
///
/// `NoMemory` comes only where the room for it was not there, and leaves the content as it was.
#[tactic(auto, unfolding(mc_ebml::specs::Written::element_octets))]
pub fn write_simple_block(
    out: &mut Vec<u8>,
    track: TrackNo,
    relative: i16,
    key: bool,
    body: &[u8],
) -> Result<(), NoMemory>
    // a number that can be coded, and a payload with which the block is not too large to be written
    requires track { track < 2 ^ 56 }
    requires size { length body.now ≤ 67108864 }
    // what is appended, or nothing where the room is wanting
    ensures ok { OnOk result
        (out.new.items ≡ out.old.items ++ simple_block track relative key body.now) }
    ensures err { OnErr result (out.new.items ≡ out.old.items) }
    ensures full { let block = simple_block track relative key body.now in
        OnErr result (vec_capacity out.old < vec_len out.old + length block) }
    ensures capacity { vec_capacity out.old ≤ vec_capacity out.new }
    // and how it is read back
    ensures reads_back { OnOk result
        (HasSimpleBlock out.old.items out.new.items track relative key body.now) }
{
    let len = block_len(track, body);
    let size = Size::Known(len as u64);
    out.reserve(head_len(ids::SIMPLE_BLOCK, size) + len)?;
    write_head(out, ids::SIMPLE_BLOCK, size)?;
    push_block(out, track, relative, key, body)
}
