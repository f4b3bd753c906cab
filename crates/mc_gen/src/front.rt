ghost use Rattle.std.specs.Prelude.{◌≡◌, ◌++◌, ◌<◌, ◌≤◌, length, IsTrue, OnOk};
ghost use Rattle.mc_ebml.specs.Written.{has_no_zero};
ghost use Rattle.mc_ebml.specs.Ids.{TRACK_ENTRY};
ghost use Rattle.mc_written.specs.Elements.{element_text, elements};
ghost use Rattle.mc_written.specs.Fronts.{front_with};
ghost use Rattle.mc_gen.specs.Made.{made_body, made_elements};

use mc_ebml::{ids, write_element, write_text, write_uint};
use mc_packet::NoMemory;
use mc_written::write_front_with;
use std::alloc::Global;

// A time is in milliseconds: so many nanoseconds.
const SCALE: u64 = 1_000_000;

// Appends the TrackEntry with that number and CodecID.
fn push_entry(alloc: Global, out: &mut Vec<u8>, number: u64, codec: &str) -> Result<(), NoMemory>
    requires text { IsTrue (has_no_zero codec.now) }
    requires short { length codec.now ≤ 65536 }
    requires small { length (elements (made_elements number codec.now)) ≤ 65536 }
    ensures ok { OnOk result (out.new.items
        ≡ out.old.items ++ element_text (TRACK_ENTRY, elements (made_elements number codec.now))) }
{
    let mut body = Vec::new(alloc);
    write_uint(&mut body, ids::TRACK_NUMBER, number)?;
    write_uint(&mut body, ids::TRACK_UID, number)?;
    write_uint(&mut body, ids::TRACK_TYPE, number)?;
    write_text(&mut body, ids::CODEC_ID, codec)?;
    write_element(out, ids::TRACK_ENTRY, body.as_slice())
}

/// Appends what stands before the first Cluster of a generated film.
pub(crate) fn push_front(alloc: Global, out: &mut Vec<u8>) -> Result<(), NoMemory>
    ensures ok { OnOk result (out.new.items ≡ out.old.items ++ front_with 1000000 made_body) }
{
    let mut body = Vec::new(alloc);
    push_entry(alloc, &mut body, 1, "V_VP9")?;
    push_entry(alloc, &mut body, 2, "A_OPUS")?;
    write_front_with(alloc, out, SCALE, body.as_slice())
}
