//! The fields of the player's facts, as bits of a mask.

ghost use Rattle.std.specs.Prelude.{◌≡◌, ◌<◌};
ghost use Rattle.mc_props.specs.Fields.{both_have, has_field, share_field};

/// Whether the player is paused.
pub const PAUSE: u32 = 1;
/// Whether its sound is off.
pub const MUTE: u32 = 2;
/// The file: its path, its tracks, and whether one is loaded.
pub const FILE: u32 = 4;
/// The selected tracks.
pub const SELECTION: u32 = 8;
/// The view of the demuxer's cache.
pub const CACHE: u32 = 16;

/// Whether two masks have a field in common.
pub fn share_field(mask: u32, other: u32) -> bool
    ensures { result ≡ share_field mask other }
{
    both_have(mask, other, PAUSE)
        || both_have(mask, other, MUTE)
        || both_have(mask, other, FILE)
        || both_have(mask, other, SELECTION)
        || both_have(mask, other, CACHE)
}

fn both_have(mask: u32, other: u32, bit: u32) -> bool
    requires { 0 < bit }
    ensures { result ≡ both_have mask other bit }
{
    has_field(mask, bit) && has_field(other, bit)
}

fn has_field(mask: u32, bit: u32) -> bool
    requires { 0 < bit }
    ensures { result ≡ has_field mask bit }
{
    mask / bit % 2 == 1
}
