//! Laws of the walk over any octets, for the crates above.
ghost use Rattle.mc_walk.specs.Again.{PlansHaveShape, WalksAreAgain};

use mc_block::packets_of_blocks;
use mc_tracks::listed_tracks;

/// Each packet of a walk is of a known track and can be written again as a block of its own.
pub fn walked_packets()
    ensures { WalksAreAgain }
{
    packets_of_blocks()
}

/// The scale of a film that is not refused is at least 1, and its tracks are a list of at most 64
/// under numbers of their own.
pub fn opened_films()
    ensures { PlansHaveShape }
{
    listed_tracks()
}
