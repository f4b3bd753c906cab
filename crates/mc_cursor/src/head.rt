ghost use Rattle.std.specs.Prelude.{◌≡◌};

use mc_packet::{Ending, Mark};
use mc_walk::BlockMark;

/// A part of a film from one mark to the next, as `Chunk`, with the first packet of its block
/// element in short. `block` is `None` exactly where the part has no packet.
#[derive(Clone, Copy, Debug, PartialEq, Eq)]
pub struct HeadChunk {
    /// The mark from which the part was read.
    pub from: Mark,
    /// The mark just past its block element, or at the film's ending.
    pub to: Mark,
    /// The first packet of its block element in short, where it has one.
    pub block: Option<BlockMark>,
    /// How the film ends, where the part came to its end.
    pub ending: Option<Ending>,
}
