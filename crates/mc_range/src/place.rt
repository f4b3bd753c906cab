ghost use Rattle.std.specs.Prelude.{◌≡◌, ◌==◌};
ghost use Rattle.mc_journal.specs.Films.{first_lane, rank};
ghost use Rattle.mc_range.specs.Range.{place_at};

use mc_packet::Pos;
use mc_queue::rank_of;

pub(crate) fn is_start(p: Pos) -> bool
    ensures { result ≡ (rank p == 0) }
{
    rank_of(p) == 0
}

/// The place of frame 0 of a block.
pub(crate) fn place_at(block: u64) -> Pos
    ensures { result ≡ place_at block }
{
    Pos { block, lane: 0 }
}

/// The same, told as a number.
#[tactic(auto, using(crate::proofs::Places::same_lane))]
pub(crate) fn first_lane(block: u64) -> Pos
    ensures { rank result ≡ first_lane block }
{
    place_at(block)
}
