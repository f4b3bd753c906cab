ghost use Rattle.std.specs.Prelude.{◌≡◌, ◌==◌, nat_le, nat_lt};
ghost use Rattle.mc_journal.specs.Films.{rank};
ghost use Rattle.mc_queue.specs.Places.{weight_of};
ghost use Rattle.mc_queue.specs.Union.{earlier, later};

use mc_packet::{Packet, Pos, weight};

/// A place as a number: its block's offset times 65,536, and its frame.
#[tactic(auto, using(crate::proofs::Rising::rank_is))]
pub fn rank_of(p: Pos) -> u128
    ensures { result ≡ rank p }
{
    p.block as u128 * 65_536 + p.lane as u128
}

/// Whether a place stands before another.
pub fn is_before(p: Pos, cut: Pos) -> bool
    ensures { result ≡ nat_lt (rank p) (rank cut) }
{
    rank_of(p) < rank_of(cut)
}

/// Whether a place stands before another, or at it.
pub fn is_upto(p: Pos, q: Pos) -> bool
    ensures { result ≡ nat_le (rank p) (rank q) }
{
    rank_of(p) <= rank_of(q)
}

pub(crate) fn weight_of(p: &Packet) -> u64
    ensures { result ≡ weight_of p.now }
{
    weight(p)
}

pub(crate) fn is_at(p: Pos, q: Pos) -> bool
    ensures { result ≡ (rank p == rank q) }
{
    rank_of(p) == rank_of(q)
}

/// The earlier of two places.
pub fn earlier(a: Pos, b: Pos) -> Pos
    ensures { result ≡ earlier a b }
{
    if is_upto(a, b) { a } else { b }
}

/// The later of two places.
pub fn later(a: Pos, b: Pos) -> Pos
    ensures { result ≡ later a b }
{
    if is_upto(a, b) { b } else { a }
}
