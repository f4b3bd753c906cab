ghost use Rattle.std.specs.Prelude.{◌≡◌, ◌<◌, ◌^◌, ℤ, nat_lt, IfSome, position, find, vec_capacity};
ghost use Rattle.mc_range.specs.Range.{meets_range};
ghost use Rattle.mc_cache.specs.Cache.{IsOther, count_of, holds, weight_of, without_first};
ghost use Rattle.mc_cache.specs.Changing.{serves};

use mc_packet::{Choice, Dir};
use mc_range::Range;

/// Whether a range holds a packet.
pub(crate) fn holds(range: &Range) -> bool
    ensures { result ≡ holds range.now }
{
    range.packets() > 0
}

fn serves(range: &Range, set: Choice, t: i64, dir: Dir) -> bool
    ensures { result ≡ serves set t dir range.now }
{
    range.serves(set, t, dir).is_some()
}

/// The place of the first range that serves a seek.
pub(crate) fn first_serving(ranges: &[Range], set: Choice, t: i64, dir: Dir) -> Option<usize>
    ensures { result ≡ position (serves set t dir) ranges.now }
{
    ranges.iter().position(|range| serves(range, set, t, dir))
}

/// The place of the first range that touches another.
pub(crate) fn first_touching(range: &Range, others: &[Range]) -> Option<usize>
    ensures { result ≡ position (meets_range range.now) others.now }
{
    others.iter().position(|other| range.touches(other))
}

/// Takes the first range that serves a seek out of others.
pub(crate) fn take_serving(others: &mut Vec<Range>, set: Choice, t: i64, dir: Dir) -> Option<Range>
    ensures found { result ≡ find (serves set t dir) others.old.items }
    ensures left { others.new.items ≡ without_first (serves set t dir) others.old.items }
    ensures room { vec_capacity others.new ≡ vec_capacity others.old }
{
    let at = first_serving(others.as_slice(), set, t, dir)?;
    Some(others.remove(at))
}

/// Takes the first range that touches another one out of those beside it.
pub(crate) fn take_touching(range: &Range, others: &mut Vec<Range>) -> Option<Range>
    ensures found { result ≡ find (meets_range range.now) others.old.items }
    ensures left { others.new.items ≡ without_first (meets_range range.now) others.old.items }
    ensures room { vec_capacity others.new ≡ vec_capacity others.old }
{
    let at = first_touching(range, others.as_slice())?;
    Some(others.remove(at))
}

/// The number of all packets.
#[tactic(auto, using(crate::proofs::Lists::count_more, crate::proofs::Lists::count_next))]
pub(crate) fn count_all(ranges: &[Range]) -> u64
    requires { weight_of ranges.now < 2 ^ 64 }
    ensures { result ≡ count_of ranges.now }
{
    let mut count = 0;
    for range in ranges {
        count += range.packets();
    }
    count
}

/// The weight of all packets.
#[tactic(auto, using(crate::proofs::Lists::weight_more, crate::proofs::Lists::weight_next))]
pub(crate) fn weight_all(ranges: &[Range]) -> u128
    requires { weight_of ranges.now < 2 ^ 64 }
    ensures { result ≡ weight_of ranges.now }
{
    let mut weight = 0;
    for range in ranges {
        weight += range.weight();
    }
    weight
}
