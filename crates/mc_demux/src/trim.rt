//! Drops that keep the octets behind the readers within their limit.
ghost use Rattle.std.specs.Prelude.{◌≤◌, ◌+◌, vec_len, vec_capacity};
ghost use Rattle.mc_cache.specs.Cache.{IsCache, count_of, ranges_of};
ghost use Rattle.mc_cache.specs.Pruning.{back_of};
ghost use Rattle.mc_calls.specs.Trimming.{Trims};

use crate::demux::Records;
use mc_cache::Cache;
use mc_journal::DemuxRecord;
use mc_packet::Heads;

// Drops packets as long as the octets behind the readers are more than the limit, and tells each
// drop. The journal has room for them and two records more.
pub(crate) fn trim(by: u32, cache: &mut Cache, heads: &Heads, journal: &mut Records)
    requires room { vec_len journal.old + count_of (ranges_of cache.old) + 2
        ≤ vec_capacity journal.old }
    ensures value { Trims by heads.now cache.old journal.old.items cache.new journal.new.items }
    ensures within { back_of heads.now cache.new ≤ cache.new.limits.back }
    ensures room { vec_len journal.new + 2 ≤ vec_capacity journal.new }
    ensures cache { IsCache cache.new }
{
    cache.look_from(heads);
    while let Some(drop) = cache.prune(heads) {
        journal.push_reserved(DemuxRecord::Dropped { by, drop });
    }
}
