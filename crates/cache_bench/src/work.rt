ghost use Rattle.std.specs.Prelude.{◌≡◌, ◌≤◌, ◌<◌, IsSomeAnd, IfOk, IfSome};
ghost use Rattle.mc_packet.specs.Shape.{HasShape};
ghost use Rattle.mc_queue.specs.Places.{weights};
ghost use Rattle.mc_cache.specs.Cache.{ranges_of, weight_of};

use crate::film::{FAR_STARTS, LAST, OPENING, STARTS, TRACKS, VIDEO, part, time_of};
use mc_cache::{Cache, NoMemory};
use mc_packet::{Chunk, Dir, Heads, Limits, Pos};
use std::alloc::Global;

// More than all packets of a run weigh.
const MOST: u128 = 0x4000_0000_0000_0000;

// What is cached behind the readers and in other ranges is kept where it has so many octets at most.
fn limits(back: u64) -> Limits {
    Limits {
        forward: 0x1_0000_0000,
        back,
        readahead: 0,
    }
}

/// A cache whose current range begins where the film does, with its limit behind the readers.
pub fn begin(alloc: Global, back: u64) -> Result<Cache, NoMemory> {
    let mut cache = Cache::new(alloc, limits(back));
    cache.make_room_to_start(TRACKS, &STARTS)?;
    let _none = cache.start_range(TRACKS, &STARTS)?;
    Ok(cache)
}

/// Leaves the current range and begins another, far behind it.
pub fn begin_far(cache: &mut Cache) -> Result<(), NoMemory> {
    cache.leave_current();
    cache.make_room_to_start(TRACKS, &FAR_STARTS)?;
    let _none = cache.start_range(TRACKS, &FAR_STARTS)?;
    Ok(())
}

// At least the weight of all packets.
fn weight(cache: &Cache) -> u128
    ensures most { weight_of (ranges_of cache.now) ≤ result }
{
    cache.forward(&OPENING) as u128 + cache.back(&OPENING) as u128
}

// The next part of the film, for which the cache has room.
#[tactic(auto, using(crate::proofs::Parts::still_marked))]
fn ready(alloc: Global, cache: &mut Cache, number: u32) -> Result<Option<Chunk>, NoMemory>
    ensures shape { IfOk result (λ part. IfSome part HasShape) }
    ensures light { IfOk result (λ part. IfSome part (λ c. weights c.packets < 1000)) }
    ensures next { IfOk result
        (λ part. IfSome part (λ c. IsSomeAnd cache.new.current (λ r. c.from ≡ r.mark))) }
{
    let Some(mark) = cache.mark() else {
        return Ok(None);
    };
    if mark.pos >= LAST {
        return Ok(None);
    }
    let chunk = part(alloc, mark, number)?;
    cache.make_room_to_feed(&chunk)?;
    Ok(Some(chunk))
}

// Feeds the next part and prunes, which drops nothing: the readers are at the film's beginning.
fn feed_one(alloc: Global, cache: &mut Cache, number: u32) -> Result<bool, NoMemory> {
    let Some(chunk) = ready(alloc, cache, number)? else {
        return Ok(false);
    };
    if weight(cache) > MOST {
        return Ok(false);
    }
    let _track = cache.feed(chunk)?;
    Ok(cache.prune(&OPENING).is_none())
}

/// Feeds the packets with these numbers, each in a part of its own, and prunes behind each. Answers
/// how many were fed: all, unless the cache can take no more.
pub fn feed(alloc: Global, cache: &mut Cache, first: u32, count: u32) -> Result<u32, NoMemory>
    ensures within { IfOk result (λ n. n ≤ count) }
{
    for number in 0..count {
        if !feed_one(alloc, cache, first.wrapping_add(number))? {
            return Ok(number);
        }
    }
    Ok(count)
}

/// Reads packets of the video track one after the other, so many at most. Answers how many there were.
pub fn read(cache: &Cache, count: u32) -> u32
    ensures within { result ≤ count }
{
    let mut place = Pos { block: 0, lane: 0 };
    for number in 0..count {
        let Some(packet) = cache.first_at(VIDEO, place) else {
            return number;
        };
        place = Pos {
            block: packet.pos.block.saturating_add(1),
            lane: 0,
        };
    }
    count
}

// The packet to whose time a seek goes, here and there in a film of so many packets, but not in its
// last second.
fn goal(seek: u32, packets: u32) -> u32
    requires some { 100 < packets }
{
    ((seek as u64 * 611_953) % (packets - 100) as u64) as u32
}

/// Seeks so often in a film of so many packets, and answers how many seeks were served: all, or those
/// before the first that was not.
pub fn seek(cache: &mut Cache, packets: u32, seeks: u32, dir: Dir) -> u32
    ensures within { result ≤ seeks }
{
    if packets <= 100 {
        return 0;
    }
    for seek in 0..seeks {
        let t = time_of(goal(seek, packets));
        if cache.choose(TRACKS, t, dir).is_none() {
            return seek;
        }
    }
    seeks
}

/// Seeks so often in two ranges of so many packets each, into the one and the other in turn. Answers as
/// `seek` does.
pub fn seek_between(cache: &mut Cache, half: u32, seeks: u32) -> u32
    ensures within { result ≤ seeks }
{
    if half <= 100 {
        return 0;
    }
    for seek in 0..seeks {
        let begin = if seek % 2 == 0 { 0 } else { half };
        let t = time_of(goal(seek, half).wrapping_add(begin));
        if cache.choose(TRACKS, t, Dir::Back).is_none() {
            return seek;
        }
    }
    seeks
}

/// Seeks as `seek` does, and lets the cache look from where each seek leads.
pub fn seek_and_look(cache: &mut Cache, packets: u32, seeks: u32) -> u32
    ensures within { result ≤ seeks }
{
    if packets <= 100 {
        return 0;
    }
    for seek in 0..seeks {
        let t = time_of(goal(seek, packets));
        match cache.choose(TRACKS, t, Dir::Back) {
            Some(heads) => cache.look_from(&heads),
            None => return seek,
        }
    }
    seeks
}

/// Puts the readers at the end of the current range, and prunes until nothing is to go. Answers how
/// many drops that took.
pub fn prune_all(cache: &mut Cache) -> u64 {
    let Some(mark) = cache.mark() else {
        return 0;
    };
    let end = Some(Pos {
        block: mark.pos,
        lane: 0,
    });
    let heads = Heads {
        video: end,
        audio: end,
        sub: None,
    };
    for drops in 0..u64::MAX {
        if cache.prune(&heads).is_none() {
            return drops;
        }
    }
    u64::MAX
}
