ghost use Rattle.std.specs.Prelude.{◌≡◌, ◌≤◌, ◌<◌, ◌+◌, ◌^◌, true, [], vec_capacity, IfOk, IfSome, OnErr, OnOk, position};
ghost use Rattle.mc_packet.specs.Choices.{AreAtMark, is_distinct};
ghost use Rattle.mc_range.specs.Range.{IsRange, IsRoomier};
ghost use Rattle.mc_cache.specs.Cache.{IsReady, in_front, weight_of};
ghost use Rattle.mc_cache.specs.Changing.{RoomierIn};
ghost use Rattle.mc_cache.specs.Rooms.{HasRoomFor, HasSpareFor, MayTake, count_at_all, longer, longer_spans, meets_any, meets_in, meets_then, meets_then_in};

use crate::listing::first_touching;
use crate::prepared::{Prepared, is_same_set};
use mc_journal::Removal;
use mc_packet::{Choice, NoMemory, Pos, Spans, Starts, TrackNo};
use mc_queue::later;
use mc_range::{Range, spans_touch};
use std::alloc::Global;

/// Whether another range touches this one, if there is one.
#[tactic(auto, using(crate::proofs::Lists::any_place))]
pub(crate) fn touches_any(range: &Option<Range>, others: &[Range]) -> bool
    ensures { result ≡ meets_in range.now others.now }
{
    match range {
        Some(range) => first_touching(range, others).is_some(),
        None => false,
    }
}

/// How many packets of a track the ranges hold.
#[tactic(auto, using(crate::proofs::Spare::count_next, crate::proofs::Spare::count_fits))]
fn count_at(ranges: &[Range], track: TrackNo) -> u64
    requires { weight_of ranges.now < 2 ^ 64 }
    ensures value { result ≡ count_at_all track ranges.now }
    ensures few { result < 2 ^ 60 }
{
    let mut count = 0;
    for range in ranges {
        count += range.len(track);
    }
    count
}

fn count_front(range: &Option<Range>, track: TrackNo) -> u64
    ensures value { result ≡ count_at_all track (in_front range.now []) }
{
    match range {
        Some(range) => range.len(track),
        None => 0,
    }
}

#[tactic(auto, using(crate::proofs::Spare::front_parts, crate::proofs::Spare::front_fits, crate::proofs::Lists::others_light))]
fn count_all_at(front: &Option<Range>, others: &[Range], track: TrackNo) -> u64
    requires { weight_of (in_front front.now others.now) < 2 ^ 64 }
    ensures value { result ≡ count_at_all track (in_front front.now others.now) }
    ensures few { result < 2 ^ 60 }
{
    let ahead = count_front(front, track);
    ahead + count_at(others, track)
}

fn reserve_track(
    range: &mut Range,
    track: Option<TrackNo>,
    front: &Option<Range>,
    others: &[Range],
    more: u64,
) -> Result<(), NoMemory>
    requires fits { weight_of (in_front front.now others.now) < 2 ^ 64 }
    requires few { more < 2 ^ 60 }
    ensures same { IsRoomier range.old range.new }
    ensures ok { OnOk result
        (HasSpareFor (in_front front.now others.now) more range.new.queues track) }
    ensures within { OnErr result
        (HasSpareFor (in_front front.now others.now) more range.old.queues track → ⊥) }
    ensures range { IsRange range.new }
{
    match track {
        Some(track) => range.reserve(track, more + count_all_at(front, others, track)),
        None => {
            let _mark = range.mark();
            Ok(())
        }
    }
}

/// Makes room in each queue of a range for all packets of its track that others hold, and for so many
/// more.
#[tactic(auto, using(crate::proofs::Spare::spare_kept, crate::proofs::Spare::roomier_on))]
pub(crate) fn reserve_for(
    range: &mut Range,
    front: &Option<Range>,
    others: &[Range],
    more: u64,
) -> Result<(), NoMemory>
    requires fits { weight_of (in_front front.now others.now) < 2 ^ 64 }
    requires few { more < 2 ^ 60 }
    ensures same { IsRoomier range.old range.new }
    ensures ok { OnOk result (HasRoomFor (in_front front.now others.now) more range.new) }
    ensures within { OnErr result (HasRoomFor (in_front front.now others.now) more range.old → ⊥) }
    ensures range { IsRange range.new }
{
    let set = range.set();
    reserve_track(range, set.video, front, others, more)?;
    reserve_track(range, set.audio, front, others, more)?;
    reserve_track(range, set.sub, front, others, more)
}

pub(crate) fn reserve_in(
    range: &mut Option<Range>,
    others: &[Range],
    more: u64,
) -> Result<(), NoMemory>
    requires fits { weight_of others.now < 2 ^ 64 }
    requires few { more < 2 ^ 60 }
    ensures same { RoomierIn range.old range.new }
    ensures ok { OnOk result (IfSome range.new (λ r. HasRoomFor others.now more r)) }
    ensures within { OnErr result (IfSome range.old (λ r. HasRoomFor others.now more r) → ⊥) }
    ensures range { IfSome range.new IsRange }
{
    match range {
        Some(range) => reserve_for(range, &None, others, more),
        None => Ok(()),
    }
}

// ---- what will be touched

fn longer(upto: Pos, span: Option<(Pos, Pos)>) -> Option<(Pos, Pos)>
    ensures { result ≡ longer upto span }
{
    match span {
        Some((from, to)) => Some((from, later(to, upto))),
        None => None,
    }
}

fn longer_spans(upto: Pos, spans: Spans) -> Spans
    ensures { result ≡ longer_spans upto spans }
{
    Spans {
        video: longer(upto, spans.video),
        audio: longer(upto, spans.audio),
        sub: longer(upto, spans.sub),
    }
}

fn meets_then(upto: Pos, range: &Range, other: &Range) -> bool
    ensures { result ≡ meets_then upto range.now other.now }
{
    let spans = longer_spans(upto, range.spans());
    is_same_set(range.set(), other.set()) && spans_touch(range.set(), &spans, &other.spans())
}

fn first_met(upto: Pos, range: &Range, others: &[Range]) -> Option<usize>
    ensures { result ≡ position (meets_then upto range.now) others.now }
{
    others
        .iter()
        .position(|other| meets_then(upto, range, other))
}

/// Whether the current range touches another once it is read on up to a place.
#[tactic(auto, using(crate::proofs::Lists::any_place))]
pub(crate) fn touches_then(upto: Pos, range: &Option<Range>, others: &[Range]) -> bool
    ensures { result ≡ meets_then_in upto range.now others.now }
{
    match range {
        Some(range) => first_met(upto, range, others).is_some(),
        None => false,
    }
}

// ---- a range that is held ready

/// Whether one of the ranges touches this one.
#[tactic(auto, using(crate::proofs::Lists::any_place))]
fn touches_one(range: &Range, front: &Option<Range>, others: &[Range]) -> bool
    ensures { result ≡ meets_any range.now (in_front front.now others.now) }
{
    let is_ahead = match front {
        Some(other) => range.touches(other),
        None => false,
    };
    is_ahead || first_touching(range, others).is_some()
}

/// A new range with its starts. Where others touch it, it has room for what they hold, and there is
/// room to tell of those that differ.
#[tactic(auto, using(crate::proofs::Started::may_take, crate::proofs::Started::never_takes, crate::proofs::Started::begun_kept))]
pub(crate) fn make_ready(
    alloc: Global,
    set: Choice,
    starts: &Starts,
    front: &Option<Range>,
    others: &[Range],
    drops: &mut Vec<Removal>,
) -> Result<Prepared, NoMemory>
    requires distinct { is_distinct set ≡ true }
    requires at_mark { AreAtMark starts.now }
    requires fits { weight_of (in_front front.now others.now) < 2 ^ 64 }
    ensures starts { IfOk result (λ p. p.starts ≡ starts.now) }
    ensures set { IfOk result (λ p. p.range.set ≡ set) }
    ensures room { IfOk result
        (λ p. MayTake (vec_capacity drops.new) (in_front front.now others.now) p.range) }
    ensures ready { IfOk result IsReady }
    ensures kept { vec_capacity drops.old ≤ vec_capacity drops.new }
{
    let mut range = Range::new(alloc, set, starts);
    if touches_one(&range, front, others) {
        drops.clear();
        drops.reserve(30)?;
        reserve_for(&mut range, front, others, 0)?;
    }
    Ok(Prepared {
        starts: *starts,
        range,
    })
}
