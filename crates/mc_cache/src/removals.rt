ghost use Rattle.std.specs.Prelude.{◌≡◌, ◌+◌, ◌*◌, ◌≤◌, ◌<◌, ◌++◌, length, option_to_list, vec_capacity, vec_len};
ghost use Rattle.mc_packet.specs.Choices.{is_track, nothing};
ghost use Rattle.mc_cache.specs.Removals.{lost_queues, ordered, removals_in, removals_lost, removals_of_all, told_if};

use mc_journal::{Cause, Removal};
use mc_packet::{Choice, Pos, TrackNo};
use mc_range::Range;
use sqlite_items::Items;

/// What is told of packets that went, in order.
pub type Drops = Items<Removal>;

const NOTHING: Choice = Choice {
    video: None,
    audio: None,
    sub: None,
};

fn is_track(selected: Option<TrackNo>, track: TrackNo) -> bool
    ensures { result ≡ is_track selected track }
{
    match selected {
        Some(selected) => selected == track,
        None => false,
    }
}

/// What is told of a queue that goes: of one with packets, whose track doesn't stay.
fn told_if(
    range: &Range,
    cause: Cause,
    track: Option<TrackNo>,
    span: Option<(Pos, Pos)>,
    stays: Option<TrackNo>,
) -> Option<Removal>
    ensures { result ≡ told_if range.now.queues cause track span stays }
{
    let (Some(track), Some((from, to))) = (track, span) else {
        return None;
    };
    if is_track(stays, track) || range.len(track) == 0 {
        return None;
    }
    Some(Removal {
        track,
        from,
        to,
        cause,
    })
}

/// Two removals by rising track, none behind one.
fn ordered(a: Option<Removal>, b: Option<Removal>) -> (Option<Removal>, Option<Removal>)
    ensures { result ≡ ordered a b }
{
    match (a, b) {
        (None, b) => (b, None),
        (Some(a), None) => (Some(a), None),
        (Some(a), Some(b)) => if a.track <= b.track {
            (Some(a), Some(b))
        } else {
            (Some(b), Some(a))
        },
    }
}

fn push(drops: &mut Vec<Removal>, removal: Option<Removal>)
    requires { vec_len drops.old < vec_capacity drops.old }
    ensures items { drops.new.items ≡ drops.old.items ++ option_to_list removal }
    ensures few { vec_len drops.new ≤ vec_len drops.old + 1 }
    ensures room { vec_capacity drops.old ≤ vec_capacity drops.new }
{
    if let Some(removal) = removal {
        let _ = drops.push(removal);
    }
}

/// Tells of the queues that a range loses when a set is selected, by rising track.
#[tactic(auto, using(crate::proofs::Told::told_lost))]
pub(crate) fn push_lost(drops: &mut Vec<Removal>, range: &Range, cause: Cause, set: Choice)
    requires { vec_len drops.old + 3 ≤ vec_capacity drops.old }
    ensures items { drops.new.items
        ≡ drops.old.items ++ removals_in cause (lost_queues set range.now.queues) }
    ensures few { vec_len drops.new ≤ vec_len drops.old + 3 }
    ensures room { vec_capacity drops.old ≤ vec_capacity drops.new }
{
    let (tracks, spans) = (range.set(), range.spans());
    let video = told_if(range, cause, tracks.video, spans.video, set.video);
    let audio = told_if(range, cause, tracks.audio, spans.audio, set.audio);
    let sub = told_if(range, cause, tracks.sub, spans.sub, set.sub);
    let (first, second) = ordered(audio, sub);
    let (least, middle) = ordered(video, first);
    let (middle, last) = ordered(middle, second);
    push(drops, least);
    push(drops, middle);
    push(drops, last);
}

/// Tells of all queues of a range, by rising track.
#[tactic(auto, using(crate::proofs::Told::all_lost))]
pub(crate) fn push_all(drops: &mut Vec<Removal>, range: &Range, cause: Cause)
    requires { vec_len drops.old + 3 ≤ vec_capacity drops.old }
    ensures items { drops.new.items ≡ drops.old.items ++ removals_in cause range.now.queues }
    ensures few { vec_len drops.new ≤ vec_len drops.old + 3 }
    ensures room { vec_capacity drops.old ≤ vec_capacity drops.new }
{
    push_lost(drops, range, cause, NOTHING);
}

/// Tells of all queues of several ranges, one range behind the other.
#[tactic(auto, using(crate::proofs::Told::next_range))]
pub(crate) fn push_ranges(drops: &mut Vec<Removal>, ranges: &[Range], cause: Cause)
    requires { vec_len drops.old + 3 * length ranges.now ≤ vec_capacity drops.old }
    ensures items { drops.new.items ≡ drops.old.items ++ removals_of_all cause ranges.now }
{
    for range in ranges {
        push_all(drops, range, cause);
    }
}
