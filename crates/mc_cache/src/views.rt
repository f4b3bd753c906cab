ghost use Rattle.std.specs.List.{AllByRecursion};
ghost use Rattle.std.specs.Prelude.{◌≡◌, ◌++◌, ◌==◌, [], map, IfOk, OnOk};
ghost use Rattle.mc_journal.specs.Films.{rank};
ghost use Rattle.mc_range.specs.Filmed.{HaveFrames};
ghost use Rattle.mc_cache.specs.Cache.{in_front};
ghost use Rattle.mc_cache.specs.Shown.{begins, begins_at, begins_in, shown};

use mc_packet::{NoMemory, Pos, RangeView, RangeViews, TrackNo};
use mc_queue::is_upto;
use mc_range::Range;
use std::alloc::Global;

#[tactic(auto, using(crate::proofs::Shows::at_start))]
fn is_start(place: Pos) -> bool
    ensures { result ≡ (rank place == 0) }
{
    is_upto(place, Pos { block: 0, lane: 0 })
}

fn begins_at(track: Option<TrackNo>, span: Option<(Pos, Pos)>) -> bool
    ensures { result ≡ begins_at track span }
{
    match (track, span) {
        (None, _) => true,
        (Some(_), Some((from, _))) => is_start(from),
        (Some(_), None) => false,
    }
}

fn begins(range: &Range) -> bool
    ensures { result ≡ begins range.now }
{
    let (set, spans) = (range.set(), range.spans());
    begins_at(set.video, spans.video)
        && begins_at(set.audio, spans.audio)
        && begins_at(set.sub, spans.sub)
}

/// Whether the current range begins where the film does.
pub(crate) fn begins_in(range: &Option<Range>) -> bool
    ensures { result ≡ begins_in range.now }
{
    match range {
        Some(range) => begins(range),
        None => false,
    }
}

fn show(range: &Range) -> RangeView
    ensures value { result ≡ shown range.now }
    ensures frames { HaveFrames result.spans }
{
    RangeView {
        bounds: range.bounds(),
        spans: range.spans(),
    }
}

fn show_front(alloc: Global, range: &Option<Range>) -> Result<RangeViews, NoMemory>
    ensures value { IfOk result (λ vs. vs ≡ map shown (in_front range.now [])) }
    ensures frames { IfOk result (AllByRecursion (λ v. HaveFrames v.spans)) }
{
    let mut views = RangeViews::new(alloc);
    if let Some(range) = range {
        views.push(show(range))?;
    }
    Ok(views)
}

/// Each range, the current one first.
#[tactic(auto, using(crate::proofs::Shows::front_shown, crate::proofs::Shows::framed_more))]
pub(crate) fn show_all(
    alloc: Global,
    range: &Option<Range>,
    others: &[Range],
) -> Result<RangeViews, NoMemory>
    ensures value { IfOk result (λ vs. vs ≡ map shown (in_front range.now others.now)) }
    ensures frames { IfOk result (AllByRecursion (λ v. HaveFrames v.spans)) }
{
    let mut views = show_front(alloc, range)?;
    for other in others {
        views.push(show(other))?;
    }
    Ok(views)
}
