ghost use Rattle.std.specs.Prelude.{◌≡◌, true, IfNone, IfSome};
ghost use Rattle.mc_range.specs.Range.{is_same, is_same_set};
ghost use Rattle.mc_cache.specs.Cache.{IsReadyFor};

use mc_packet::{Choice, Level, Mark, Starts};
use mc_range::Range;

/// A range that is held ready for a start, with its starts.
#[derive(Drop)]
pub(crate) struct Prepared {
    /// The starts for which it is ready.
    pub starts: Starts,
    /// The range, with room for what it may take over by joins.
    pub range: Range,
}

fn is_same(a: Option<u64>, b: Option<u64>) -> bool
    ensures value { result ≡ is_same a b }
    ensures sound { result ≡ true → a ≡ b }
    ensures whole { a ≡ b → result ≡ true }
{
    match (a, b) {
        (None, None) => true,
        (Some(a), Some(b)) => a == b,
        _ => false,
    }
}

/// Whether two sets are one.
pub(crate) fn is_same_set(a: Choice, b: Choice) -> bool
    ensures value { result ≡ is_same_set a b }
    ensures sound { result ≡ true → a ≡ b }
    ensures whole { a ≡ b → result ≡ true }
{
    is_same(a.video, b.video) && is_same(a.audio, b.audio) && is_same(a.sub, b.sub)
}

fn is_same_level(a: Level, b: Level) -> bool
    ensures sound { result ≡ true → a ≡ b }
    ensures whole { a ≡ b → result ≡ true }
{
    match (a, b) {
        (Level::Segment, Level::Segment) => true,
        (
            Level::Cluster { time, end },
            Level::Cluster {
                time: other_time,
                end: other_end,
            },
        ) => is_same(time, other_time) && is_same(end, other_end),
        _ => false,
    }
}

fn is_same_mark(a: Mark, b: Mark) -> bool
    ensures sound { result ≡ true → a ≡ b }
    ensures whole { a ≡ b → result ≡ true }
{
    a.pos == b.pos && is_same_level(a.level, b.level)
}

fn is_same_start(a: Starts, b: Starts) -> bool
    ensures sound { result ≡ true → a ≡ b }
    ensures whole { a ≡ b → result ≡ true }
{
    is_same(a.video, b.video)
        && is_same(a.audio, b.audio)
        && is_same(a.sub, b.sub)
        && is_same_mark(a.mark, b.mark)
}

/// The range that is held ready, if it is for this start.
pub(crate) fn take_if(ready: Option<Prepared>, set: Choice, starts: &Starts) -> Option<Range>
    ensures some { IfSome result (λ r. IsReadyFor set starts.now r ready) }
    ensures none { IfNone result
        (IfSome ready (λ p. p.starts ≡ starts.now → p.range.set ≡ set → ⊥)) }
{
    let Prepared {
        starts: kept,
        range,
    } = ready?;
    if is_same_start(kept, *starts) && is_same_set(range.set(), set) {
        Some(range)
    } else {
        None
    }
}
