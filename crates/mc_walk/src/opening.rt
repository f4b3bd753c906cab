ghost use Rattle.std.specs.Prelude.{◌≡◌, ◌^◌, ◌<◌, Some, IfSome};
ghost use Rattle.mc_ebml.specs.Element.{IsSmall};
ghost use Rattle.mc_walk.specs.Opening.{before_cluster, end_by};
ghost use Rattle.mc_walk.specs.Walk.{time_of};

use mc_ebml::{Size, WholeElement, ids};
use mc_packet::Level;

/// The offset at which a body ends that begins at another, if its size is known.
pub fn body_end(at: usize, size: Size) -> Option<u64>
    requires fits { at < 2 ^ 63 }
    requires small { IsSmall size }
    ensures { result ≡ end_by at size }
{
    match size {
        Size::Known(size) => Some(at as u64 + size),
        Size::Unknown => None,
    }
}

/// A child of the Segment that stands before its first Cluster: it is no Cluster itself, and does
/// not run past the Segment's end, where that is known.
pub fn child_before_cluster(end: Option<u64>, child: Option<WholeElement>) -> Option<WholeElement>
    ensures value { result ≡ before_cluster end child }
    ensures same { IfSome result (λ c. child ≡ Some c) }
{
    let child = child?;
    let runs_past = end.is_some_and(|end| end < child.stop as u64);
    if child.id == ids::CLUSTER || runs_past {
        None
    } else {
        Some(child)
    }
}

/// The time of the Cluster in which a place stands, once it was read.
pub fn cluster_time(level: Level) -> Option<u64>
    ensures { result ≡ time_of level }
{
    match level {
        Level::Segment => None,
        Level::Cluster { time, .. } => time,
    }
}
