ghost use Rattle.std.specs.Prelude.{◌≡◌, false, is_some};
ghost use Rattle.std.specs.Option.{option_copied};
ghost use Rattle.mc_packet.specs.Choices.{lead_of};
ghost use Rattle.mc_queue.specs.Times.{IsNearest, is_wanted};
ghost use Rattle.mc_range.specs.Bounds.{bounds_in, is_last, is_point, lead_queue, serves_time};
ghost use Rattle.mc_range.specs.Serving.{packets_in};
ghost use Rattle.mc_packet.specs.declared.choice.Dir.TheVariants.{Back, Forward};

use crate::queues::{Queues, find};
use crate::serving::serve;
use mc_packet::{Choice, Dir};
use mc_queue::Queue;

fn serves_time(queues: &Queues, ended: bool, set: Choice, t: i64) -> bool
    ensures { result ≡ serves_time queues.now ended set t }
{
    serve(queues, ended, set, t, Dir::Back).is_some()
}

/// The next time of a sync point in a direction.
fn next_time(queue: &Queue, dir: Dir, past: Option<i64>) -> Option<i64>
    ensures { IsNearest dir (is_wanted dir false past) queue.now.packets result }
{
    match dir {
        Dir::Forward => queue.least_sync_time_after(past),
        Dir::Back => queue.greatest_sync_time_before(past),
    }
}

/// In a direction the first time of a sync point to which the queues serve a seek back.
#[tactic(auto, using(crate::proofs::Bounded::none_at_first, crate::proofs::Bounded::none_on, crate::proofs::Bounded::served_next, crate::proofs::Bounded::none_served, crate::proofs::Bounded::fewer_left))]
fn first_served(queues: &Queues, ended: bool, set: Choice, queue: &Queue, dir: Dir) -> Option<i64>
    ensures { IsNearest dir (is_point (serves_time queues.now ended set)) queue.now.packets result }
{
    let mut past = None;
    while let Some(t) = next_time(queue, dir, past) {
        if serves_time(queues, ended, set, t) {
            return Some(t);
        }
        past = Some(t);
    }
    None
}

/// The time at which the bounds end: with the film's ending the greatest of all packets.
fn last_time(queues: &Queues, ended: bool, set: Choice, queue: &Queue) -> Option<i64>
    ensures { IsNearest Back (is_last ended (serves_time queues.now ended set))
        queue.now.packets result }
{
    if ended {
        queue.greatest_time()
    } else {
        first_served(queues, ended, set, queue, Dir::Back)
    }
}

#[tactic(auto, using(crate::proofs::Extremes::bounds_none, crate::proofs::Extremes::bounds_both, crate::proofs::Extremes::bounds_some))]
fn bounds_by(queues: &Queues, ended: bool, set: Choice, queue: &Queue) -> Option<(i64, i64)>
    ensures { result ≡ bounds_in (serves_time queues.now ended set) ended queue.now.packets }
{
    let least = first_served(queues, ended, set, queue, Dir::Forward)?;
    let greatest = last_time(queues, ended, set, queue)?;
    Some((least, greatest))
}

/// The queue of the lead.
fn lead_queue(queues: &Queues, set: Choice) -> Option<&Queue>
    ensures { option_copied result ≡ lead_queue queues.now (lead_of set) }
{
    match (set.video, set.audio) {
        (Some(track), _) | (None, Some(track)) => find(queues, track),
        (None, None) => None,
    }
}

/// The times of the lead between which the queues serve a seek back.
pub(crate) fn bounds(queues: &Queues, ended: bool, set: Choice) -> Option<(i64, i64)>
    ensures { result
        ≡ bounds_in (serves_time queues.now ended set) ended
        (packets_in (lead_queue queues.now (lead_of set))) }
{
    match lead_queue(queues, set) {
        Some(queue) => bounds_by(queues, ended, set, queue),
        None => None,
    }
}
