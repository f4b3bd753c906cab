ghost use Rattle.std.specs.Prelude.{◌≡◌, ◌+◌, ◌<◌, ◌≤◌, ◌^◌, ◌++◌, [], drop, length, take};
ghost use Rattle.std.specs.VecDeque.{deque_capacity, deque_len};
ghost use Rattle.mc_journal.specs.Films.{rank};
ghost use Rattle.mc_queue.specs.Places.{before, outside, weight_outside, weights};
ghost use Rattle.mc_queue.specs.Union.{joined};

use crate::parts::{move_rear, weight_behind};
use crate::place::{is_before, weight_of};
use mc_packet::{Packet, Pos};
use std::collections::VecDeque;

/// How many packets stand before a place.
pub(crate) fn count_before(packets: &VecDeque<Packet>, cut: Pos) -> usize
    ensures { result ≡ length (before (rank cut) packets.now.items) }
{
    packets.iter().filter(|p| is_before(p.pos, cut)).count()
}

/// How many packets stand before one place, or at another or behind it.
#[tactic(auto, using(crate::proofs::Rising::few_before, crate::proofs::Rising::both_counts, crate::proofs::Rising::fewer_before))]
pub(crate) fn count_outside(packets: &VecDeque<Packet>, from: Pos, to: Pos) -> usize
    requires order { rank from ≤ rank to }
    ensures { result ≡ outside (rank from) (rank to) packets.now.items }
{
    count_before(packets, from) + (packets.len() - count_before(packets, to))
}

/// What they weigh.
#[tactic(auto, using(crate::proofs::Rising::weights_of_two, crate::proofs::Rising::before_two, crate::proofs::Rising::less_weight_outside, crate::proofs::Rising::less_weight_before))]
pub(crate) fn weight_outside(packets: &VecDeque<Packet>, from: Pos, to: Pos) -> u64
    requires order { rank from ≤ rank to }
    requires fits { weights packets.now.items < 2 ^ 64 }
    ensures { result ≡ weight_outside (rank from) (rank to) packets.now.items }
{
    weight_ahead(packets, from) + weight_behind(packets, to)
}

#[tactic(auto, using(crate::proofs::Rising::weights_of_two, crate::proofs::Rising::before_two, crate::proofs::Rising::less_weight_before))]
fn weight_ahead(packets: &VecDeque<Packet>, cut: Pos) -> u64
    requires fits { weights packets.now.items < 2 ^ 64 }
    ensures { result ≡ weights (before (rank cut) packets.now.items) }
{
    let (front, rest) = packets.as_slices();
    weight_before(front, cut) + weight_before(rest, cut)
}

#[tactic(auto, using(crate::proofs::Rising::more_weight_of_some))]
fn weight_before(packets: &[Packet], cut: Pos) -> u64
    requires fits { weights packets.now < 2 ^ 64 }
    ensures { result ≡ weights (before (rank cut) packets.now) }
{
    let mut weight = 0;
    for packet in packets {
        if is_before(packet.pos, cut) {
            weight += weight_of(packet);
        }
    }
    weight
}

/// Moves the packets of another list that stand before one place in front of a queue's, and those
/// at another place or behind it to its rear, into the room that there is. The others go.
#[tactic(auto, using(crate::proofs::Rising::few_before, crate::proofs::Rising::both_counts, crate::proofs::Rising::fewer_before))]
pub(crate) fn merge(queue: &mut VecDeque<Packet>, other: &mut VecDeque<Packet>, from: Pos, to: Pos)
    requires order { rank from ≤ rank to }
    requires room { deque_len queue.old + outside (rank from) (rank to) other.old.items
        ≤ deque_capacity queue.old }
    ensures items { queue.new.items
        ≡ joined (rank from) (rank to) queue.old.items other.old.items }
    ensures none_left { other.new.items ≡ [] }
    ensures len { deque_len queue.new
        ≡ deque_len queue.old + outside (rank from) (rank to) other.old.items }
    ensures capacity { deque_capacity queue.new ≡ deque_capacity queue.old }
    ensures other_capacity { deque_capacity other.new ≡ deque_capacity other.old }
{
    let front = count_before(other, from);
    let rear = count_before(other, to);
    splice(queue, other, front, rear);
}

/// Moves the first packets of another list in front of the queue's, and those from an index on
/// behind them, into the room that there is. The others go.
fn splice(queue: &mut VecDeque<Packet>, other: &mut VecDeque<Packet>, front: usize, rear: usize)
    requires order { front ≤ rear }
    requires some { rear ≤ deque_len other.old }
    requires room { deque_len queue.old + front + deque_len other.old
        ≤ deque_capacity queue.old + rear }
    ensures items { queue.new.items
        ≡ take front other.old.items ++ (queue.old.items ++ drop rear other.old.items) }
    ensures none_left { other.new.items ≡ [] }
    ensures len { deque_len queue.new + rear ≡ deque_len queue.old + front + deque_len other.old }
    ensures capacity { deque_capacity queue.new ≡ deque_capacity queue.old }
    ensures other_capacity { deque_capacity other.new ≡ deque_capacity other.old }
{
    let more = other.len() - rear;
    move_rear(other, rear, queue);
    queue.rotate_left(more);
    other.truncate(front);
    move_rear(other, 0, queue);
}
