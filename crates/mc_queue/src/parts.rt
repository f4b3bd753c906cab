ghost use Rattle.std.specs.Prelude.{◌≡◌, ◌+◌, ◌<◌, ◌≤◌, ◌^◌, ◌++◌, drop, length, take};
ghost use Rattle.std.specs.VecDeque.{deque_capacity, deque_len};
ghost use Rattle.mc_journal.specs.Films.{rank};
ghost use Rattle.mc_journal.specs.Views.{from_place};
ghost use Rattle.mc_queue.specs.Places.{weights};

use crate::place::{is_before, weight_of};
use mc_packet::{Packet, Packets, Pos};
use std::collections::VecDeque;

/// The weight of the packets at or behind a place.
#[tactic(auto, using(crate::proofs::Rising::weights_of_two, crate::proofs::Rising::from_two, crate::proofs::Rising::less_weight_from))]
pub(crate) fn weight_behind(packets: &VecDeque<Packet>, head: Pos) -> u64
    requires fits { weights packets.now.items < 2 ^ 64 }
    ensures { result ≡ weights (from_place (rank head) packets.now.items) }
{
    let (front, rest) = packets.as_slices();
    weight_in(front, head) + weight_in(rest, head)
}

#[tactic(auto, using(crate::proofs::Rising::more_weight_of_some))]
pub(crate) fn weight_in(packets: &[Packet], head: Pos) -> u64
    requires fits { weights packets.now < 2 ^ 64 }
    ensures { result ≡ weights (from_place (rank head) packets.now) }
{
    let mut weight = 0;
    for packet in packets {
        if !is_before(packet.pos, head) {
            weight += weight_of(packet);
        }
    }
    weight
}

/// The weight of packets.
#[tactic(auto, using(crate::proofs::Rising::more_weight))]
pub(crate) fn weight_of_all(packets: &[Packet]) -> u64
    requires fits { weights packets.now < 2 ^ 64 }
    ensures { result ≡ weights packets.now }
{
    let mut weight = 0;
    for packet in packets {
        weight += weight_of(packet);
    }
    weight
}

/// Moves packets in front of others, in their order, into the room that there is.
pub(crate) fn pour(mut packets: Packets, into: &mut VecDeque<Packet>)
    requires room { length packets + deque_len into.old ≤ deque_capacity into.old }
    ensures items { into.new.items ≡ packets ++ into.old.items }
    ensures len { deque_len into.new ≡ length packets + deque_len into.old }
    ensures capacity { deque_capacity into.new ≡ deque_capacity into.old }
{
    while let Some(packet) = packets.pop() {
        into.push_front_reserved(packet);
    }
}

/// Puts packets behind others, into the room that there is.
pub(crate) fn add_behind(queue: &mut VecDeque<Packet>, packets: Packets)
    requires room { deque_len queue.old + length packets ≤ deque_capacity queue.old }
    ensures items { queue.new.items ≡ queue.old.items ++ packets }
    ensures len { deque_len queue.new ≡ deque_len queue.old + length packets }
    ensures capacity { deque_capacity queue.new ≡ deque_capacity queue.old }
{
    let more = packets.len();
    pour(packets, queue);
    queue.rotate_left(more);
}

#[tactic(auto, using(crate::proofs::Moving::moved))]
/// Moves packets from the rear of one list to the front of another, in their order and into the
/// room that there is, until so many are left.
pub(crate) fn move_rear(from: &mut VecDeque<Packet>, keep: usize, into: &mut VecDeque<Packet>)
    requires some { keep ≤ deque_len from.old }
    requires room { deque_len from.old + deque_len into.old ≤ deque_capacity into.old + keep }
    ensures left { from.new.items ≡ take keep from.old.items }
    ensures moved { into.new.items ≡ drop keep from.old.items ++ into.old.items }
    ensures len { deque_len into.new + keep ≡ deque_len from.old + deque_len into.old }
    ensures left_len { deque_len from.new ≡ keep }
    ensures capacity { deque_capacity into.new ≡ deque_capacity into.old }
    ensures left_capacity { deque_capacity from.new ≡ deque_capacity from.old }
{
    while keep < from.len() {
        if let Some(packet) = from.pop_back() {
            into.push_front_reserved(packet);
        }
    }
}
