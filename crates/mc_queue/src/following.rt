ghost use Rattle.std.specs.Prelude.{◌≡◌, ◌++◌, ◌<◌, drop, length, nat_lt, false};
ghost use Rattle.std.specs.Option.{option_copied, option_map};
ghost use Rattle.mc_journal.specs.Films.{rank};
ghost use Rattle.mc_queue.specs.Places.{is_before};
ghost use Rattle.mc_queue.specs.Queue.{first_that, is_sync};
ghost use Rattle.mc_queue.specs.Blocks.{Follows, is_in_front, next_with};

use crate::blocks::Blocks;
use crate::place::is_before;
use crate::wants::next_wanted;
use mc_packet::{Packet, Pos};
use std::sync::ledger::{Blank, Ledger};

/// The place of the first sync point of a list but its first packets.
fn first_sync(packets: &[Packet], but: usize) -> Option<Pos>
    ensures { result ≡ first_that is_sync (drop but packets.now) }
{
    place_of(packets.iter().skip(but).find(|p| p.sync))
}

fn place_of(packet: Option<&Packet>) -> Option<Pos>
    ensures { result ≡ option_map (λ p. p.pos) (option_copied packet.entry) }
{
    Some(packet?.pos)
}

/// The first sync point behind the first packet, with packets more behind so many others.
pub(crate) fn next_with(next: Option<Pos>, count: usize, more: &[Packet]) -> Option<Pos>
    ensures { result ≡ next_with next count more.now }
{
    match next {
        Some(place) => Some(place),
        None if count == 0 => first_sync(more, 1),
        None => first_sync(more, 0),
    }
}

/// Whether a packet stands before a place.
fn is_in_front(packet: Option<&Packet>, place: Pos) -> bool
    ensures { result ≡ is_in_front (rank place) (option_copied packet.entry) }
{
    match packet {
        Some(packet) => is_before(packet.pos, place),
        None => false,
    }
}

/// The first sync point behind the first packet, where that was `next` before packets in front were
/// dropped: it still is, if it stands behind the packet that is first now.
pub(crate) fn next_after<L: Ledger>(blocks: &Blocks, next: Option<Pos>, blank: Blank) -> Option<Pos>
    requires name { blank.name ≡ L.name }
    requires parts { blank.parts ≡ L.parts }
    requires some { 0 < L.parts }
    ensures { Follows next blocks.now.packets result }
{
    let place = next?;
    if is_in_front(blocks.first(), place) {
        return Some(place);
    }
    next_wanted::<L>(blocks, blank)
}
