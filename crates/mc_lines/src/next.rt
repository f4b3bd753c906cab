ghost use Rattle.std.specs.Prelude.{◌≡◌, nat_lt};
ghost use Rattle.mc_journal.specs.Films.{rank};
ghost use Rattle.mc_lines.specs.Nexts.{IsNextBy, Sees, chosen};

use crate::machine::Machine;
use mc_demux::Peek;
use mc_packet::{Choice, Kind, Pos, TrackNo};

/// The next step of a drain.
#[derive(Clone, Copy)]
pub enum Next {
    Give { kind: Kind, track: TrackNo },
    Tell { kind: Kind, track: TrackNo },
    Turn,
}

/// What is seen at a track's head.
#[derive(Clone, Copy)]
pub enum Sight {
    Packet {
        kind: Kind,
        track: TrackNo,
        pos: Pos,
    },
    Finish {
        kind: Kind,
        track: TrackNo,
    },
    Wait,
}

#[tactic(auto, unfolding(mc_journal::specs::Films::rank))]
fn is_before(a: Pos, b: Pos) -> bool
    ensures { result ≡ nat_lt (rank a) (rank b) }
{
    a.block < b.block || a.block == b.block && a.lane < b.lane
}

/// The one that is served first: the lesser place, else the lesser number.
fn better(a: Sight, b: Sight) -> Sight
    ensures { result ≡ chosen a b }
{
    match (a, b) {
        (Sight::Packet { pos: p, .. }, Sight::Packet { pos: q, .. }) => {
            if is_before(q, p) { b } else { a }
        }
        (Sight::Packet { .. }, _) => a,
        (_, Sight::Packet { .. }) => b,
        (Sight::Finish { track: j, .. }, Sight::Finish { track: k, .. }) => {
            if k < j { b } else { a }
        }
        (Sight::Finish { .. }, _) => a,
        (Sight::Wait, _) => b,
    }
}

fn look<M: Machine>(machine: &M, kind: Kind, track: Option<TrackNo>) -> Sight
    ensures { Sees (M.ahead machine.now) kind track result }
{
    match track {
        None => Sight::Wait,
        Some(track) => match machine.peek(track) {
            Peek::Packet(pos) => Sight::Packet { kind, track, pos },
            Peek::Finish => Sight::Finish { kind, track },
            Peek::Wait => Sight::Wait,
        },
    }
}

/// The next step of a drain with these tracks left.
pub(crate) fn next_of<M: Machine>(machine: &M, left: &Choice) -> Next
    ensures { IsNextBy (M.ahead machine.now) left.now result }
{
    let video = look(machine, Kind::Video, left.video);
    let audio = look(machine, Kind::Audio, left.audio);
    let sub = look(machine, Kind::Sub, left.sub);
    match better(better(video, audio), sub) {
        Sight::Packet { kind, track, .. } => Next::Give { kind, track },
        Sight::Finish { kind, track } => Next::Tell { kind, track },
        Sight::Wait => Next::Turn,
    }
}
