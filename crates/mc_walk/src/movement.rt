ghost use Rattle.std.specs.Prelude.{◌≡◌, ◌+◌, ◌^◌, ◌<◌, ◌≤◌, Option};
ghost use Rattle.mc_ebml.specs.declared.read.Size.TheVariants.{Known, Unknown};
ghost use Rattle.mc_ebml.specs.Element.{IsSmall};
ghost use Rattle.mc_walk.specs.Moves.{settle, reenter, level_end, runs_past, is_segment, is_segment_child, role_of, cuts_off, last_of, opens_cluster, move_in, move_of, MovesOn};

use mc_ebml::{Size, ids};
use mc_packet::{Ending, Fault, Level};

/// What an element in a Cluster is to the walk; in the Segment every element is `Other`.
#[derive(Clone, Copy, Debug, PartialEq, Eq)]
pub enum Role {
    /// It is passed over.
    Other,
    /// It sets the Cluster's time.
    Timestamp,
    /// It gives packets (RFC 9559, section 5.1.3.4).
    SimpleBlock,
    /// Its first Block gives packets (RFC 9559, section 5.1.3.5).
    BlockGroup,
}

/// What the head of an element asks for.
#[derive(Clone, Copy, Debug, PartialEq, Eq)]
pub enum Move {
    /// The walk ends at this element.
    Fault(Fault),
    /// A Cluster is entered: the walk goes on at its first child.
    Enter {
        /// The offset of the first child.
        to: u64,
        /// The level there.
        level: Level,
    },
    /// An element has to lie in the film; the walk then goes on behind it.
    Pass {
        /// What it is to the walk.
        role: Role,
        /// The offset at which its body begins.
        at: u64,
        /// The offset at which it ends.
        stop: u64,
        /// The level behind it.
        level: Level,
    },
}

/// The level at a place: a Cluster of known size is left at its end.
pub fn settled(level: Level, place: u64) -> Level
    ensures { result ≡ settle level place }
{
    match level {
        Level::Cluster { end: Some(end), .. } if end == place => Level::Segment,
        other => other,
    }
}

// SeekHead, Info, Tracks, Cluster, Cues, Chapters, Tags or Attachments.
fn is_child_of_segment(id: u32) -> bool
    ensures { result ≡ is_segment_child id }
{
    matches!(
        id,
        ids::CLUSTER
            | ids::SEEK_HEAD
            | ids::INFO
            | ids::TRACKS
            | ids::CUES
            | ids::CHAPTERS
            | ids::TAGS
            | ids::ATTACHMENTS
    )
}

// A Cluster of unknown size ends before the next child of the Segment.
fn reentered(level: Level, id: u32) -> Level
    ensures { result ≡ reenter level id }
{
    match level {
        Level::Cluster { end: None, .. } if is_child_of_segment(id) => Level::Segment,
        other => other,
    }
}

fn end_of(level: Level) -> Option<u64>
    ensures { result ≡ level_end level }
{
    match level {
        Level::Segment => None,
        Level::Cluster { end, .. } => end,
    }
}

fn is_past(end: Option<u64>, place: u64) -> bool
    ensures { result ≡ runs_past end place }
{
    match end {
        None => false,
        Some(end) => end < place,
    }
}

fn is_past_film(end: Option<u64>, len: u64) -> bool
    ensures { result ≡ cuts_off end len }
{
    match end {
        None => false,
        Some(end) => len < end,
    }
}

/// How a film of `len` octets ends at a place that is its end or its Segment's: cleanly, or cut
/// where a known size of the Segment or of the present Cluster runs past the film.
pub fn last_ending(segment_end: Option<u64>, len: u64, place: u64, level: Level) -> Ending
    ensures { result ≡ last_of segment_end len place level }
{
    if place == len && (is_past_film(segment_end, len) || is_past_film(end_of(level), len)) {
        Ending::Cut(place)
    } else {
        Ending::Clean
    }
}

fn child_role(level: Level, id: u32) -> Role
    ensures { result ≡ role_of level id }
{
    match level {
        Level::Segment => Role::Other,
        Level::Cluster { .. } => match id {
            ids::TIMESTAMP => Role::Timestamp,
            ids::SIMPLE_BLOCK => Role::SimpleBlock,
            ids::BLOCK_GROUP => Role::BlockGroup,
            _ => Role::Other,
        },
    }
}

fn opens(level: Level, id: u32) -> bool
    ensures { result ≡ opens_cluster level id }
{
    id == ids::CLUSTER && level == Level::Segment
}

// An element of unknown size, whose body begins at `at`.
fn unknown_move(segment_end: Option<u64>, level: Level, id: u32, at: u64) -> Move
    ensures value { result ≡ move_in segment_end level id at Unknown }
    ensures onward { MovesOn at result }
{
    if !opens(level, id) {
        return Move::Fault(Fault::NoSize);
    }
    if is_past(segment_end, at) {
        return Move::Fault(Fault::Overrun);
    }
    Move::Enter {
        to: at,
        level: Level::Cluster {
            time: None,
            end: None,
        },
    }
}

// An element whose body stands from `at` up to `stop`.
fn known_move(segment_end: Option<u64>, level: Level, id: u32, at: u64, size: u64) -> Move
    requires { at + size < 2 ^ 64 }
    ensures value { result ≡ move_in segment_end level id at (Known size) }
    ensures onward { MovesOn at result }
{
    let stop = at + size;
    if is_past(end_of(level), stop) || is_past(segment_end, stop) {
        return Move::Fault(Fault::Overrun);
    }
    if opens(level, id) {
        return Move::Enter {
            to: at,
            level: Level::Cluster {
                time: None,
                end: Some(stop),
            },
        };
    }
    Move::Pass {
        role: child_role(level, id),
        at,
        stop,
        level,
    }
}

/// What the walk does at an element with a good head, whose body begins at the film's offset
/// `at`. The level is that of the element's place, a Cluster of known size being left already.
///
/// The faults are `NoSize`, then `Overrun`.
pub fn move_at(segment_end: Option<u64>, level: Level, id: u32, at: u64, size: Size) -> Move
    requires small { IsSmall size }
    requires fits { at < 2 ^ 63 }
    ensures value { result ≡ move_of segment_end level id at size }
    ensures onward { MovesOn at result }
{
    let level = reentered(level, id);
    match size {
        Size::Unknown => unknown_move(segment_end, level, id, at),
        Size::Known(size) => known_move(segment_end, level, id, at, size),
    }
}
