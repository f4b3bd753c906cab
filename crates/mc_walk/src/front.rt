ghost use Rattle.std.specs.Prelude.{◌≡◌, ◌+◌, ◌<◌, ◌≤◌, ℕ, List, length, take, drop, true, Result, Option, IfSome};
ghost use Rattle.mc_packet.specs.declared.walk.Fault.{Fault};
ghost use Rattle.mc_block.specs.Block.{is_key};
ghost use Rattle.mc_block.specs.Frames.{is_laced};
ghost use Rattle.mc_block.specs.Fronts.{FitsIn};
ghost use Rattle.mc_walk.specs.declared.front.BlockMark.{BlockMark};
ghost use Rattle.mc_walk.specs.Blocks.{known_track, some_opened};
ghost use Rattle.mc_walk.specs.Glances.{marked, times_fit, lace_mark, or_range, laced_glance, unless_laced, headed_glance, timed_glance, tracked_glance, numbered_glance, glance_of, IsLace, Tells, CountsIn, LaceTells};

use crate::element::find_known;
use mc_block::{
    BlockHead, LaceReader, Place, block_head, block_track, frame_time, is_key, is_laced,
};
use mc_packet::{Fault, TrackNo};
use mc_tracks::TrackList;

/// The first packet of a block element without its payload.
#[derive(Clone, Copy, Debug, PartialEq, Eq)]
pub struct BlockMark {
    /// The number of its track.
    pub track: TrackNo,
    /// The file offset of its element.
    pub pos: u64,
    /// In nanoseconds, counted from the film's start.
    pub time: i64,
    /// Whether its block is a keyframe.
    pub key: bool,
}

/// A block of a known track, in a Cluster with a time, which has a lace (RFC 9559, section 10.3)
/// whose sizes are not read yet.
#[derive(Clone, Copy, Debug, PartialEq, Eq)]
pub struct LacedBlock {
    /// Where it stands, and what its times are counted by.
    pub place: Place,
    /// What stands before its lace; the lace begins at `head.at` of the block's octets.
    pub head: BlockHead,
    /// Whether it is a keyframe.
    pub key: bool,
    /// The lace's first octet: the number of its frames minus one.
    pub count: u8,
}

/// What the first octets of a block tell.
#[derive(Clone, Copy, Debug, PartialEq, Eq)]
pub enum Glance {
    /// It gives no packets, since its track is not known.
    Skipped,
    /// The film is damaged there.
    Fault(Fault),
    /// It gives one packet.
    Frame(BlockMark),
    /// It has a lace, of which its further octets tell.
    Laced(LacedBlock),
}

// A block with a lace, which has a count octet.
fn glance_at_lace(place: &Place, head: BlockHead, key: bool, front: &[u8]) -> Glance
    requires { head.at ≤ length front.now }
    ensures value { result ≡ laced_glance place.now head key (drop head.at front.now) }
    ensures near { CountsIn (length front.now) result }
{
    let (_, rest) = front.split_at(head.at);
    match rest {
        [count, ..] => Glance::Laced(LacedBlock {
            place: *place,
            head,
            key,
            count: *count,
        }),
        [] => Glance::Fault(Fault::BadLace),
    }
}

// A block whose head stands whole.
fn glance_at_head(place: &Place, head: BlockHead, key: bool, front: &[u8]) -> Glance
    requires { head.at ≤ length front.now }
    ensures value { result ≡ unless_laced (is_laced head.flags) place.now head key front.now }
    ensures near { CountsIn (length front.now) result }
{
    if is_laced(head.flags) {
        return glance_at_lace(place, head, key, front);
    }
    match frame_time(place, head, 0) {
        Some(time) => Glance::Frame(BlockMark {
            track: head.track,
            pos: place.pos,
            time,
            key,
        }),
        None => Glance::Fault(Fault::TimeRange),
    }
}

// A block of a known track.
fn glance_in_time(
    place: u64,
    scale: u64,
    time: Option<u64>,
    keyframe: Option<bool>,
    front: &[u8],
    duration: Option<u64>,
) -> Glance
    ensures value { result ≡ timed_glance place scale time keyframe front.now duration }
    ensures near { CountsIn (length front.now) result }
{
    let Some(cluster_time) = time else {
        return Glance::Fault(Fault::NoTime);
    };
    let place = Place {
        pos: place,
        cluster_time,
        scale,
        duration,
    };
    match block_head(front) {
        Ok(head) => glance_at_head(&place, head, is_key(keyframe, head.flags), front),
        Err(_) => Glance::Fault(Fault::ShortBlock),
    }
}

/// What the first 12 octets of a block, or all of fewer, tell of its packets: the same as its
/// element's packets do, where that is not too large. `keyframe` tells whether a Block in a
/// BlockGroup is a keyframe; it is `None` for a SimpleBlock, whose flags tell. The place and the
/// time are those of `block_element`.
#[tactic(auto, using(crate::proofs::Glancing::tells))]
pub fn block_glance(
    tracks: &TrackList,
    scale: u64,
    place: u64,
    time: Option<u64>,
    keyframe: Option<bool>,
    front: &[u8],
) -> Glance
    ensures value { result ≡ glance_of tracks.now scale place time keyframe front.now }
    ensures law { (octets : List ℕ) → front.now ≡ take 12 octets
        → Tells octets result (marked (some_opened tracks.now place scale time
        (record { octets = octets; keyframe = keyframe }))) }
    ensures near { CountsIn (length front.now) result }
{
    glance_by_number(tracks, scale, place, time, keyframe, front)
}

fn glance_by_number(
    tracks: &TrackList,
    scale: u64,
    place: u64,
    time: Option<u64>,
    keyframe: Option<bool>,
    front: &[u8],
) -> Glance
    ensures value { result ≡ glance_of tracks.now scale place time keyframe front.now }
    ensures near { CountsIn (length front.now) result }
{
    let Ok(no) = block_track(front) else {
        return Glance::Fault(Fault::ShortBlock);
    };
    match find_known(tracks, no) {
        Some(track) => glance_in_time(place, scale, time, keyframe, front, track.duration),
        None => Glance::Skipped,
    }
}

// Whether the times of so many frames, from the first on, lie in range.
fn times_fit(place: &Place, head: BlockHead, count: u16) -> bool
    ensures { result ≡ times_fit place.now head.relative 0 count }
{
    for lane in 0..count {
        let Some(_time) = frame_time(place, head, lane) else {
            return false;
        };
    }
    true
}

impl LacedBlock {
    /// The reader of its lace's sizes, which stand from `head.at + 1` of the block's octets on;
    /// `left` octets are there up to the block's end. `None` where the lace is bad already.
    #[tactic(auto, using(crate::proofs::Lacing::lace_tells))]
    pub fn reader(&self, left: u64) -> Option<LaceReader>
        ensures law { (octets : List ℕ) (first : Result (Option BlockMark) Fault)
            → IsLace self.now octets first → length octets ≡ self.now.head.at + 1 + left
            → LaceTells self.now octets first result }
        ensures fits { IfSome result (FitsIn left) }
    {
        LaceReader::new(self.head.flags, self.count, left)
    }

    /// Its first packet, where its lace is good. `None` where a frame's time lies outside plus or
    /// minus 2^62 nanoseconds: `TimeRange`.
    #[tactic(auto, using(crate::proofs::Lacing::first_in_range))]
    pub fn mark(&self) -> Option<BlockMark>
        ensures { or_range result ≡ lace_mark self.now true }
    {
        if !times_fit(&self.place, self.head, self.count as u16 + 1) {
            return None;
        }
        let time = frame_time(&self.place, self.head, 0)?;
        Some(BlockMark {
            track: self.head.track,
            pos: self.place.pos,
            time,
            key: self.key,
        })
    }
}
