ghost use Rattle.std.specs.Prelude.{◌≡◌, ◌==◌, nat_le, ◌&&◌, if◌then◌else◌, is_some};
ghost use Rattle.std.specs.Option.{option_copied, option_map};
ghost use Rattle.mc_packet.specs.declared.packet.Packet.{Packet};
ghost use Rattle.mc_packet.specs.Choices.{lead_of, passes};
ghost use Rattle.mc_journal.specs.Films.{audio_dir, audio_sync, block_of, first, first_from, first_lane, last, last_upto, least_of, rank, sync_for, time_or, track_sync, video_sync};
ghost use Rattle.mc_journal.specs.Ranges.{any_below, any_from, served};
ghost use Rattle.mc_queue.specs.Queue.{IsQueue};
ghost use Rattle.mc_packet.specs.declared.choice.Dir.TheVariants.{Back, Forward};
ghost use Rattle.mc_range.specs.Range.{spans_of};
ghost use Rattle.mc_range.specs.Serving.{at_place, head_at, heads_in, serves_back, serves_forward, serves_sub, serves_track, syncs_of, sync_points};

use crate::place::{first_lane, is_start, place_at};
use crate::queues::{Queues, find};
use mc_packet::{Choice, Dir, Heads, Packet, Pos, TrackNo};
use mc_queue::{Queue, is_upto};

// ---- the sync points of a queue

fn at_place(queue: &Queue, place: Option<Pos>) -> Option<&Packet>
    ensures { option_copied result ≡ at_place queue.now.packets place }
{
    match place {
        Some(place) => queue.first_at(place),
        None => None,
    }
}

#[tactic(auto, using(crate::proofs::Found::last_upto_is))]
fn last_upto(queue: &Queue, t: i64) -> Option<&Packet>
    ensures { option_copied result ≡ last_upto t (sync_points queue.now.packets) }
{
    let _end = queue.to();
    at_place(queue, queue.last_sync_upto(t))
}

#[tactic(auto, using(crate::proofs::Found::first_is))]
fn first(queue: &Queue) -> Option<&Packet>
    ensures { option_copied result ≡ first (sync_points queue.now.packets) }
{
    let _end = queue.to();
    at_place(queue, queue.first_sync())
}

#[tactic(auto, using(crate::proofs::Found::first_from_is))]
fn first_from(queue: &Queue, t: i64) -> Option<&Packet>
    ensures { option_copied result ≡ first_from t (sync_points queue.now.packets) }
{
    let _end = queue.to();
    at_place(queue, queue.first_sync_from(t))
}

#[tactic(auto, using(crate::proofs::Found::last_is))]
fn last(queue: &Queue) -> Option<&Packet>
    ensures { option_copied result ≡ last (sync_points queue.now.packets) }
{
    let _end = queue.to();
    at_place(queue, queue.last_sync())
}

#[tactic(auto, using(crate::proofs::Found::any_from_is))]
fn any_from(queue: &Queue, t: i64) -> bool
    ensures { result ≡ any_from t (sync_points queue.now.packets) }
{
    queue.has_sync_from(t)
}

#[tactic(auto, using(crate::proofs::Found::any_below_is))]
fn any_below(queue: &Queue, t: i64) -> bool
    ensures { result ≡ any_below t (sync_points queue.now.packets) }
{
    queue.has_sync_before(t)
}

fn begins(queue: &Queue) -> bool
    ensures { result ≡ (rank queue.now.from == 0) }
{
    is_start(queue.from())
}

// ---- what a queue serves

fn sync_back(queue: &Queue, t: i64) -> Option<&Packet>
    ensures { option_copied result ≡ sync_for Back t (sync_points queue.now.packets) }
{
    match last_upto(queue, t) {
        Some(packet) => Some(packet),
        None => first(queue),
    }
}

fn sync_forward(queue: &Queue, t: i64) -> Option<&Packet>
    ensures { option_copied result ≡ sync_for Forward t (sync_points queue.now.packets) }
{
    match first_from(queue, t) {
        Some(packet) => Some(packet),
        None => last(queue),
    }
}

/// The sync point that a seek to `t` asks for.
fn sync_for(queue: &Queue, dir: Dir, t: i64) -> Option<&Packet>
    ensures { option_copied result ≡ sync_for dir t (sync_points queue.now.packets) }
{
    match dir {
        Dir::Back => sync_back(queue, t),
        Dir::Forward => sync_forward(queue, t),
    }
}

/// Whether the queue shows that the sync point that it has for a seek back to `t`, if it has one, is
/// the film's: one at or behind `t` is there too, or the ending; and where it lies past `t`, nothing
/// lies before the queue.
fn served_back(queue: &Queue, ended: bool, t: i64, sync: Option<&Packet>) -> bool
    ensures { result ≡ serves_back queue.now ended t (option_copied sync.entry) }
{
    match sync {
        Some(packet) => if packet.time <= t {
            any_from(queue, t) || ended
        } else {
            begins(queue)
        },
        None => begins(queue) && ended,
    }
}

/// The same of a seek forward: it stands at `t`, or one below `t` is there too, or nothing lies
/// before the queue; and where it lies before `t`, the ending is there.
fn served_forward(queue: &Queue, ended: bool, t: i64, sync: Option<&Packet>) -> bool
    ensures { result ≡ serves_forward queue.now ended t (option_copied sync.entry) }
{
    match sync {
        Some(packet) => if t <= packet.time {
            packet.time <= t || any_below(queue, t) || begins(queue)
        } else {
            ended
        },
        None => ended && begins(queue),
    }
}

/// Whether the queue shows that no other sync point of the film is the one that a seek to `t` asks
/// for, where that is the one it has for it.
#[tactic(auto, using(crate::proofs::Shown::back_is, crate::proofs::Shown::forward_is))]
fn served(queue: &Queue, dir: Dir, ended: bool, t: i64, sync: Option<&Packet>) -> bool
    requires { option_copied sync ≡ sync_for dir t (sync_points queue.now.packets) }
    ensures { result ≡ served dir (rank queue.now.from) ended t (sync_points queue.now.packets) }
{
    match dir {
        Dir::Back => served_back(queue, ended, t, sync),
        Dir::Forward => served_forward(queue, ended, t, sync),
    }
}

// ---- what the queues of a range serve

/// Whether the queues serve a track, with the sync point that they have for it.
fn serves_track(
    queues: &Queues,
    ended: bool,
    dir: Dir,
    t: i64,
    track: Option<TrackNo>,
    sync: Option<&Packet>,
) -> bool
    requires { option_copied sync ≡ track_sync (syncs_of queues.now) dir t track }
    ensures { result
        ≡ passes track (serves_track (spans_of queues.now) ended (syncs_of queues.now) dir t) }
{
    let Some(track) = track else {
        return true;
    };
    match find(queues, track) {
        Some(queue) => served(queue, dir, ended, t, sync),
        None => false,
    }
}

fn holds_place(queue: &Queue, led: bool, block: u64) -> bool
    ensures { result
        ≡ (if led then nat_le (rank queue.now.from) (first_lane block)
        && nat_le (first_lane block) (rank queue.now.to) else rank queue.now.from == 0) }
{
    if led {
        let place = first_lane(block);
        is_upto(queue.from(), place) && is_upto(place, queue.to())
    } else {
        begins(queue)
    }
}

fn serves_sub(queues: &Queues, set: Choice, block: u64) -> bool
    ensures { result ≡ passes set.sub (serves_sub (spans_of queues.now) set block) }
{
    let Some(track) = set.sub else {
        return true;
    };
    match find(queues, track) {
        Some(queue) => holds_place(queue, has_lead(set), block),
        None => false,
    }
}

fn has_lead(set: Choice) -> bool
    ensures { result ≡ is_some (lead_of set) }
{
    set.video.is_some() || set.audio.is_some()
}

#[tactic(auto, using(crate::proofs::Found::no_sync))]
fn track_sync(queues: &Queues, dir: Dir, t: i64, track: Option<TrackNo>) -> Option<&Packet>
    ensures { option_copied result ≡ track_sync (syncs_of queues.now) dir t track }
{
    let Some(track) = track else {
        return None;
    };
    match find(queues, track) {
        Some(queue) => sync_for(queue, dir, t),
        None => None,
    }
}

fn block_of(packet: Option<&Packet>) -> u64
    ensures { result ≡ block_of (option_copied packet.entry) }
{
    match packet {
        Some(packet) => packet.pos.block,
        None => 0,
    }
}

fn time_or(t: i64, packet: Option<&Packet>) -> i64
    ensures { result ≡ time_or t (option_copied packet.entry) }
{
    match packet {
        Some(packet) => packet.time,
        None => t,
    }
}

fn audio_dir(video: Option<TrackNo>, dir: Dir) -> Dir
    ensures { result ≡ audio_dir video dir }
{
    match video {
        Some(_) => Dir::Back,
        None => dir,
    }
}

fn least_of(video: Option<TrackNo>, audio: Option<TrackNo>, m: u64, n: u64) -> u64
    ensures { result ≡ least_of video audio m n }
{
    match (video, audio) {
        (Some(_), Some(_)) => if m < n { m } else { n },
        (Some(_), None) => m,
        (None, Some(_)) => n,
        (None, None) => 0,
    }
}

fn head_at(track: Option<TrackNo>, block: u64) -> Option<Pos>
    ensures { result ≡ head_at track block }
{
    match track {
        Some(_) => Some(place_at(block)),
        None => None,
    }
}

/// The heads of a seek that the queues serve.
pub(crate) fn serve(queues: &Queues, ended: bool, set: Choice, t: i64, dir: Dir) -> Option<Heads>
    ensures { result ≡ heads_in queues.now ended set t dir }
{
    let video = track_sync(queues, dir, t, set.video);
    let ahead = audio_dir(set.video, dir);
    let time = time_or(t, video);
    let audio = track_sync(queues, ahead, time, set.audio);
    let start = least_of(set.video, set.audio, block_of(video), block_of(audio));
    let is_served = serves_track(queues, ended, dir, t, set.video, video)
        && serves_track(queues, ended, ahead, time, set.audio, audio)
        && serves_sub(queues, set, start);
    if is_served {
        Some(Heads {
            video: head_at(set.video, block_of(video)),
            audio: head_at(set.audio, block_of(audio)),
            sub: head_at(set.sub, start),
        })
    } else {
        None
    }
}
