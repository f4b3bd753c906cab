ghost use Rattle.std.specs.Prelude.{◌≡◌, nat_le};
ghost use Rattle.mc_packet.specs.Choices.{or_else};
ghost use Rattle.mc_journal.specs.Films.{audio_dir};
ghost use Rattle.mc_index.specs.Answers.{needed_lead};
ghost use Rattle.mc_index.specs.Searches.{is_at, chosen, point_time, point_mark, track_mark, least_mark, mark_or_opening, start_by, starts_by, sub_mark, seek_starts, reference, seek_of, switch_of};

use crate::entry::Point;
use crate::index::opening_mark;
use crate::search::Around;
use mc_packet::{Choice, Dir, Mark, Starts, TrackNo};

// ---- which sync point a seek asks for

fn or_else(point: Option<Point>, other: Option<Point>) -> Option<Point>
    ensures { result ≡ or_else point other }
{
    match point {
        Some(point) => Some(point),
        None => other,
    }
}

fn is_at(point: Option<Point>, t: i64) -> bool
    ensures { result ≡ is_at t point }
{
    match point {
        Some(point) => t <= point.time,
        None => false,
    }
}

// The sync point that a seek to a time asks for, by those next to it.
fn chosen(around: Around, dir: Dir, t: i64) -> Option<Point>
    ensures { result ≡ chosen dir t around }
{
    match dir {
        Dir::Back => or_else(around.before, around.after),
        Dir::Forward => if is_at(around.before, t) {
            around.before
        } else {
            or_else(around.after, around.before)
        },
    }
}

// In which direction audio looks: back, from the video sync point's time, where a video track leads.
fn audio_dir(video: Option<TrackNo>, dir: Dir) -> Dir
    ensures { result ≡ audio_dir video dir }
{
    match video {
        Some(_) => Dir::Back,
        None => dir,
    }
}

// The time of a sync point, or another one where there is none.
fn point_time(t: i64, point: Option<Point>) -> i64
    ensures { result ≡ point_time t point }
{
    match point {
        Some(point) => point.time,
        None => t,
    }
}

/// The lead, where a subtitle is added that starts by it.
pub(crate) fn needed_lead(sub: Option<TrackNo>, lead: Option<TrackNo>) -> Option<TrackNo>
    ensures { result ≡ needed_lead sub lead }
{
    match sub {
        Some(_) => lead,
        None => None,
    }
}

// ---- the starts

fn point_mark(point: Option<Point>) -> Mark
    ensures { result ≡ point_mark point }
{
    match point {
        Some(point) => point.mark,
        None => opening_mark(),
    }
}

// Where a track starts, if there is one.
fn track_mark(track: Option<TrackNo>, point: Option<Point>) -> Option<Mark>
    ensures { result ≡ track_mark track point }
{
    match track {
        Some(_) => Some(point_mark(point)),
        None => None,
    }
}

fn least_mark(one: Option<Mark>, other: Option<Mark>) -> Option<Mark>
    ensures { result ≡ least_mark one other }
{
    match (one, other) {
        (Some(a), Some(b)) => Some(if a.pos <= b.pos { a } else { b }),
        (Some(a), None) => Some(a),
        (None, b) => b,
    }
}

fn mark_or_opening(mark: Option<Mark>) -> Mark
    ensures { result ≡ mark_or_opening mark }
{
    match mark {
        Some(mark) => mark,
        None => opening_mark(),
    }
}

fn sub_mark(sub: Option<TrackNo>, least: Option<Mark>) -> Option<Mark>
    ensures { result ≡ sub_mark sub least }
{
    match sub {
        Some(_) => Some(mark_or_opening(least)),
        None => None,
    }
}

fn start_by(mark: Option<Mark>) -> Option<u64>
    ensures { result ≡ start_by mark }
{
    match mark {
        Some(mark) => Some(mark.pos),
        None => None,
    }
}

fn starts_by(video: Option<Mark>, audio: Option<Mark>, sub: Option<Mark>) -> Starts
    ensures { result ≡ starts_by video audio sub }
{
    Starts {
        video: start_by(video),
        audio: start_by(audio),
        sub: start_by(sub),
        mark: mark_or_opening(least_mark(video, least_mark(audio, sub))),
    }
}

fn points_starts(set: Choice, video: Option<Point>, audio: Option<Point>) -> Starts
    ensures { result ≡ seek_starts set video audio }
{
    let video = track_mark(set.video, video);
    let audio = track_mark(set.audio, audio);
    starts_by(video, audio, sub_mark(set.sub, least_mark(video, audio)))
}

/// The time by which audio beside video looks for its sync point: that of the video track's, or `t`
/// where it has none.
pub(crate) fn reference(lead: Around, dir: Dir, t: i64) -> i64
    ensures { result ≡ reference dir t lead }
{
    point_time(t, chosen(lead, dir, t))
}

/// The starts of a seek, by the sync points of its video track next to `t`, and those of its audio
/// track next to the reference time.
pub(crate) fn seek_starts(set: Choice, dir: Dir, t: i64, lead: Around, beside: Around) -> Starts
    ensures { result ≡ seek_of set dir t lead beside }
{
    let time = reference(lead, dir, t);
    let audio = chosen(beside, audio_dir(set.video, dir), time);
    points_starts(set, chosen(lead, dir, t), audio)
}

/// The starts of a switch, by the sync points next to `at` of the added tracks, and of the lead.
pub(crate) fn switch_starts(
    added: Choice,
    at: i64,
    video: Around,
    audio: Around,
    lead: Around,
) -> Starts
    ensures { result ≡ switch_of added at video audio lead }
{
    starts_by(
        track_mark(added.video, chosen(video, Dir::Back, at)),
        track_mark(added.audio, chosen(audio, Dir::Back, at)),
        track_mark(added.sub, lead.before),
    )
}
