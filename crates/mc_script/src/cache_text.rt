ghost use Rattle.std.specs.Prelude.{◌≡◌, string_bytes, OnOk, map, [], ◌∷◌, ◌++◌, codes, decimal};
ghost use Rattle.std.specs.Fmt.{signed_decimal};
ghost use Rattle.std.specs.List.{flat_map};
ghost use Rattle.mc_packet.specs.Choices.{is_empty};
ghost use Rattle.mc_script.specs.CacheText.{of_kind, number_or, order_by, order_of, answer_text, seek_text, number_text, numbers_text, time_text, switch_text, pos_text, moment_text, limit_text, count_text, mismatch_text, cause_text, dropped_text, drop_text, overfull_text, yes_text, sums_text, ends_text, bounds_text, span_of, queue_text, range_text, view_text, numbered_text, refused_text};

use mc_journal::{Cause, Removal, Sought};
use mc_packet::{CacheView, Choice, Dir, Kind, NoMemory, Pos, RangeView, Spans, TrackNo, Why};

// ---- tracks by rising number

fn track_of(set: Choice, kind: Kind) -> Option<TrackNo>
    ensures { result ≡ of_kind set kind }
{
    match kind {
        Kind::Video => set.video,
        Kind::Audio => set.audio,
        Kind::Sub => set.sub,
    }
}

fn number_of(track: Option<TrackNo>) -> u64
    ensures { result ≡ number_or track }
{
    match track {
        Some(n) => n,
        None => 0,
    }
}

fn order_numbers(video: u64, audio: u64, sub: u64) -> [Kind; 3]
    ensures { result ≡ order_by video audio sub }
{
    if video <= audio {
        if audio <= sub {
            [Kind::Video, Kind::Audio, Kind::Sub]
        } else if video <= sub {
            [Kind::Video, Kind::Sub, Kind::Audio]
        } else {
            [Kind::Sub, Kind::Video, Kind::Audio]
        }
    } else if video <= sub {
        [Kind::Audio, Kind::Video, Kind::Sub]
    } else if audio <= sub {
        [Kind::Audio, Kind::Sub, Kind::Video]
    } else {
        [Kind::Sub, Kind::Audio, Kind::Video]
    }
}

fn order(set: Choice) -> [Kind; 3]
    ensures { result ≡ order_of set }
{
    order_numbers(
        number_of(set.video),
        number_of(set.audio),
        number_of(set.sub),
    )
}

// ---- seeks and switches

fn answer_name(dir: Dir, how: Sought) -> &'static str
    ensures { result.now ≡ answer_text dir how }
{
    match (dir, how) {
        (Dir::Back, Sought::Cached) => "cached",
        (Dir::Back, Sought::Sent) => "sent",
        (Dir::Forward, Sought::Cached) => "forward cached",
        (Dir::Forward, Sought::Sent) => "forward sent",
    }
}

fn push_seek_line(text: &mut String, t: i64, answer: &str) -> Result<(), NoMemory>
    ensures { OnOk result
        (string_bytes text.new ≡ string_bytes text.old ++ seek_text t answer.now) }
{
    write!(text, "seek {t} {answer}\n")
}

pub fn push_seek(text: &mut String, t: i64, dir: Dir, how: Sought) -> Result<(), NoMemory>
    ensures { OnOk result (string_bytes text.new
        ≡ string_bytes text.old ++ seek_text t (answer_text dir how)) }
{
    push_seek_line(text, t, answer_name(dir, how))
}

fn push_number(text: &mut String, track: Option<TrackNo>) -> Result<(), NoMemory>
    ensures { OnOk result (string_bytes text.new ≡ string_bytes text.old ++ number_text track) }
{
    match track {
        Some(n) => write!(text, " {n}"),
        None => Ok(()),
    }
}

fn is_nothing(set: Choice) -> bool
    ensures { result ≡ is_empty set }
{
    set.video.is_none() && set.audio.is_none() && set.sub.is_none()
}

fn push_numbers(text: &mut String, set: Choice) -> Result<(), NoMemory>
    ensures { OnOk result (string_bytes text.new ≡ string_bytes text.old ++ numbers_text set) }
{
    if is_nothing(set) {
        return text.push_str(" none");
    }
    let [a, b, c] = order(set);
    push_number(text, track_of(set, a))?;
    push_number(text, track_of(set, b))?;
    push_number(text, track_of(set, c))
}

fn push_time(text: &mut String, t: i64) -> Result<(), NoMemory>
    ensures { OnOk result (string_bytes text.new ≡ string_bytes text.old ++ time_text t) }
{
    write!(text, " at {t}\n")
}

pub fn push_switch(text: &mut String, set: Choice, t: i64) -> Result<(), NoMemory>
    ensures { OnOk result (string_bytes text.new ≡ string_bytes text.old ++ switch_text set t) }
{
    text.push_str("switch")?;
    push_numbers(text, set)?;
    push_time(text, t)
}

// ---- drops

fn push_pos(text: &mut String, pos: Pos) -> Result<(), NoMemory>
    ensures { OnOk result (string_bytes text.new ≡ string_bytes text.old ++ pos_text pos) }
{
    let block = pos.block;
    let lane = pos.lane;
    write!(text, "{block}.{lane}")
}

fn push_moment(text: &mut String, time: Option<i64>) -> Result<(), NoMemory>
    ensures { OnOk result (string_bytes text.new ≡ string_bytes text.old ++ moment_text time) }
{
    match time {
        Some(t) => write!(text, " {t}"),
        None => text.push_str(" none"),
    }
}

fn push_limit(text: &mut String, back: u64, max: u64) -> Result<(), NoMemory>
    ensures { OnOk result (string_bytes text.new ≡ string_bytes text.old ++ limit_text back max) }
{
    write!(text, " limit {back} {max}")
}

fn push_count(text: &mut String, count: u32) -> Result<(), NoMemory>
    ensures { OnOk result (string_bytes text.new ≡ string_bytes text.old ++ count_text count) }
{
    write!(text, " many {count}")
}

fn push_mismatch(
    text: &mut String,
    pos: Pos,
    ours: Option<i64>,
    other: Option<i64>,
) -> Result<(), NoMemory>
    ensures { OnOk result (string_bytes text.new
        ≡ string_bytes text.old ++ mismatch_text pos ours other) }
{
    text.push_str(" mismatch ")?;
    push_pos(text, pos)?;
    push_moment(text, ours)?;
    push_moment(text, other)
}

fn push_cause(text: &mut String, cause: Cause) -> Result<(), NoMemory>
    ensures { OnOk result (string_bytes text.new ≡ string_bytes text.old ++ cause_text cause) }
{
    match cause {
        Cause::Limit { back, max } => push_limit(text, back, max),
        Cause::TooMany { count } => push_count(text, count),
        Cause::TrackChanged => text.push_str(" track"),
        Cause::Mismatch { pos, ours, other } => push_mismatch(text, pos, ours, other),
    }
}

fn push_dropped(text: &mut String, track: TrackNo) -> Result<(), NoMemory>
    ensures { OnOk result (string_bytes text.new ≡ string_bytes text.old ++ dropped_text track) }
{
    write!(text, "drop {track} from ")
}

pub fn push_drop(text: &mut String, drop: Removal) -> Result<(), NoMemory>
    ensures { OnOk result (string_bytes text.new
        ≡ string_bytes text.old ++ drop_text drop.track drop.from drop.to drop.cause) }
{
    push_dropped(text, drop.track)?;
    push_pos(text, drop.from)?;
    text.push_str(" to ")?;
    push_pos(text, drop.to)?;
    push_cause(text, drop.cause)?;
    text.push_str("\n")
}

pub fn push_overfull(
    text: &mut String,
    track: TrackNo,
    forward: u64,
    max: u64,
) -> Result<(), NoMemory>
    ensures { OnOk result (string_bytes text.new
        ≡ string_bytes text.old ++ overfull_text track forward max) }
{
    write!(text, "overfull {track} {forward} {max}\n")
}

// ---- looks

fn yes_name(yes: bool) -> &'static str
    ensures { result.now ≡ yes_text yes }
{
    if yes { "yes" } else { "no" }
}

fn push_sums(text: &mut String, count: usize, forward: u64, back: u64) -> Result<(), NoMemory>
    ensures { OnOk result (string_bytes text.new
        ≡ string_bytes text.old ++ sums_text count forward back) }
{
    write!(text, "view ranges {count} forward {forward} back {back}")
}

fn push_ends(text: &mut String, word: &str) -> Result<(), NoMemory>
    ensures { OnOk result (string_bytes text.new ≡ string_bytes text.old ++ ends_text word.now) }
{
    write!(text, " ending {word}\n")
}

fn push_bounds(text: &mut String, bounds: Option<(i64, i64)>) -> Result<(), NoMemory>
    ensures { OnOk result (string_bytes text.new ≡ string_bytes text.old ++ bounds_text bounds) }
{
    match bounds {
        Some((low, high)) => write!(text, "range {low} {high}"),
        None => text.push_str("range none none"),
    }
}

fn span_in(spans: Spans, kind: Kind) -> Option<(Pos, Pos)>
    ensures { result ≡ span_of spans kind }
{
    match kind {
        Kind::Video => spans.video,
        Kind::Audio => spans.audio,
        Kind::Sub => spans.sub,
    }
}

fn push_queue(
    text: &mut String,
    track: Option<TrackNo>,
    span: Option<(Pos, Pos)>,
) -> Result<(), NoMemory>
    ensures { OnOk result (string_bytes text.new ≡ string_bytes text.old ++ queue_text track span) }
{
    match (track, span) {
        (Some(track), Some((from, to))) => {
            push_number(text, Some(track))?;
            text.push_str(" ")?;
            push_pos(text, from)?;
            text.push_str(" ")?;
            push_pos(text, to)
        }
        _ => Ok(()),
    }
}

fn push_range(text: &mut String, set: Choice, range: RangeView) -> Result<(), NoMemory>
    ensures { OnOk result (string_bytes text.new ≡ string_bytes text.old ++ range_text set range) }
{
    let [a, b, c] = order(set);
    push_bounds(text, range.bounds)?;
    push_queue(text, track_of(set, a), span_in(range.spans, a))?;
    push_queue(text, track_of(set, b), span_in(range.spans, b))?;
    push_queue(text, track_of(set, c), span_in(range.spans, c))?;
    text.push_str("\n")
}

fn push_ranges(text: &mut String, set: Choice, ranges: &[RangeView]) -> Result<(), NoMemory>
    ensures { OnOk result (string_bytes text.new
        ≡ string_bytes text.old ++ flat_map (range_text set) ranges.now) }
{
    for range in ranges {
        push_range(text, set, *range)?;
    }
    Ok(())
}

pub fn push_view(text: &mut String, set: Choice, view: &CacheView) -> Result<(), NoMemory>
    ensures { OnOk result
        (string_bytes text.new ≡ string_bytes text.old ++ view_text set view.now) }
{
    push_sums(text, view.ranges.len(), view.forward, view.back)?;
    push_ends(text, yes_name(view.ending.is_some()))?;
    push_ranges(text, set, view.ranges.as_slice())
}

// ---- refusals

fn push_numbered(text: &mut String, why: &str, track: TrackNo) -> Result<(), NoMemory>
    ensures { OnOk result (string_bytes text.new
        ≡ string_bytes text.old ++ numbered_text why.now track) }
{
    write!(text, "refused {why} {track}\n")
}

pub fn push_refused(text: &mut String, why: Why) -> Result<(), NoMemory>
    ensures { OnOk result (string_bytes text.new ≡ string_bytes text.old ++ refused_text why) }
{
    match why {
        Why::NoTrack => text.push_str("refused no-track\n"),
        Why::UnknownTrack(track) => push_numbered(text, "unknown-track", track),
        Why::Unsupported(track) => push_numbered(text, "unsupported", track),
        Why::TwoOfKind(track) => push_numbered(text, "two-of-kind", track),
    }
}
