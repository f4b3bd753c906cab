use mc_packet::{Choice, Ending, Heads, NoMemory, Pos, TrackNo};
use std::fmt::Write;

/// Appends a place.
pub fn push_place(place: Option<Pos>, out: &mut String) -> Result<(), NoMemory> {
    match place {
        Some(pos) => write!(out, "{}.{}", pos.block, pos.lane),
        None => out.push_str("none"),
    }
}

/// Appends a time in nanoseconds.
pub fn push_time(time: Option<i64>, out: &mut String) -> Result<(), NoMemory> {
    match time {
        Some(time) => write!(out, "{time}"),
        None => out.push_str("none"),
    }
}

fn push_track(track: Option<TrackNo>, out: &mut String) -> Result<(), NoMemory> {
    match track {
        Some(track) => write!(out, "{track}"),
        None => out.push_str("none"),
    }
}

/// Appends the tracks of video, audio and subtitles.
pub fn push_choice(set: Choice, out: &mut String) -> Result<(), NoMemory> {
    push_track(set.video, out)?;
    out.push(' ')?;
    push_track(set.audio, out)?;
    out.push(' ')?;
    push_track(set.sub, out)
}

/// Appends the places of video, audio and subtitles.
pub fn push_heads(heads: Heads, out: &mut String) -> Result<(), NoMemory> {
    push_place(heads.video, out)?;
    out.push(' ')?;
    push_place(heads.audio, out)?;
    out.push(' ')?;
    push_place(heads.sub, out)
}

/// Appends where a span begins and ends.
pub fn push_span(span: Option<(Pos, Pos)>, out: &mut String) -> Result<(), NoMemory> {
    match span {
        Some((from, to)) => {
            push_place(Some(from), out)?;
            out.push('-')?;
            push_place(Some(to), out)
        }
        None => out.push_str("none"),
    }
}

/// Appends how a film ends, or `open`.
pub fn push_ending(ending: Option<Ending>, out: &mut String) -> Result<(), NoMemory> {
    match ending {
        Some(ending) => write!(out, "{ending:?}"),
        None => out.push_str("open"),
    }
}
