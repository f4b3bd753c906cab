use mc_range::{Cut, NoMemory, Range, UnionError};
use rows::RowError;
use rows_packets::{push_choice, push_ending, push_place, push_span, push_time};
use std::fmt::Write;

/// Appends what a range holds of video, audio and subtitles, its mark, how many packets it has and
/// what they count for.
pub fn push_range(range: &Range, out: &mut String) -> Result<(), NoMemory> {
    let spans = range.spans();
    push_span(spans.video, out)?;
    out.push(' ')?;
    push_span(spans.audio, out)?;
    out.push(' ')?;
    push_span(spans.sub, out)?;
    let (mark, packets, weight) = (range.mark().pos, range.packets(), range.weight());
    write!(out, " mark {mark} of {packets}, {weight} octets")
}

/// Appends the same, and before it the tracks and how the range ends.
pub fn push_whole(range: &Range, out: &mut String) -> Result<(), NoMemory> {
    push_choice(range.set(), out)?;
    out.push(' ')?;
    push_ending(range.ending(), out)?;
    out.push_str(": ")?;
    push_range(range, out)
}

/// Appends what was cut.
pub fn push_cut(cut: Option<Cut>, out: &mut String) -> Result<(), NoMemory> {
    match cut {
        Some(cut) => {
            write!(out, "{} ", cut.track)?;
            push_span(Some((cut.from, cut.to)), out)
        }
        None => out.push_str("none"),
    }
}

/// Appends why two ranges are not joined.
pub fn push_refusal(error: UnionError, out: &mut String) -> Result<(), RowError> {
    match error {
        UnionError::Mismatch { pos, ours, other } => {
            out.push_str("mismatch at ")?;
            push_place(Some(pos), out)?;
            out.push_str(" of ")?;
            push_time(ours, out)?;
            out.push_str(" and ")?;
            Ok(push_time(other, out)?)
        }
        UnionError::NoMemory => Err(RowError::NoMemory),
    }
}
