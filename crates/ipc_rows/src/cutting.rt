use mc_ipc::{Line, LineCut};
use rows::{Json, RowError, number_in, octets_in, one, text_in, two};
use std::alloc::{AllocError, Global};
use std::fmt::Write;

/// Feeds the octets of a text.
pub fn feed_text(
    alloc: Global,
    cut: &mut LineCut,
    arguments: &[Json<'_>],
    out: &mut String,
) -> Result<(), RowError> {
    feed(alloc, cut, text_in(one(arguments)?)?.as_bytes(), out)
}

/// Feeds octets.
pub fn feed_octets(
    alloc: Global,
    cut: &mut LineCut,
    arguments: &[Json<'_>],
    out: &mut String,
) -> Result<(), RowError> {
    let octets = octets_in(alloc, one(arguments)?)?;
    feed(alloc, cut, octets.as_slice(), out)
}

/// Feeds the octets of a text, so many times over, as one piece.
pub fn feed_many(
    alloc: Global,
    cut: &mut LineCut,
    arguments: &[Json<'_>],
    out: &mut String,
) -> Result<(), RowError> {
    let (times, text) = two(arguments)?;
    let text = text_in(text)?;
    let mut piece = Vec::new(alloc);
    for _ in 0..u32::try_from(number_in(times)?)? {
        piece.extend_from_slice(text.as_bytes())?;
    }
    feed(alloc, cut, piece.as_slice(), out)
}

fn feed(alloc: Global, cut: &mut LineCut, piece: &[u8], out: &mut String) -> Result<(), RowError> {
    let fed = cut.feed(alloc, piece)?;
    for line in fed.lines.as_slice() {
        push_line(out, line)?;
    }
    Ok(match fed.long {
        Some(number) => write!(out, "line {number} is too long")?,
        None => out.push('.')?,
    })
}

// How long a line is shown, in octets.
const SHOWN: usize = 80;

// A line with a `|` behind it: its text, or else how many octets it has.
fn push_line(out: &mut String, line: &Line) -> Result<(), AllocError> {
    match std::str::from_utf8(line.as_slice()) {
        Ok(text) if text.len() <= SHOWN => {
            out.push_str(text)?;
            out.push('|')
        }
        _ => write!(out, "({})|", line.len()),
    }
}
