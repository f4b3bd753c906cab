use crate::work::write_tested;
use mc_dump::choose;
use mc_film::{FilmError, WholeFilm, film};
use mc_outside::StdSink;
use mc_packet::TrackNo;
use std::alloc::Global;
use std::rt::Files;
use std::{fs, io};

/// A span of a film.
#[derive(Clone, Copy)]
pub struct Span {
    /// The number of the track at whose keyframe it begins.
    lead: TrackNo,
    /// Times in nanoseconds; none is the film's beginning, or its end.
    from: Option<i64>,
    to: Option<i64>,
}

// `no` or a number.
fn time_in(word: &str) -> Option<Option<i64>> {
    if word == "no" {
        return Some(None);
    }
    Some(Some(word.parse().ok()?))
}

/// A span by its words.
pub fn span_of(words: &[String]) -> Option<Span> {
    match words {
        [lead, from, to] => Some(Span {
            lead: lead.parse().ok()?,
            from: time_in(from.as_str())?,
            to: time_in(to.as_str())?,
        }),
        _ => None,
    }
}

fn read<R: Files + Alloc>(rt: &R, alloc: Global, name: &str) -> io::Result<WholeFilm> {
    let octets = fs::read(rt, name)?;
    film(alloc, octets.as_slice()).map_err(|error| match error {
        FilmError::Refused(_) => io::Error::from(io::ErrorKind::InvalidData),
        FilmError::NoMemory => io::Error::from(io::ErrorKind::OutOfMemory),
    })
}

/// Writes the film of a span of a film to standard output.
pub fn write(rt: &HostRuntime, alloc: Global, name: &str, span: Span) -> io::Result<()> {
    let whole = read(rt, alloc, name)?;
    let packets = choose(
        alloc,
        whole.packets.as_slice(),
        Some(span.lead),
        span.from,
        span.to,
    )?;
    let mut out = StdSink::new(io::writer(rt));
    write_tested(
        alloc,
        &mut out,
        whole.scale,
        &whole.tracks,
        packets.as_slice(),
    )
}
