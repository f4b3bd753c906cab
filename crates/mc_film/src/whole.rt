ghost use Rattle.std.specs.Prelude.{◌≡◌, ◌<◌, ◌≤◌, length, IfOk};
ghost use Rattle.mc_film.specs.declared.whole.FilmError.TheVariants as failures;
ghost use Rattle.mc_walk.specs.Opening.{opened_film};
ghost use Rattle.mc_walk.specs.Parts.{opening_mark};
ghost use Rattle.mc_film.specs.Film.{Gives, film_of, whole, FilmIsItsFrames, FilmIsItsParts};
ghost use Rattle.mc_film.specs.Chunks.{IsMarkIn};

use crate::opening::{find_segment, read_header};
use crate::step::walk_on;
use bytes::Bytes;
use mc_packet::{Ending, Level, NoMemory, Packets};
use mc_tracks::{Refused, TrackList, TracksError, parse_ebml_header};
use mc_walk::Plan;
use std::alloc::{AllocError, Global};

/// A film that was read as a whole.
#[derive(Drop)]
pub struct WholeFilm {
    /// Nanoseconds in a unit of time, at least 1 (RFC 9559, section 5.1.2.9).
    pub scale: u64,
    /// The tracks that the film lists, in the order of their TrackEntries.
    pub tracks: TrackList,
    /// The packets of all listed tracks that are not encoded, in file order.
    pub packets: Packets,
    /// How the film ends.
    pub ending: Ending,
}

/// Why a film is not read.
#[derive(Clone, Copy, Debug, PartialEq, Eq)]
pub enum FilmError {
    /// What stands before its Clusters is refused.
    Refused(Refused),
    /// Memory was wanting.
    NoMemory,
}

impl From<AllocError> for FilmError {
    ghost from_gives = { λ _ e. e ≡ failures.NoMemory };

    fn from(_e: AllocError) -> FilmError {
        FilmError::NoMemory
    }
}

impl From<Refused> for FilmError {
    ghost from_gives = { λ r e. e ≡ failures.Refused r };

    fn from(r: Refused) -> FilmError {
        FilmError::Refused(r)
    }
}

impl From<TracksError> for FilmError {
    ghost use Rattle.mc_film.specs.Film.{film_error};

    ghost from_gives = { λ t e. e ≡ film_error t };

    fn from(e: TracksError) -> FilmError {
        match e {
            TracksError::Refused(r) => FilmError::Refused(r),
            TracksError::NoMemory => FilmError::NoMemory,
        }
    }
}

// What a walk over the film goes over.
#[tactic(auto, unfolding(mc_walk::specs::Opening::opened_film))]
fn open(alloc: Global, octets: Bytes) -> Result<Plan, FilmError>
    ensures value { Gives result (opened_film octets) }
    ensures opening { IfOk result (λ p. p.opening ≤ length p.octets) }
{
    let bytes = octets.as_slice();
    let from = parse_ebml_header(bytes)?;
    let segment = find_segment(bytes, from)?;
    let header = read_header(alloc, bytes, segment)?;
    Ok(Plan {
        octets,
        opening: segment.opening,
        segment_end: segment.end,
        scale: header.scale,
        tracks: header.tracks,
    })
}

fn read_whole(alloc: Global, plan: Plan) -> Result<WholeFilm, NoMemory>
    requires { plan.opening ≤ length plan.octets }
    ensures { IfOk result (λ f. f ≡ whole plan) }
{
    let (packets, ending) = walk_on(alloc, &plan, plan.opening, Level::Segment)?;
    Ok(WholeFilm {
        scale: plan.scale,
        tracks: plan.tracks,
        packets,
        ending,
    })
}

/// The film that these octets are; its packets share them.
///
/// `Refused` exactly where what stands before the Clusters is refused (RFC 8794, section 11.2;
/// RFC 9559, section 5.1). A cut or damaged film is no error: its ending says so.
///
/// The packets are the frames of the block elements that stand in the film up to its ending: each
/// frame once, in file order, at the offset of its block's element. Read part by part, from mark
/// to mark, the film has the same packets and ends in the same way; the opening mark is the first.
#[tactic(auto, unfolding(crate::specs::Film::film_of))]
pub fn film_of_octets(alloc: Global, octets: Bytes) -> Result<WholeFilm, FilmError>
    ensures film { Gives result (film_of octets) }
    ensures frames { IfOk result (FilmIsItsFrames octets) }
    ensures parts { IfOk result (FilmIsItsParts octets) }
    ensures opening { IfOk result (λ f. IsMarkIn octets opening_mark) }
{
    let plan = open(alloc, octets)?;
    Ok(read_whole(alloc, plan)?)
}

/// The film that these octets are, over a copy of them; of it holds what holds of
/// `film_of_octets`.
pub fn film(alloc: Global, bytes: &[u8]) -> Result<WholeFilm, FilmError>
    ensures film { Gives result (film_of bytes.now) }
    ensures frames { IfOk result (FilmIsItsFrames bytes.now) }
    ensures parts { IfOk result (FilmIsItsParts bytes.now) }
    ensures opening { IfOk result (λ f. IsMarkIn bytes.now opening_mark) }
{
    film_of_octets(alloc, Bytes::copy_from_slice(alloc, bytes)?)
}
