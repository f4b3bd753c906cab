ghost use Rattle.std.specs.Prelude.{◌≡◌, ◌≤◌, [], length, None, Some, Ok, IfOk};
ghost use Rattle.mc_walk.specs.Opening.{opened_film};
ghost use Rattle.mc_walk.specs.Parts.{place_of, level_of, chunk_at};
ghost use Rattle.mc_film.specs.Film.{film_of};
ghost use Rattle.mc_film.specs.Chunks.{chunk_in, IsMarkIn};

use crate::opening::find_segment;
use crate::step::next_step;
use crate::whole::WholeFilm;
use bytes::Bytes;
use mc_packet::{Chunk, Ending, Level, Mark, NoMemory, Packets};
use mc_tracks::parse_ebml_header;
use mc_walk::{Plan, Step};
use std::alloc::Global;

// What a walk over a film goes over, by the film and its octets.
fn reopen(octets: &Bytes, film: &WholeFilm) -> Result<Plan, NoMemory>
    requires { film_of octets.now ≡ Ok film.now }
    ensures value { IfOk result (λ p. opened_film octets.now ≡ Ok p) }
    ensures opening { IfOk result (λ p. p.opening ≤ length p.octets) }
{
    let bytes = octets.as_slice();
    let Ok(from) = parse_ebml_header(bytes) else {
        unreachable!()
    };
    let Ok(segment) = find_segment(bytes, from) else {
        unreachable!()
    };
    Ok(Plan {
        octets: octets.clone()?,
        opening: segment.opening,
        segment_end: segment.end,
        scale: film.scale,
        tracks: film.tracks.copy()?,
    })
}

// The place and the level that a mark stands for.
fn start_of(plan: &Plan, mark: Mark) -> (u64, Level)
    ensures place { result.0 ≡ place_of plan.now mark }
    ensures level { result.1 ≡ level_of mark }
{
    if mark.pos == 0 {
        (plan.opening, Level::Segment)
    } else {
        (mark.pos, mark.level)
    }
}

// The chunk that ends at the film's ending.
fn last_chunk(alloc: Global, from: Mark, to: Mark, ending: Ending) -> Chunk
    ensures { result ≡ record { from = from; to = to; packets = []; ending = Some ending } }
{
    Chunk {
        from,
        to,
        packets: Packets::new(alloc),
        ending: Some(ending),
    }
}

// The chunk that ends with a block element.
fn block_chunk(from: Mark, to: Mark, packets: Packets) -> Chunk
    ensures { result ≡ record { from = from; to = to; packets = packets; ending = None } }
{
    Chunk {
        from,
        to,
        packets,
        ending: None,
    }
}

// Walks on from a mark to just past the next block element, or to the film's ending.
fn read_chunk(alloc: Global, plan: &Plan, mark: Mark) -> Result<Chunk, NoMemory>
    requires { place_of plan.now mark ≤ length plan.now.octets }
    ensures { IfOk result (λ k. k ≡ chunk_at plan.now mark) }
{
    let (from, outer) = start_of(plan, mark);
    let mut place = from;
    let mut level = outer;
    let budget = plan.octets.len() + 1;
    for _ in 0..budget {
        match next_step(alloc, plan, place, level)? {
            Step::End(ending) => {
                let to = Mark { pos: place, level };
                return Ok(last_chunk(alloc, mark, to, ending));
            }
            Step::On {
                to,
                level: inner,
                block,
            } => {
                place = to;
                level = inner;
                if let Some(packets) = block {
                    let to = Mark { pos: place, level };
                    return Ok(block_chunk(mark, to, packets));
                }
            }
        }
    }
    let to = Mark { pos: place, level };
    Ok(last_chunk(alloc, mark, to, Ending::Clean))
}

/// The part of a film from a mark to just past the next SimpleBlock or BlockGroup of any track,
/// or, where none follows, to the film's ending, with no packet. Its packets share the octets.
///
/// `film` is the film that the octets are, and `mark` one of its marks: the opening mark, at
/// offset 0, the end of a chunk, or the offset of a block element with the level that its Cluster
/// has there. The chunk's end is a mark again, from which the film is read on; from the mark of its
/// ending the same ending is answered. Each call reads anew what stands before the Segment's first
/// child, and then on from the mark.
pub fn chunk_of_octets(
    alloc: Global,
    octets: &Bytes,
    film: &WholeFilm,
    mark: Mark,
) -> Result<Chunk, NoMemory>
    requires film { film_of octets.now ≡ Ok film.now }
    requires mark { IsMarkIn octets.now mark }
    ensures value { IfOk result (λ k. chunk_in octets.now mark ≡ Ok k) }
    ensures onward { IfOk result (λ k. IsMarkIn octets.now k.to) }
{
    let plan = reopen(octets, film)?;
    read_chunk(alloc, &plan, mark)
}

/// The part of a film from a mark on, over a copy of its octets; of it holds what holds of
/// `chunk_of_octets`.
pub fn chunk_at(
    alloc: Global,
    bytes: &[u8],
    film: &WholeFilm,
    mark: Mark,
) -> Result<Chunk, NoMemory>
    requires film { film_of bytes.now ≡ Ok film.now }
    requires mark { IsMarkIn bytes.now mark }
    ensures value { IfOk result (λ k. chunk_in bytes.now mark ≡ Ok k) }
    ensures onward { IfOk result (λ k. IsMarkIn bytes.now k.to) }
{
    let octets = Bytes::copy_from_slice(alloc, bytes)?;
    chunk_of_octets(alloc, &octets, film, mark)
}
