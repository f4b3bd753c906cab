ghost use Rattle.std.specs.Prelude.{◌≡◌, ◌+◌, ◌^◌, ◌<◌, ◌≤◌, length, Option, IfOk, IfSome};
ghost use Rattle.mc_ebml.specs.Whole.{element_at, LiesIn};
ghost use Rattle.mc_tracks.specs.Children.{first};
ghost use Rattle.mc_walk.specs.Opening.{segment_of, segment_child, first_child, info_in, tracks_in, header_by, header_of, info_then_tracks, tracks_then_info};
ghost use Rattle.mc_film.specs.Film.{Gives};

use crate::whole::FilmError;
use mc_ebml::{WholeElement, ids, read_element, read_head};
use mc_packet::LARGEST_HEADER;
use mc_tracks::{Refused, TrackList, parse_info, parse_tracks};
use mc_walk::{Header, Segment, body_end, child_before_cluster};
use std::alloc::Global;

/// The first Segment from a place on, behind elements that stand whole.
pub(crate) fn find_segment(octets: &[u8], from: usize) -> Result<Segment, Refused>
    requires { from ≤ length octets.now }
    ensures value { result ≡ segment_of octets.now from }
    ensures bounds { IfOk result (λ s. s.opening ≤ length octets.now) }
{
    let mut place = from;
    for _ in 0..octets.len() {
        let Ok(head) = read_head(octets, place) else {
            return Err(Refused::NoSegment);
        };
        if head.id == ids::SEGMENT {
            return Ok(Segment {
                opening: head.body as u64,
                end: body_end(head.body, head.size),
            });
        }
        match read_element(octets, place) {
            Some(element) => place = element.stop,
            None => return Err(Refused::NoSegment),
        }
    }
    Err(Refused::NoSegment)
}

// The child of the Segment at a place: no Cluster, and whole in the film and in the Segment.
fn read_segment_child(octets: &[u8], end: Option<u64>, place: usize) -> Option<WholeElement>
    requires { place ≤ length octets.now }
    ensures value { result ≡ segment_child octets.now end place }
    ensures lies { IfSome result (λ c. LiesIn (length octets.now) c) }
{
    if end == Some(place as u64) {
        return None;
    }
    child_before_cluster(end, read_element(octets, place))
}

// The first child of this ID before the first Cluster.
fn find_first(octets: &[u8], segment: Segment, id: u32) -> Option<WholeElement>
    requires { segment.opening ≤ length octets.now }
    ensures value { result ≡ first_child octets.now segment id }
    ensures lies { IfSome result (λ c. LiesIn (length octets.now) c) }
{
    let mut place = segment.opening as usize;
    for _ in 0..octets.len() {
        let child = read_segment_child(octets, segment.end, place)?;
        if child.id == id {
            return Some(child);
        }
        place = child.stop;
    }
    None
}

fn read_info(octets: &[u8], child: WholeElement) -> Result<u64, FilmError>
    requires { LiesIn (length octets.now) child }
    ensures value { Gives result (info_in octets.now child) }
    ensures positive { IfOk result (λ scale. 0 < scale) }
{
    if (child.stop - child.at) as u64 > LARGEST_HEADER {
        return Err(FilmError::Refused(Refused::Broken(child.place as u64)));
    }
    let body = &octets[child.at..child.stop];
    Ok(parse_info(body, child.at as u64)?)
}

fn read_tracks(alloc: Global, octets: &[u8], child: WholeElement) -> Result<TrackList, FilmError>
    requires { LiesIn (length octets.now) child }
    ensures { Gives result (tracks_in octets.now child) }
{
    if (child.stop - child.at) as u64 > LARGEST_HEADER {
        return Err(FilmError::Refused(Refused::Broken(child.place as u64)));
    }
    let body = &octets[child.at..child.stop];
    Ok(parse_tracks(alloc, body, child.at as u64)?)
}

// Info stands before Tracks.
fn read_info_first(
    alloc: Global,
    octets: &[u8],
    info: WholeElement,
    tracks: WholeElement,
) -> Result<Header, FilmError>
    requires info { LiesIn (length octets.now) info }
    requires tracks { LiesIn (length octets.now) tracks }
    ensures value { Gives result (info_then_tracks octets.now info tracks) }
    ensures positive { IfOk result (λ h. 0 < h.scale) }
{
    let scale = read_info(octets, info)?;
    let tracks = read_tracks(alloc, octets, tracks)?;
    Ok(Header { scale, tracks })
}

// Tracks stands before Info.
fn read_tracks_first(
    alloc: Global,
    octets: &[u8],
    info: WholeElement,
    tracks: WholeElement,
) -> Result<Header, FilmError>
    requires info { LiesIn (length octets.now) info }
    requires tracks { LiesIn (length octets.now) tracks }
    ensures value { Gives result (tracks_then_info octets.now info tracks) }
    ensures positive { IfOk result (λ h. 0 < h.scale) }
{
    let tracks = read_tracks(alloc, octets, tracks)?;
    let scale = read_info(octets, info)?;
    Ok(Header { scale, tracks })
}

/// Info and Tracks, which have to stand before the first Cluster.
#[tactic(auto, unfolding(mc_walk::specs::Opening::header_of))]
pub(crate) fn read_header(
    alloc: Global,
    octets: &[u8],
    segment: Segment,
) -> Result<Header, FilmError>
    requires { segment.opening ≤ length octets.now }
    ensures value { Gives result (header_of octets.now segment) }
    ensures positive { IfOk result (λ h. 0 < h.scale) }
{
    let info = find_first(octets, segment, ids::INFO);
    let tracks = find_first(octets, segment, ids::TRACKS);
    match (info, tracks) {
        (Some(info), Some(tracks)) => {
            if info.place < tracks.place {
                read_info_first(alloc, octets, info, tracks)
            } else {
                read_tracks_first(alloc, octets, info, tracks)
            }
        }
        (Some(info), None) => {
            read_info(octets, info)?;
            Err(FilmError::Refused(Refused::NoTracks))
        }
        (None, tracks) => {
            if let Some(tracks) = tracks {
                read_tracks(alloc, octets, tracks)?;
            }
            Err(FilmError::Refused(Refused::NoInfo))
        }
    }
}
