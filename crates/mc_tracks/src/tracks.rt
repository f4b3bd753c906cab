ghost use Rattle.std.specs.Prelude.{◌≡◌, ◌+◌, ◌<◌, ◌≤◌, ◌^◌, [], ◌∷◌, ◌++◌, None, length, is_some, IfOk};
ghost use Rattle.mc_tracks.specs.Answer.{Gives};
ghost use Rattle.mc_ebml.specs.Whole.{LiesIn};
ghost use Rattle.mc_tracks.specs.Children.{children_of};
ghost use Rattle.mc_tracks.specs.Header.{with_track, with_child, unless_broken, tracks_of};
ghost use Rattle.mc_tracks.specs.TrackList.{numbered, IsTrackList};

use crate::children::{Master, read_child};
use crate::entry::read_entry;
use crate::fields::body_of;
use crate::list::TrackList;
use crate::refused::{Refused, TracksError};
use crate::track::Track;
use mc_ebml::{WholeElement, ids};
use std::alloc::Global;

// How many tracks are listed at the most.
const MOST_TRACKS: usize = 64;

/// The tracks of a Tracks whose body begins at the offset `at` of the file (RFC 9559, section
/// 5.1.4), in the order of their TrackEntries; those that are neither video, audio nor subtitle
/// are not listed.
///
/// The first refusal in file order is answered, child by child: `Broken` with the offset of a child
/// of Tracks or of a TrackEntry that has a bad head, has no size, runs past its parent's end, or is
/// an integer that is read and has more than 8 octets; then of that TrackEntry `NoNumber`, also
/// where it is not listed; then, where it is, `TwiceNumber` and, at the 65th, `TooMany`.
pub fn parse_tracks(alloc: Global, body: &[u8], at: u64) -> Result<TrackList, TracksError>
    requires { at + length body.now < 2 ^ 64 }
    ensures value { Gives (λ l. l) result (tracks_of body.now at) }
    ensures shape { IfOk result IsTrackList }
{
    let mut list = TrackList::new(alloc);
    let mut place = 0;
    for _ in 0..body.len() {
        if place == body.len() {
            return Ok(list);
        }
        let Some(child) = read_child(Master::Tracks, body, place) else {
            return Err(TracksError::Refused(Refused::Broken(at + place as u64)));
        };
        list = add_child(alloc, list, body, at, child)?;
        place = child.stop;
    }
    Ok(list)
}

// The list, with what a child of Tracks adds to it.
fn add_child(
    alloc: Global,
    list: TrackList,
    body: &[u8],
    at: u64,
    child: WholeElement,
) -> Result<TrackList, TracksError>
    requires fits { at + length body.now < 2 ^ 64 }
    requires lies { LiesIn (length body.now) child }
    ensures { Gives (λ l. l) result (with_child body.now at list child) }
{
    if child.id != ids::TRACK_ENTRY {
        return Ok(list);
    }
    match read_entry(alloc, body_of(body, child), at + child.at as u64)? {
        Some(track) => add_track(list, track),
        None => Ok(list),
    }
}

// The list, with one more track.
fn add_track(mut list: TrackList, track: Track) -> Result<TrackList, TracksError>
    ensures { Gives (λ l. l) result (with_track list (Some track)) }
{
    if list.get(track.no).is_some() {
        return Err(TracksError::Refused(Refused::TwiceNumber));
    }
    if list.len() >= MOST_TRACKS {
        return Err(TracksError::Refused(Refused::TooMany));
    }
    list.push(track)?;
    Ok(list)
}
