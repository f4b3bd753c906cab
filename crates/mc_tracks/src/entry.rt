ghost use Rattle.std.specs.Prelude.{◌≡◌, ◌+◌, ◌<◌, ◌^◌, length, IfOk};
ghost use Rattle.mc_tracks.specs.Answer.{Gives};
ghost use Rattle.mc_tracks.specs.Children.{children_of};
ghost use Rattle.mc_ebml.specs.Ids.{TRACK_NUMBER};
ghost use Rattle.mc_tracks.specs.Header.{entry_integer, kind_of, positive_number, duration, track, entry_of};

use crate::children::{Master, find_child};
use crate::fields::{check_children, find_integer, find_text};
use crate::refused::{Refused, TracksError};
use crate::track::Track;
use mc_ebml::ids;
use mc_packet::{Kind, NoMemory, TrackNo};
use mc_value::Text;
use std::alloc::Global;

// The track of a TrackEntry whose body begins at the offset `at` of the file; none where its type
// is not listed.
#[tactic(auto, unfolding(crate::specs::Header::entry_of))]
pub(crate) fn read_entry(alloc: Global, body: &[u8], at: u64) -> Result<Option<Track>, TracksError>
    requires { at + length body.now < 2 ^ 64 }
    ensures { Gives (λ t. t) result (entry_of body.now at) }
{
    check_children(Master::TrackEntry, body, at)?;
    let number = read_number(body)?;
    let kind = kind_of(find_integer(Master::TrackEntry, body, ids::TRACK_TYPE, 0));
    let Some(kind) = kind else {
        return Ok(None);
    };
    Ok(Some(read_track(alloc, body, number, kind)?))
}

// The TrackNumber.
fn read_number(body: &[u8]) -> Result<TrackNo, Refused>
    ensures { result ≡ positive_number (entry_integer body.now TRACK_NUMBER 0) }
{
    match find_integer(Master::TrackEntry, body, ids::TRACK_NUMBER, 0) {
        0 => Err(Refused::NoNumber),
        number => Ok(number),
    }
}

// The kind of a TrackType that is listed.
fn kind_of(number: u64) -> Option<Kind>
    ensures { result ≡ kind_of number }
{
    match number {
        1 => Some(Kind::Video),
        2 => Some(Kind::Audio),
        17 => Some(Kind::Sub),
        _ => None,
    }
}

// The fields of a track.
fn read_track(alloc: Global, body: &[u8], number: TrackNo, kind: Kind) -> Result<Track, NoMemory>
    ensures { IfOk result
        (λ t. t ≡ track body.now (children_of Master.TrackEntry body.now).whole number kind) }
{
    let entry = Master::TrackEntry;
    Ok(Track {
        no: number,
        uid: find_integer(entry, body, ids::TRACK_UID, 0),
        kind,
        codec: Text::new(alloc, find_text(entry, body, ids::CODEC_ID, ""))?,
        name: Text::new(alloc, find_text(entry, body, ids::NAME, ""))?,
        language: Text::new(alloc, find_text(entry, body, ids::LANGUAGE, "eng"))?,
        default: find_integer(entry, body, ids::FLAG_DEFAULT, 1) != 0,
        duration: duration(find_integer(entry, body, ids::DEFAULT_DURATION, 0)),
        encoded: find_child(entry, body, ids::CONTENT_ENCODINGS).is_some(),
    })
}

// A DefaultDuration of 0 is taken as absent.
fn duration(number: u64) -> Option<u64>
    ensures { result ≡ duration number }
{
    match number {
        0 => None,
        _ => Some(number),
    }
}
