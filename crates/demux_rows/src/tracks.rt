ghost use Rattle.std.specs.Prelude.{◌≡◌, IfOk};
ghost use Rattle.mc_packet.specs.Choices.{is_known, passes};
ghost use Rattle.mc_tracks.specs.TrackList.{is_of};
ghost use Rattle.mc_calls.specs.Demuxers.{AreLimits};
ghost use Rattle.mc_calls.specs.Selecting.{knows};

use mc_demux::{Demux, DemuxError};
use mc_packet::{Choice, Kind, Limits, NoMemory, TrackNo};
use mc_tracks::{Track, TrackList};
use mc_value::Text;
use rows::RowError;
use std::alloc::Global;

fn add(
    alloc: Global,
    list: &mut TrackList,
    no: TrackNo,
    kind: Kind,
    encoded: bool,
) -> Result<(), NoMemory> {
    if list.get(no).is_some() {
        return Ok(());
    }
    list.push(Track {
        no,
        uid: 0,
        kind,
        codec: Text::new(alloc, "V")?,
        name: Text::new(alloc, "")?,
        language: Text::new(alloc, "")?,
        default: false,
        duration: None,
        encoded,
    })
}

// Video 1, audio 2 and 3, and audio 4 whose blocks can't be read.
fn tracks(alloc: Global) -> Result<TrackList, NoMemory> {
    let mut list = TrackList::new(alloc);
    add(alloc, &mut list, 1, Kind::Video, false)?;
    add(alloc, &mut list, 2, Kind::Audio, false)?;
    add(alloc, &mut list, 3, Kind::Audio, false)?;
    add(alloc, &mut list, 4, Kind::Audio, true)?;
    Ok(list)
}

fn is_of(kind: Kind, other: Kind) -> bool
    ensures { result ≡ is_of kind other }
{
    kind == other
}

fn knows(list: &TrackList, kind: Kind, no: TrackNo) -> bool
    ensures { result ≡ knows list.now kind no }
{
    match list.get(no) {
        Some(track) => is_of(kind, track.kind) && !track.encoded,
        None => false,
    }
}

fn passes(list: &TrackList, kind: Kind, track: Option<TrackNo>) -> bool
    ensures { result ≡ passes track (knows list.now kind) }
{
    match track {
        Some(no) => knows(list, kind, no),
        None => true,
    }
}

fn are_known(list: &TrackList, set: Choice) -> bool
    ensures { result ≡ is_known (knows list.now) set }
{
    passes(list, Kind::Video, set.video)
        && passes(list, Kind::Audio, set.audio)
        && passes(list, Kind::Sub, set.sub)
        && set.is_distinct()
}

/// The limits of a demuxer that reads a second ahead; refused without any octets ahead.
pub fn limits(forward: u32, back: u32) -> Result<Limits, RowError>
    ensures { IfOk result AreLimits }
{
    if forward == 0 {
        return Err(RowError::BadRow);
    }
    Ok(Limits {
        forward: forward as u64,
        back: back as u64,
        readahead: 1_000_000_000,
    })
}

/// A demuxer of the tracks of a set; `None` where one of them is not known.
pub fn open(alloc: Global, set: Choice, limits: Limits) -> Result<Option<Demux>, DemuxError>
    requires { AreLimits limits }
{
    let list = tracks(alloc)?;
    if !are_known(&list, set) {
        return Ok(None);
    }
    Ok(Some(Demux::new(alloc, list, set, limits)?))
}
