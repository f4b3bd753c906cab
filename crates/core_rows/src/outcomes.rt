use mc_core::{Core, CoreError};
use mc_packet::{CacheView, Choice, Ending, Kind, RangeViews, Why};
use mc_player::{Order, Outcome};
use mc_props::Reads;
use mc_props::meanings::Standard;
use mc_tracks::{Track, TrackList};
use mc_value::{NoMemory, Text};
use rows::RowError;
use std::alloc::Global;

/// The number of the caller in all rows.
pub const BY: u32 = 1;

// A video track of the number 3.
fn tracks(alloc: Global) -> Result<TrackList, NoMemory> {
    let mut tracks = TrackList::new(alloc);
    if tracks.get(3).is_none() {
        tracks.push(Track {
            no: 3,
            uid: 0,
            kind: Kind::Video,
            codec: Text::new(alloc, "V_VP8")?,
            name: Text::new(alloc, "")?,
            language: Text::new(alloc, "")?,
            default: true,
            duration: None,
            encoded: false,
        })?;
    }
    Ok(tracks)
}

/// The view of a cache that holds nothing.
pub fn view_at(alloc: Global, time: Option<i64>, playing: bool) -> CacheView {
    CacheView {
        ranges: RangeViews::new(alloc),
        forward: 0,
        back: 0,
        bof: false,
        ending: None,
        time,
        playing,
        ended: false,
    }
}

/// The view of one that has all to the film's end, which was read.
pub fn end_at(alloc: Global, time: i64) -> CacheView {
    CacheView {
        ranges: RangeViews::new(alloc),
        forward: 0,
        back: 0,
        bof: true,
        ending: Some(Ending::Clean),
        time: Some(time),
        playing: true,
        ended: true,
    }
}

/// A file of one track is opened, of which nothing is selected.
pub fn load<F: Reads<Standard>>(
    alloc: Global,
    core: &mut Core<F, Standard>,
) -> Result<Result<(), CoreError>, RowError> {
    let path = Text::new(alloc, "films/night.mkv")?;
    let tracks = tracks(alloc)?;
    match core.order() {
        Some(Order::Load) => {
            // For the proof: its tracks' numbers differ.
            let _tracks = tracks.as_slice();
            let set = Choice::NONE;
            Ok(core.done(BY, Outcome::Loaded { path, tracks, set }))
        }
        _ => Err(RowError::BadRow),
    }
}

/// The seek is begun that is out.
pub fn seek<F: Reads<Standard>>(
    core: &mut Core<F, Standard>,
) -> Result<Result<(), CoreError>, RowError> {
    match core.order() {
        Some(Order::Seek { .. }) => Ok(core.done(BY, Outcome::Sought)),
        _ => Err(RowError::BadRow),
    }
}

/// It is refused, since no track is selected.
pub fn refuse<F: Reads<Standard>>(
    core: &mut Core<F, Standard>,
) -> Result<Result<(), CoreError>, RowError> {
    match core.order() {
        Some(Order::Seek { .. }) => Ok(core.done(BY, Outcome::Refused(Why::NoTrack))),
        _ => Err(RowError::BadRow),
    }
}

/// The tracks are selected that were ordered.
pub fn select<F: Reads<Standard>>(
    core: &mut Core<F, Standard>,
) -> Result<Result<(), CoreError>, RowError> {
    match core.order() {
        Some(Order::Select { set, .. }) => Ok(core.done(BY, Outcome::Selected { set })),
        _ => Err(RowError::BadRow),
    }
}
