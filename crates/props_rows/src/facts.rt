use mc_packet::{CacheView, Choice, Ending, Kind, RangeView, RangeViews, Spans};
use mc_props::Facts;
use mc_tracks::{Track, TrackList};
use mc_value::{NoMemory, Text};
use rows::RowError;
use std::alloc::Global;

/// The facts of a name: `first`, `idle`, `playing` or `ended`.
pub fn facts_named(alloc: Global, name: &str) -> Result<Facts, RowError> {
    match name {
        "first" => Ok(Facts::new(alloc)),
        "idle" => Ok(idle(alloc)?),
        "playing" => Ok(playing(alloc)?),
        "ended" => Ok(ended(alloc)?),
        _ => Err(RowError::BadRow),
    }
}

fn add(
    alloc: Global,
    tracks: &mut TrackList,
    no: u64,
    kind: Kind,
    codec: &str,
    texts: [&str; 2],
    encoded: bool,
) -> Result<(), NoMemory> {
    let [name, language] = texts;
    if tracks.get(no).is_some() {
        return Ok(());
    }
    tracks.push(Track {
        no,
        uid: 0,
        kind,
        codec: Text::new(alloc, codec)?,
        name: Text::new(alloc, name)?,
        language: Text::new(alloc, language)?,
        default: no == 7,
        duration: None,
        encoded,
    })
}

// Two audio tracks stand round the video track, and the second of them is encoded.
fn tracks(alloc: Global) -> Result<TrackList, NoMemory> {
    let mut tracks = TrackList::new(alloc);
    add(
        alloc,
        &mut tracks,
        5,
        Kind::Audio,
        "A_OPUS",
        ["Main", ""],
        false,
    )?;
    add(
        alloc,
        &mut tracks,
        7,
        Kind::Video,
        "V_VP8",
        ["", "eng"],
        false,
    )?;
    add(alloc, &mut tracks, 1, Kind::Audio, "A_AAC", ["", ""], true)?;
    add(
        alloc,
        &mut tracks,
        9,
        Kind::Sub,
        "S_TEXT/UTF8",
        ["", "de"],
        false,
    )?;
    Ok(tracks)
}

fn ranges(alloc: Global) -> Result<RangeViews, NoMemory> {
    let spans = Spans {
        video: None,
        audio: None,
        sub: None,
    };
    let mut ranges = RangeViews::new(alloc);
    for bounds in [Some((5_000_000_000, 7_250_000_000)), None, Some((-1, 0))] {
        ranges.push(RangeView { bounds, spans })?;
    }
    Ok(ranges)
}

fn playing(alloc: Global) -> Result<Facts, NoMemory> {
    Ok(Facts {
        path: Some(Text::new(alloc, "a/b/night.mkv")?),
        tracks: tracks(alloc)?,
        set: Choice {
            video: Some(7),
            audio: Some(5),
            sub: None,
        },
        pause: true,
        mute: false,
        cache: CacheView {
            ranges: ranges(alloc)?,
            forward: 300,
            back: 45,
            bof: true,
            ending: Some(Ending::Cut(228)),
            time: Some(6_000_000_999),
            playing: true,
            ended: false,
        },
        loaded: true,
    })
}

// Another selection of the same film, at its end.
fn ended(alloc: Global) -> Result<Facts, NoMemory> {
    Ok(Facts {
        path: Some(Text::new(alloc, "night")?),
        tracks: tracks(alloc)?,
        set: Choice {
            video: None,
            audio: Some(1),
            sub: Some(9),
        },
        pause: false,
        mute: true,
        cache: CacheView {
            ranges: RangeViews::new(alloc),
            forward: u64::MAX,
            back: 2,
            bof: false,
            ending: None,
            time: None,
            playing: false,
            ended: true,
        },
        loaded: true,
    })
}

// What a player knows before its first file, which has a view of a cache all the same.
fn idle(alloc: Global) -> Result<Facts, NoMemory> {
    let facts = playing(alloc)?;
    Ok(Facts {
        path: None,
        loaded: false,
        ..facts
    })
}
