ghost use Rattle.std.specs.Prelude.{◌≡◌};

use mc_packet::{Choice, Dir, Heads, Kind, Level, Mark, Pos, Starts, TrackNo};
use rows::{Json, RowError, items_in, named, number_in, text_in, three, two};

// What a row has there, or nothing where it has `null`.
fn given<'r, 'a>(argument: &'r Json<'a>) -> Option<&'r Json<'a>> {
    match argument {
        Json::Null => None,
        _ => Some(argument),
    }
}

/// The number of a track.
pub fn track_in(argument: &Json<'_>) -> Result<TrackNo, RowError> {
    Ok(u64::try_from(number_in(argument)?)?)
}

/// The offset of a block, or a count of octets.
pub fn block_in(argument: &Json<'_>) -> Result<u64, RowError> {
    Ok(u64::try_from(number_in(argument)?)?)
}

/// A time in nanoseconds, or `null`.
pub fn nanos_in(argument: &Json<'_>) -> Result<Option<i64>, RowError> {
    match given(argument) {
        Some(time) => Ok(Some(number_in(time)?)),
        None => Ok(None),
    }
}

fn block_or_none(argument: &Json<'_>) -> Result<Option<u64>, RowError> {
    match given(argument) {
        Some(block) => Ok(Some(block_in(block)?)),
        None => Ok(None),
    }
}

/// The tracks of video, audio and subtitles.
pub fn choice_in(argument: &Json<'_>) -> Result<Choice, RowError> {
    let (video, audio, sub) = three(items_in(argument)?)?;
    Ok(Choice {
        video: block_or_none(video)?,
        audio: block_or_none(audio)?,
        sub: block_or_none(sub)?,
    })
}

/// The first place of a block.
pub fn at(block: u64) -> Pos {
    Pos { block, lane: 0 }
}

/// A mark among the Segment's children.
pub fn mark_at(pos: u64) -> Mark
    ensures { result.pos ≡ pos }
{
    Mark {
        pos,
        level: Level::Segment,
    }
}

/// A place: its block and its lane.
pub fn place_in(argument: &Json<'_>) -> Result<Pos, RowError> {
    let (block, lane) = two(items_in(argument)?)?;
    Ok(Pos {
        block: block_in(block)?,
        lane: u16::try_from(number_in(lane)?)?,
    })
}

/// The first places of the blocks of video, audio and subtitles.
pub fn heads_in(argument: &Json<'_>) -> Result<Heads, RowError> {
    let (video, audio, sub) = three(items_in(argument)?)?;
    Ok(Heads {
        video: block_or_none(video)?.map(at),
        audio: block_or_none(audio)?.map(at),
        sub: block_or_none(sub)?.map(at),
    })
}

/// The blocks of video, audio and subtitles, and the mark at which the reading starts.
pub fn starts_in(argument: &Json<'_>, mark: &Json<'_>) -> Result<Starts, RowError> {
    let (video, audio, sub) = three(items_in(argument)?)?;
    Ok(Starts {
        video: block_or_none(video)?,
        audio: block_or_none(audio)?,
        sub: block_or_none(sub)?,
        mark: mark_at(block_in(mark)?),
    })
}

const KINDS: [(&str, Kind); 3] = [
    ("video", Kind::Video),
    ("audio", Kind::Audio),
    ("sub", Kind::Sub),
];

/// A kind of track, by its name.
pub fn kind_in(argument: &Json<'_>) -> Result<Kind, RowError> {
    named(&KINDS, text_in(argument)?)
}

const DIRS: [(&str, Dir); 2] = [("back", Dir::Back), ("forward", Dir::Forward)];

/// A seek's direction, by its name.
pub fn dir_in(argument: &Json<'_>) -> Result<Dir, RowError> {
    named(&DIRS, text_in(argument)?)
}
