use crate::views::view_in;
use mc_journal::{Cause, DemuxRecord, Removal, Sought};
use mc_packet::{Choice, Why};
use rows::{Json, RowError, items_in, named, none, number_in, one, text_in, three, two};
use rows_packets::{choice_in, dir_in, nanos_in, place_in, track_in};
use std::alloc::Global;

#[derive(Clone, Copy)]
enum Record {
    Opened,
    Sought,
    Switched,
    Dropped,
    Joined,
    Shown,
    Refused,
}

const RECORDS: [(&str, Record); 7] = [
    ("opened", Record::Opened),
    ("sought", Record::Sought),
    ("switched", Record::Switched),
    ("dropped", Record::Dropped),
    ("joined", Record::Joined),
    ("shown", Record::Shown),
    ("refused", Record::Refused),
];

// The caller that each record names; no line tells of it.
const BY: u32 = 0;

/// A record of a row: an array of its name and what it carries.
pub fn record_in(alloc: Global, argument: &Json<'_>) -> Result<DemuxRecord, RowError> {
    let [name, parts @ ..] = items_in(argument)? else {
        return Err(RowError::BadRow);
    };
    match named(&RECORDS, text_in(name)?)? {
        Record::Opened => opened(parts),
        Record::Sought => sought(parts),
        Record::Switched => switched(parts),
        Record::Dropped => dropped(parts),
        Record::Joined => joined(parts),
        Record::Shown => shown(alloc, parts),
        Record::Refused => refused(parts),
    }
}

fn opened(parts: &[Json<'_>]) -> Result<DemuxRecord, RowError> {
    let set = choice_in(one(parts)?)?;
    Ok(DemuxRecord::Opened { by: BY, set })
}

const ANSWERS: [(&str, Sought); 2] = [("cached", Sought::Cached), ("sent", Sought::Sent)];

fn sought(parts: &[Json<'_>]) -> Result<DemuxRecord, RowError> {
    let [set, t, dir, how] = parts else {
        return Err(RowError::BadRow);
    };
    Ok(DemuxRecord::Sought {
        by: BY,
        set: choice_in(set)?,
        t: number_in(t)?,
        dir: dir_in(dir)?,
        how: named(&ANSWERS, text_in(how)?)?,
    })
}

fn switched(parts: &[Json<'_>]) -> Result<DemuxRecord, RowError> {
    let (set, at) = two(parts)?;
    Ok(DemuxRecord::Switched {
        by: BY,
        set: choice_in(set)?,
        added: Choice::NONE,
        at: number_in(at)?,
    })
}

// The track, from where to where, and why.
fn dropped(parts: &[Json<'_>]) -> Result<DemuxRecord, RowError> {
    let [track, from, to, cause] = parts else {
        return Err(RowError::BadRow);
    };
    let drop = Removal {
        track: track_in(track)?,
        from: place_in(from)?,
        to: place_in(to)?,
        cause: cause_in(cause)?,
    };
    Ok(DemuxRecord::Dropped { by: BY, drop })
}

#[derive(Clone, Copy)]
enum Reason {
    Limit,
    TooMany,
    TrackChanged,
    Mismatch,
}

const REASONS: [(&str, Reason); 4] = [
    ("limit", Reason::Limit),
    ("many", Reason::TooMany),
    ("track", Reason::TrackChanged),
    ("mismatch", Reason::Mismatch),
];

fn cause_in(argument: &Json<'_>) -> Result<Cause, RowError> {
    let [name, parts @ ..] = items_in(argument)? else {
        return Err(RowError::BadRow);
    };
    match named(&REASONS, text_in(name)?)? {
        Reason::Limit => limit(parts),
        Reason::TooMany => too_many(parts),
        Reason::TrackChanged => {
            none(parts)?;
            Ok(Cause::TrackChanged)
        }
        Reason::Mismatch => mismatch(parts),
    }
}

fn limit(parts: &[Json<'_>]) -> Result<Cause, RowError> {
    let (back, max) = two(parts)?;
    Ok(Cause::Limit {
        back: u64::try_from(number_in(back)?)?,
        max: u64::try_from(number_in(max)?)?,
    })
}

fn too_many(parts: &[Json<'_>]) -> Result<Cause, RowError> {
    let count = u32::try_from(number_in(one(parts)?)?)?;
    Ok(Cause::TooMany { count })
}

fn mismatch(parts: &[Json<'_>]) -> Result<Cause, RowError> {
    let (pos, ours, other) = three(parts)?;
    Ok(Cause::Mismatch {
        pos: place_in(pos)?,
        ours: nanos_in(ours)?,
        other: nanos_in(other)?,
    })
}

fn joined(parts: &[Json<'_>]) -> Result<DemuxRecord, RowError> {
    none(parts)?;
    Ok(DemuxRecord::Joined { by: BY })
}

fn shown(alloc: Global, parts: &[Json<'_>]) -> Result<DemuxRecord, RowError> {
    let view = view_in(alloc, parts)?;
    Ok(DemuxRecord::Shown { by: BY, view })
}

fn refused(parts: &[Json<'_>]) -> Result<DemuxRecord, RowError> {
    let why = why_in(parts)?;
    Ok(DemuxRecord::Refused { by: BY, why })
}

fn why_in(parts: &[Json<'_>]) -> Result<Why, RowError> {
    match parts {
        [name] if text_in(name)? == "no-track" => Ok(Why::NoTrack),
        [name, track] => why_of(text_in(name)?, track_in(track)?),
        _ => Err(RowError::BadRow),
    }
}

fn why_of(name: &str, track: u64) -> Result<Why, RowError> {
    match name {
        "unknown-track" => Ok(Why::UnknownTrack(track)),
        "unsupported" => Ok(Why::Unsupported(track)),
        "two-of-kind" => Ok(Why::TwoOfKind(track)),
        _ => Err(RowError::BadRow),
    }
}
