use crate::jobs::{CORE, bring_late, fail, find, push_done, row_error, work};
use crate::table::Held;
use mc_demux::{Demux, DemuxError, Job, Reading, Selected};
use mc_journal::Sought;
use mc_packet::{Dir, NoMemory, Packet, TrackNo, Why};
use rows::{Json, RowError, items_in, none, number_in, one, two};
use rows_packets::{block_in, dir_in, push_choice, push_place, track_in};
use std::alloc::Global;
use std::fmt::Write;

// The caller that reads.
const READER: u32 = 2;

pub fn call_work(
    alloc: Global,
    held: &mut Held,
    arguments: &[Json<'_>],
    out: &mut String,
) -> Result<(), RowError> {
    none(arguments)?;
    let done = work(alloc, &mut held.demux, held.film.as_slice())?;
    Ok(push_done(done, out)?)
}

// The starts of video and audio.
pub fn call_find(
    demux: &mut Demux,
    arguments: &[Json<'_>],
    out: &mut String,
) -> Result<(), RowError> {
    let (video, audio) = two(arguments)?;
    let done = find(demux, block_in(video)?, block_in(audio)?)?;
    Ok(push_done(done, out)?)
}

pub fn call_fail(
    demux: &mut Demux,
    arguments: &[Json<'_>],
    out: &mut String,
) -> Result<(), RowError> {
    none(arguments)?;
    let done = fail(demux)?;
    Ok(push_done(done, out)?)
}

// A job's part that comes behind a seek to a time.
pub fn call_late(
    alloc: Global,
    held: &mut Held,
    arguments: &[Json<'_>],
    out: &mut String,
) -> Result<(), RowError> {
    let t = number_in(one(arguments)?)?;
    let done = bring_late(alloc, &mut held.demux, held.film.as_slice(), t)?;
    Ok(push_done(done, out)?)
}

// The next job, which is not done.
pub fn call_job(
    demux: &mut Demux,
    arguments: &[Json<'_>],
    out: &mut String,
) -> Result<(), RowError> {
    none(arguments)?;
    let job = demux.next_job().map_err(row_error)?;
    Ok(push_job(job, out)?)
}

fn push_job(job: Job, out: &mut String) -> Result<(), NoMemory> {
    match job {
        Job::SeekTo { no, set, t, dir } => {
            write!(out, "seek {no} to {t} {dir:?} of ")?;
            push_choice(set, out)
        }
        Job::Refresh { no, added, at, .. } => {
            write!(out, "refresh {no} at {at} of ")?;
            push_choice(added, out)
        }
        Job::Resume { no, mark } => write!(out, "resume {no} at {}", mark.pos),
        Job::Read { no } => write!(out, "read {no}"),
        Job::Idle => out.push_str("idle"),
    }
}

pub fn call_read(
    demux: &mut Demux,
    arguments: &[Json<'_>],
    out: &mut String,
) -> Result<(), RowError> {
    let track = track_in(one(arguments)?)?;
    let reading = demux.read(READER, track).map_err(row_error)?;
    Ok(push_reading(&reading, out)?)
}

fn push_reading(reading: &Reading, out: &mut String) -> Result<(), NoMemory> {
    match reading {
        Reading::Gave(packet) => {
            out.push_str("gave ")?;
            push_place(Some(packet.pos), out)
        }
        Reading::NotYet => out.push_str("not yet"),
        Reading::End(_) => out.push_str("end"),
        Reading::Overfull { forward, max } => write!(out, "overfull {forward} {max}"),
        Reading::Fault { before, after } => write!(out, "fault {before} {after}"),
        Reading::Wanting => out.push_str("wanting"),
        Reading::Unselected => out.push_str("unselected"),
    }
}

// Why a call is refused; an error that it is not carried out.
fn push_refusal(error: DemuxError, out: &mut String) -> Result<(), RowError> {
    match error {
        DemuxError::Refused(why) => Ok(push_why(why, out)?),
        error => Err(row_error(error)),
    }
}

fn push_why(why: Why, out: &mut String) -> Result<(), NoMemory> {
    match why {
        Why::NoTrack => out.push_str("no track"),
        Why::UnknownTrack(no) => write!(out, "unknown {no}"),
        Why::Unsupported(no) => write!(out, "unsupported {no}"),
        Why::TwoOfKind(no) => write!(out, "two of kind {no}"),
    }
}

pub fn call_seek(
    demux: &mut Demux,
    arguments: &[Json<'_>],
    out: &mut String,
) -> Result<(), RowError> {
    let (t, dir) = two(arguments)?;
    seek(demux, number_in(t)?, dir_in(dir)?, out)
}

fn seek(demux: &mut Demux, t: i64, dir: Dir, out: &mut String) -> Result<(), RowError> {
    match demux.seek(CORE, t, dir) {
        Ok(Sought::Cached) => Ok(out.push_str("cached")?),
        Ok(Sought::Sent) => Ok(out.push_str("sent")?),
        Err(error) => push_refusal(error, out),
    }
}

// The tracks, and the time at which they are selected.
pub fn call_select(
    alloc: Global,
    demux: &mut Demux,
    arguments: &[Json<'_>],
    out: &mut String,
) -> Result<(), RowError> {
    let (set, at) = two(arguments)?;
    let set = numbers_in(alloc, set)?;
    match demux.select(CORE, set.as_slice(), number_in(at)?) {
        Ok(Selected::Changed) => Ok(out.push_str("changed")?),
        Ok(Selected::Same) => Ok(out.push_str("same")?),
        Err(error) => push_refusal(error, out),
    }
}

fn numbers_in(alloc: Global, argument: &Json<'_>) -> Result<Vec<TrackNo>, RowError> {
    let mut numbers = Vec::new(alloc);
    for number in items_in(argument)? {
        numbers.push(track_in(number)?)?;
    }
    Ok(numbers)
}

pub fn call_forward(
    demux: &Demux,
    arguments: &[Json<'_>],
    out: &mut String,
) -> Result<(), RowError> {
    none(arguments)?;
    Ok(write!(out, "{}", demux.status().forward)?)
}

pub fn call_back(demux: &Demux, arguments: &[Json<'_>], out: &mut String) -> Result<(), RowError> {
    none(arguments)?;
    Ok(write!(out, "{}", demux.status().back)?)
}

pub fn call_flags(demux: &Demux, arguments: &[Json<'_>], out: &mut String) -> Result<(), RowError> {
    none(arguments)?;
    Ok(write!(out, "{}", demux.status().flags)?)
}

// How many ranges a look sees.
pub fn call_show(
    demux: &mut Demux,
    arguments: &[Json<'_>],
    out: &mut String,
) -> Result<(), RowError> {
    none(arguments)?;
    let view = demux.show(CORE).map_err(row_error)?;
    Ok(write!(out, "{} ranges", view.ranges.len())?)
}

// The packets that are cached, each with its track and its place.
pub fn call_cached(
    demux: &Demux,
    arguments: &[Json<'_>],
    out: &mut String,
) -> Result<(), RowError> {
    none(arguments)?;
    let packets = demux.cached()?;
    write!(out, "{} packets", packets.len())?;
    for packet in packets.as_slice() {
        push_packet(packet, out)?;
    }
    Ok(())
}

fn push_packet(packet: &Packet, out: &mut String) -> Result<(), NoMemory> {
    write!(out, " {}@", packet.track)?;
    push_place(Some(packet.pos), out)
}
