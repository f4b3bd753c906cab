ghost use Rattle.std.specs.Prelude.{◌≡◌, ◌+◌, IfOk, OnOk};
ghost use Rattle.mc_calls.specs.Demuxers.{IsDemux};
ghost use Rattle.mc_calls.specs.Jobs.{kept_job};

use crate::film::{part_at, starts_at};
use mc_demux::{Demux, DemuxError, Job, Taken};
use mc_packet::{Dir, Packet};
use rows::RowError;
use std::alloc::{AllocError, Global};
use std::fmt::Write;

/// The caller that seeks and selects.
pub const CORE: u32 = 1;

/// What a row is answered where a call of a demuxer is not carried out.
pub fn row_error(error: DemuxError) -> RowError {
    match error {
        DemuxError::NoMemory => RowError::NoMemory,
        DemuxError::Refused(_) | DemuxError::JournalFull => RowError::BadRow,
    }
}

/// What was done, and under which number.
#[derive(Clone, Copy)]
pub enum Done {
    Resumed(u64),
    Read(u64),
    Sought(u64),
    Refreshed(u64),
    Failed(u64),
    Stale { asked: u64, now: u64 },
    Idle,
    Other,
}

/// Appends what was done.
pub fn push_done(done: Done, out: &mut String) -> Result<(), AllocError> {
    match done {
        Done::Resumed(no) => write!(out, "resume {no}"),
        Done::Read(no) => write!(out, "read {no}"),
        Done::Sought(no) => write!(out, "seek {no}"),
        Done::Refreshed(no) => write!(out, "refresh {no}"),
        Done::Failed(no) => write!(out, "failed {no}"),
        Done::Stale { asked, now } => write!(out, "stale {asked} now {now}"),
        Done::Idle => out.push_str("idle"),
        Done::Other => out.push_str("another job"),
    }
}

// The next job, which is kept until its outcome comes.
fn next_job(demux: &mut Demux) -> Result<Job, RowError>
    ensures kept { IfOk result (λ job. demux.new.kept ≡ kept_job job) }
    ensures demux { IsDemux demux.new }
{
    match demux.next_job() {
        Ok(job) => Ok(job),
        Err(error) => Err(row_error(error)),
    }
}

/// Does the next job, where it reads on.
#[tactic(auto, using(mc_calls::proofs::Shapes::resume_fits, mc_calls::proofs::Shapes::read_fits))]
pub fn work(alloc: Global, demux: &mut Demux, film: &[Packet]) -> Result<Done, RowError> {
    match next_job(demux)? {
        Job::Resume { no, mark } => {
            let part = part_at(alloc, film, mark)?;
            demux.feed(no, part).map_err(row_error)?;
            Ok(Done::Resumed(no))
        }
        Job::Read { no } => {
            let Some(mark) = demux.mark() else {
                return Ok(Done::Other);
            };
            let part = part_at(alloc, film, mark)?;
            demux.feed(no, part).map_err(row_error)?;
            Ok(Done::Read(no))
        }
        Job::Idle => Ok(Done::Idle),
        Job::SeekTo { .. } | Job::Refresh { .. } => Ok(Done::Other),
    }
}

/// Does the next job, where it finds starts.
#[tactic(auto, using(mc_calls::proofs::Shapes::starts_fit))]
pub fn find(demux: &mut Demux, video: u64, audio: u64) -> Result<Done, RowError> {
    match next_job(demux)? {
        Job::SeekTo { no, set, .. } => {
            demux
                .found(no, starts_at(set, video, audio))
                .map_err(row_error)?;
            Ok(Done::Sought(no))
        }
        Job::Refresh { no, added, .. } => {
            demux
                .found(no, starts_at(added, video, audio))
                .map_err(row_error)?;
            Ok(Done::Refreshed(no))
        }
        _ => Ok(Done::Other),
    }
}

/// Fails the next job, where it reads on.
pub fn fail(demux: &mut Demux) -> Result<Done, RowError> {
    match next_job(demux)? {
        Job::Resume { no, .. } | Job::Read { no } => match demux.failed(no, 0, 1) {
            Taken::Taken => Ok(Done::Failed(no)),
            Taken::Stale { asked, now } => Ok(Done::Stale { asked, now }),
        },
        _ => Ok(Done::Other),
    }
}

// Seeks back to a time; what was asked for before is then stale.
fn seek_back(demux: &mut Demux, t: i64) -> Result<(), RowError>
    ensures { OnOk result (demux.new.number ≡ demux.old.number + 1) }
{
    match demux.seek(CORE, t, Dir::Back) {
        Ok(_) => Ok(()),
        Err(error) => Err(row_error(error)),
    }
}

/// Takes the next job, which reads on from a mark, seeks, and brings the job's part only then.
#[tactic(auto, using(crate::proofs::Late::late_fits))]
pub fn bring_late(
    alloc: Global,
    demux: &mut Demux,
    film: &[Packet],
    t: i64,
) -> Result<Done, RowError> {
    let Job::Resume { no, mark } = next_job(demux)? else {
        return Ok(Done::Other);
    };
    let part = part_at(alloc, film, mark)?;
    seek_back(demux, t)?;
    match demux.feed(no, part).map_err(row_error)? {
        Taken::Taken => Ok(Done::Other),
        Taken::Stale { asked, now } => Ok(Done::Stale { asked, now }),
    }
}
