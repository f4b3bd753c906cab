//! A job of the demuxer is done by the cursor or the index, and what it came to is brought.
ghost use Rattle.std.specs.Prelude.{◌≡◌, ◌≤◌, ℕ, List, Some};
ghost use Rattle.mc_cursor.specs.Causes.{OnlyReads};
ghost use Rattle.mc_cursor.specs.Reads.{InFile};
ghost use Rattle.mc_cursor.specs.Standing.{file_of, mark_of, at_mark};
ghost use Rattle.mc_calls.specs.Demuxers.{IsDemux};
ghost use Rattle.mc_jobs.specs.Driving.{Drives};
ghost use Rattle.mc_jobs.specs.Doing.{Does, IsPartJob, number_of};

use crate::driver::Driver;
use crate::work::{bring, find_added, find_starts, read_part};
use mc_demux::{DemuxError, Job, Taken};
use mc_outside::Shelf;

/// The number that a job bears.
pub fn number_of(job: Job) -> Option<u64>
    ensures { result ≡ number_of job }
{
    match job {
        Job::SeekTo { no, .. } | Job::Refresh { no, .. } | Job::Resume { no, .. } => Some(no),
        Job::Read { no } => Some(no),
        Job::Idle => None,
    }
}

impl Driver {
    /// Reads the part of the film from the mark at which the demuxer reads on, and brings it.
    fn read_on<S: Shelf>(&mut self, shelf: &mut S, job: Job, no: u64) -> Result<Taken, DemuxError>
        requires kept { self.old.demux.kept ≡ Some job }
        requires number { number_of job ≡ Some no }
        requires part { IsPartJob job }
        requires demux { IsDemux self.old.demux }
        ensures value { Does (S.faults shelf.old)
            (S.faults shelf.new) no self.old.demux result self.new.demux }
        ensures stands { InFile S.files S.opened shelf.old (file_of self.old.cursor)
            (λ octets. Drives octets self.old → Drives octets self.new) }
        ensures moves { self.new.cursor ≡ at_mark self.old.cursor (mark_of self.new.cursor) }
        ensures later { S.faults shelf.old ≤ S.faults shelf.new }
        ensures kept { OnlyReads S.files S.opened S.reach shelf.old shelf.new }
        ensures demux { IsDemux self.new.demux }
    {
        match self.demux.mark() {
            Some(mark) => {
                let brought = read_part(&mut self.cursor, shelf, mark);
                bring(&mut self.demux, no, brought)
            }
            None => unreachable!(),
        }
    }

    /// Does the job that the demuxer keeps, and brings what it came to.
    pub fn do_job<S: Shelf>(
        &mut self,
        shelf: &mut S,
        job: Job,
        no: u64,
    ) -> Result<Taken, DemuxError>
        requires kept { self.old.demux.kept ≡ Some job }
        requires number { number_of job ≡ Some no }
        requires demux { IsDemux self.old.demux }
        ensures value { Does (S.faults shelf.old)
            (S.faults shelf.new) no self.old.demux result self.new.demux }
        ensures stands { InFile S.files S.opened shelf.old (file_of self.old.cursor)
            (λ octets. Drives octets self.old → Drives octets self.new) }
        ensures moves { self.new.cursor ≡ at_mark self.old.cursor (mark_of self.new.cursor) }
        ensures later { S.faults shelf.old ≤ S.faults shelf.new }
        ensures kept { OnlyReads S.files S.opened S.reach shelf.old shelf.new }
        ensures demux { IsDemux self.new.demux }
    {
        match job {
            Job::SeekTo { set, t, dir, .. } => {
                let brought = find_starts(&mut self.cursor, &mut self.index, shelf, set, t, dir);
                bring(&mut self.demux, no, brought)
            }
            Job::Refresh {
                added,
                lead,
                at,
                ..
            } => {
                let brought = find_added(&mut self.cursor, &mut self.index, shelf, added, lead, at);
                bring(&mut self.demux, no, brought)
            }
            Job::Resume { .. } | Job::Read { .. } => self.read_on(shelf, job, no),
            Job::Idle => unreachable!(),
        }
    }
}
