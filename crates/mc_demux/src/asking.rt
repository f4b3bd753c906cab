//! The job that is to be done next.
ghost use Rattle.std.specs.Prelude.{◌≡◌, ◌≤◌, ℕ, OnOk};
ghost use Rattle.mc_packet.specs.Choices.{is_empty};
ghost use Rattle.mc_journal.specs.Films.{Film};
ghost use Rattle.mc_calls.specs.Asking.{Asks};
ghost use Rattle.mc_calls.specs.Demuxers.{IsDemux};
ghost use Rattle.mc_calls.specs.Film.{StandsFor};
ghost use Rattle.mc_calls.specs.Jobs.{job_of, kept_job, read_at, read_job, start_job};
ghost use Rattle.mc_calls.specs.Keeping.{IsRoomy};
ghost use Rattle.mc_calls.specs.Marks.{AreAmong, marks_of};
ghost use Rattle.mc_journal.specs.Callers.{Grew};

use crate::demux::Demux;
use crate::reading::FULL;
use mc_calls::{DemuxError, Job};
use mc_packet::{Choice, Mark, NoMemory};

pub(crate) fn is_empty(set: Choice) -> bool
    ensures { result ≡ is_empty set }
{
    set.video.is_none() && set.audio.is_none() && set.sub.is_none()
}

// A job that is kept until its outcome comes.
fn kept_job(job: Job) -> Option<Job>
    ensures { result ≡ kept_job job }
{
    match job {
        Job::Idle => None,
        job => Some(job),
    }
}

fn read_at(no: u64, fed: bool, mark: Option<Mark>) -> Job
    ensures { result ≡ read_at no fed mark }
{
    match mark {
        None => Job::Idle,
        Some(mark) => {
            if fed {
                Job::Read { no }
            } else {
                Job::Resume { no, mark }
            }
        }
    }
}

impl Demux {
    fn read_job(&self) -> Job
        ensures { result ≡ read_job self.now }
    {
        if self.is_full() {
            Job::Idle
        } else {
            read_at(self.number, self.fed, self.cache.mark())
        }
    }

    fn start_job(&self) -> Job
        ensures { result ≡ start_job self.now self.now.seeking }
    {
        match self.seeking {
            Some(sought) => Job::SeekTo {
                no: self.number,
                set: self.set,
                t: sought.t,
                dir: sought.dir,
            },
            None => {
                if is_empty(self.waiting) {
                    self.read_job()
                } else {
                    Job::Refresh {
                        no: self.number,
                        added: self.waiting,
                        lead: self.switch.lead,
                        at: self.switch.at,
                    }
                }
            }
        }
    }

    fn job(&self) -> Job
        ensures { result ≡ job_of self.now }
    {
        if is_empty(self.set) || self.failure.is_some() {
            Job::Idle
        } else {
            self.start_job()
        }
    }

    // Makes room for the record of a job's outcome and one more.
    fn make_room_for_outcome(&mut self) -> Result<(), NoMemory>
        ensures same { IsRoomy self.old self.new }
        ensures ok { OnOk result (2 ≤ self.new.spare) }
        ensures demux { IsDemux self.new }
    {
        self.journal.reserve(2)
    }

    fn keep(&mut self, job: Job)
        requires is { job ≡ job_of self.old }
        requires room { 2 ≤ self.old.spare }
        ensures value { self.new ≡ record self.old { kept = kept_job job } }
        ensures demux { IsDemux self.new }
    {
        self.kept = kept_job(job);
    }

    /// The job that is to be done next. It is kept until its outcome is brought, a seek or a
    /// selection comes, or another one is asked for; `Idle` is not kept. Asked again before that, a
    /// search for starts (`SeekTo`, `Refresh`) is answered again; a read may be `Idle` then, since
    /// readers moved. `Idle` where no track is selected, after a job that came to nothing, and where
    /// enough is read ahead. Nothing is written. Refused with `JournalFull` exactly where the journal
    /// has 16,000,000 records, and with `NoMemory` where there is no room for the outcome's record;
    /// nothing changes then but room.
    pub fn next_job(&mut self) -> Result<Job, DemuxError>
        ensures value { Asks self.old result self.new }
        ensures grows { (by : ℕ) → Grew by self.old.journal self.new.journal }
        ensures film { (film : Film) → StandsFor film self.old → StandsFor film self.new }
        ensures marks { AreAmong (marks_of self.old.cache) self.new.cache }
        ensures demux { IsDemux self.new }
    {
        if self.journal.len() >= FULL {
            return Err(DemuxError::JournalFull);
        }
        self.make_room_for_outcome()?;
        let job = self.job();
        self.keep(job);
        Ok(job)
    }
}
