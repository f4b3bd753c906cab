//! A driver as a machine on which a script is played.
ghost use Rattle.mc_lines.specs.Machines.{Stands, ahead_of, fixed_of, jobs_of};

use crate::machine::Machine;
use mc_demux::{DemuxError, Job, Peek, Reading, Selected, Taken};
use mc_jobs::{Driver, number_of};
use mc_journal::Sought;
use mc_outside::Shelf;
use mc_packet::{CacheView, Choice, Dir, TrackNo};

impl Machine for Driver {
    ghost journal = { λ d. d.demux.journal };

    ghost jobs = { λ d. jobs_of d.demux };

    ghost ahead = { λ d. ahead_of d.demux };

    ghost fixed = { λ d. fixed_of d };

    ghost stands = { λ d octets rd. Stands d octets rd };

    fn seek(&mut self, by: u32, t: i64, dir: Dir) -> Result<Sought, DemuxError> {
        self.demux.seek(by, t, dir)
    }

    fn select(&mut self, by: u32, set: &[TrackNo], at: i64) -> Result<Selected, DemuxError> {
        self.demux.select(by, set, at)
    }

    fn show(&mut self, by: u32) -> Result<CacheView, DemuxError> {
        self.demux.show(by)
    }

    fn next_job(&mut self) -> Result<Job, DemuxError> {
        self.demux.next_job()
    }

    fn bring<S: Shelf>(&mut self, shelf: &mut S, job: Job) -> Result<Taken, DemuxError> {
        let Some(no) = number_of(job) else {
            return Ok(Taken::Stale { asked: 0, now: 0 });
        };
        // A job that is not the kept one bears an old number, so that this is answered as stale.
        if self.demux.kept() != Some(job) {
            return Ok(self.demux.starved(no));
        }
        self.do_job(shelf, job, no)
    }

    fn read(&mut self, by: u32, track: TrackNo) -> Result<Reading, DemuxError> {
        self.demux.read(by, track)
    }

    fn peek(&self, track: TrackNo) -> Peek {
        self.demux.peek(track)
    }

    fn selection(&self) -> Choice {
        self.demux.selection()
    }

    fn time(&self) -> i64 {
        self.demux.time().unwrap_or(0)
    }

    ghost shows_film = { λ m octets rd s. s.shows };

    ghost rests = { λ m octets rd s idle. s.rests idle };
}
