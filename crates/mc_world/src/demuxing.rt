//! The steps of the demuxer.
ghost use Rattle.std.specs.Prelude.{◌≡◌, None};
ghost use Rattle.mc_packet.specs.Choices.{track_of};
ghost use Rattle.mc_calls.specs.Demuxers.{IsDemux};
ghost use Rattle.mc_calls.specs.Film.{StandsFor};
ghost use Rattle.mc_calls.specs.Marks.{AreAmong, marks_of};
ghost use Rattle.mc_calls.specs.Readings.{Reads as ReadsOf};
ghost use Rattle.mc_calls.specs.Seeking.{Seeks};
ghost use Rattle.mc_calls.specs.Selecting.{Selects};
ghost use Rattle.mc_calls.specs.Viewing.{Shows};
ghost use Rattle.mc_jobs.specs.Working.{Brings, IsOfFilm as IsBroughtOf, marks_in};
ghost use Rattle.mc_journal.specs.Films.{Film};
ghost use Rattle.mc_world.specs.declared.moves.Reply.TheVariants as replies;
ghost use Rattle.mc_world.specs.Calls.{Demuxes};
ghost use Rattle.mc_world.specs.Steps.{BringsJob, IsSame, OnJob, ReadsTrack, TakesJob};

use crate::moves::{Reply, WorldError};
use crate::world::World;
use mc_demux::{Demux, Job, Reading};
use mc_jobs::{Brought, bring, number_of};
use mc_packet::{Dir, Kind, TrackNo};
use mc_props::Reads;
use mc_props::meanings::Meaning;

// Of a demuxer as it stands.
pub(crate) fn still(demux: &Demux)
    ensures { IsSame demux.now demux.now }
{
    demux.kept();
}

impl<F: Reads<M>, M: Meaning> World<F, M> {
    pub(crate) fn seek(&mut self, by: u32, t: i64, dir: Dir) -> Result<Reply, WorldError>
        ensures value { Demuxes (Seeks by t dir) replies.Seek self.old result self.new }
        ensures film { (film : Film)
            → StandsFor film self.old.demux → StandsFor film self.new.demux }
        ensures marks { AreAmong (marks_of self.old.demux.cache) self.new.demux.cache }
        ensures demux { IsDemux self.new.demux }
    {
        Ok(Reply::Seek(self.demux.seek(by, t, dir)?))
    }

    pub(crate) fn switch(&mut self, by: u32, set: &[TrackNo], at: i64) -> Result<Reply, WorldError>
        ensures value { Demuxes (Selects by set.now at) replies.Switch self.old result self.new }
        ensures film { (film : Film)
            → StandsFor film self.old.demux → StandsFor film self.new.demux }
        ensures marks { AreAmong (marks_of self.old.demux.cache) self.new.demux.cache }
        ensures demux { IsDemux self.new.demux }
    {
        Ok(Reply::Switch(self.demux.select(by, set, at)?))
    }

    pub(crate) fn show(&mut self, by: u32) -> Result<Reply, WorldError>
        ensures value { Demuxes (Shows by) replies.Show self.old result self.new }
        ensures film { (film : Film)
            → StandsFor film self.old.demux → StandsFor film self.new.demux }
        ensures marks { AreAmong (marks_of self.old.demux.cache) self.new.demux.cache }
        ensures demux { IsDemux self.new.demux }
    {
        Ok(Reply::Show(self.demux.show(by)?))
    }

    pub(crate) fn take(&mut self) -> Result<Reply, WorldError>
        requires free { self.old.job ≡ None }
        ensures value { TakesJob self.old result self.new }
        ensures film { (film : Film)
            → StandsFor film self.old.demux → StandsFor film self.new.demux }
        ensures marks { AreAmong (marks_of self.old.demux.cache) self.new.demux.cache }
        ensures demux { IsDemux self.new.demux }
    {
        let job = self.demux.next_job()?;
        if job != Job::Idle {
            self.job = Some(job);
        }
        Ok(Reply::Take(job))
    }

    // What is brought under a job's number.
    fn bring_under(&mut self, no: u64, what: Brought) -> Result<Reply, WorldError>
        requires brings { Brings no what self.old.demux }
        ensures value { BringsJob what no self.old result self.new }
        ensures film { (film : Film) → IsBroughtOf film no what self.old.demux
            → StandsFor film self.old.demux → StandsFor film self.new.demux }
        ensures marks { AreAmong (marks_in what (marks_of self.old.demux.cache))
            self.new.demux.cache }
        ensures demux { IsDemux self.new.demux }
    {
        let taken = bring(&mut self.demux, no, what)?;
        self.job = None;
        Ok(Reply::Bring(taken))
    }

    pub(crate) fn bring(&mut self, what: Brought) -> Result<Reply, WorldError>
        requires brings { OnJob self.old (λ n. Brings n what self.old.demux) }
        ensures value { OnJob self.old (λ n. BringsJob what n self.old result self.new) }
        ensures film { (film : Film) → OnJob self.old (λ n. IsBroughtOf film n what self.old.demux)
            → StandsFor film self.old.demux → StandsFor film self.new.demux }
        ensures marks { AreAmong (marks_in what (marks_of self.old.demux.cache))
            self.new.demux.cache }
        ensures demux { IsDemux self.new.demux }
    {
        match self.job {
            Some(job) => match number_of(job) {
                Some(no) => self.bring_under(no, what),
                None => unreachable!(),
            },
            None => unreachable!(),
        }
    }

    // A read of this track, if it is one.
    fn read_track(&mut self, by: u32, track: Option<TrackNo>) -> Result<Reply, WorldError>
        ensures value { ReadsTrack by track self.old result self.new }
        ensures film { (film : Film)
            → StandsFor film self.old.demux → StandsFor film self.new.demux }
        ensures marks { AreAmong (marks_of self.old.demux.cache) self.new.demux.cache }
        ensures demux { IsDemux self.new.demux }
    {
        match track {
            Some(track) => Ok(Reply::Read(self.demux.read(by, track)?)),
            None => {
                still(&self.demux);
                Ok(Reply::Read(Reading::Unselected))
            }
        }
    }

    pub(crate) fn read(&mut self, by: u32, kind: Kind) -> Result<Reply, WorldError>
        ensures value { ReadsTrack by (track_of self.old.demux.set kind)
            self.old result self.new }
        ensures film { (film : Film)
            → StandsFor film self.old.demux → StandsFor film self.new.demux }
        ensures marks { AreAmong (marks_of self.old.demux.cache) self.new.demux.cache }
        ensures demux { IsDemux self.new.demux }
    {
        let track = self.demux.selection().of(kind);
        self.read_track(by, track)
    }
}
