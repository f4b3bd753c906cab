ghost use Rattle.std.specs.Prelude.{◌≡◌, None, IfOk, [], ℕ};
ghost use Rattle.mc_packet.specs.declared.choice.Choice.{Choice};
ghost use Rattle.mc_tracks.specs.TrackList.{IsTrackList};
ghost use Rattle.mc_calls.specs.Demuxers.{IsDemux};
ghost use Rattle.mc_calls.specs.Film.{StandsFor};
ghost use Rattle.mc_calls.specs.Marks.{AreAmong, marks_of};
ghost use Rattle.mc_journal.specs.Films.{Film};
ghost use Rattle.mc_core.specs.Core.{IsCore};
ghost use Rattle.mc_world.specs.World.{new_world};
ghost use Rattle.mc_world.specs.Steps.{IsOfFilm, May, Stepped, marks_by};

use crate::moves::{Reply, Step, WorldError};
use mc_core::Core;
use mc_demux::{Demux, Job};
use mc_jobs::film_tracks;
use mc_journal::DemuxJournal;
use mc_player::{CoreJournal, Order, Outcome};
use mc_props::Reads;
use mc_props::meanings::Meaning;
use mc_tracks::TrackList;
use mc_value::Text;
use std::marker::Model;

/// A demuxer and a player's core, the film that the core is to load, and what is out between them.
#[derive(Drop)]
pub struct World<F: Reads<M>, M: Meaning> {
    pub(crate) demux: Demux,
    pub(crate) core: Core<F, M>,
    // the film that is loaded: its path and its tracks
    pub(crate) path: Text,
    pub(crate) tracks: TrackList,
    // the job that is out, the order that is out, and what this came to once it was carried
    pub(crate) job: Option<Job>,
    pub(crate) order: Option<Order>,
    pub(crate) carried: Option<Outcome>,
}

impl<F: Reads<M>, M: Meaning> Model for World<F, M> {
    ghost use Rattle.std.specs.Coded.{codes};
    ghost use Rattle.mc_value.specs.contracts.value.Value as value;
    ghost use Rattle.mc_world.specs.World.{IsWorld, WorldView};

    ghost Value = { WorldView };

    ghost coded = { Prim.hlevel (codes, value.the_row.coded) };

    ghost view = { λ w. record {
      demux = w.demux;
      core = w.core;
      path = w.path;
      tracks = w.tracks;
      job = w.job;
      order = w.order;
      carried = w.carried;
    } };

    ghost invariant = { λ w. IsWorld (record {
      demux = w.demux;
      core = w.core;
      path = w.path;
      tracks = w.tracks;
      job = w.job;
      order = w.order;
      carried = w.carried;
    }) };
}

impl<F: Reads<M>, M: Meaning> World<F, M> {
    /// A world in which nothing is out. A `Load` is carried with this path, these tracks and those of
    /// them that are played at first.
    pub fn new(demux: Demux, core: Core<F, M>, path: Text, tracks: TrackList) -> World<F, M>
        requires begins { core.out ≡ None }
        requires list { IsTrackList tracks }
        ensures { result ≡ new_world demux core path tracks }
    {
        film_tracks();
        World {
            demux,
            core,
            path,
            tracks,
            job: None,
            order: None,
            carried: None,
        }
    }

    /// The demuxer: what is cached, and where its readers stand.
    pub fn demux(&self) -> &Demux
        ensures value { result.now ≡ self.now.demux }
    {
        &self.demux
    }

    /// The player's core: its facts and its journal.
    pub fn core(&self) -> &Core<F, M>
        ensures value { result.now ≡ self.now.core }
    {
        &self.core
    }

    /// The job of the demuxer that is out.
    pub fn job(&self) -> Option<Job>
        ensures { result ≡ self.now.job }
    {
        self.job
    }

    /// The order of the core that is out.
    pub fn order(&self) -> Option<Order>
        ensures { result ≡ self.now.order }
    {
        self.order
    }

    /// Both journals, which outlive the world.
    pub fn into_journals(self) -> (DemuxJournal, CoreJournal)
        ensures demux { result.0 ≡ self.demux.journal }
        ensures core { result.1.items ≡ self.core.journal }
    {
        (self.demux.into_journal(), self.core.into_journal())
    }

    /// One step: the call that it names, by `Stepped`. Each refusal is that call's, and nothing changed
    /// then but that a demuxer's refusal stands in its journal. A `Carry` whose seek is refused since
    /// no track is selected answers with that as the outcome.
    pub fn step(&mut self, step: Step) -> Result<Reply, WorldError>
        requires may { May self.old step }
        ensures value { Stepped M.value step self.old result self.new }
        ensures film { (film : Film) → IsOfFilm film self.old step
            → StandsFor film self.old.demux → StandsFor film self.new.demux }
        ensures marks { AreAmong (marks_by step (marks_of self.old.demux.cache))
            self.new.demux.cache }
        ensures demux { IsDemux self.new.demux }
    {
        match step {
            Step::Seek { by, t, dir } => self.seek(by, t, dir),
            Step::Switch { by, set, at } => self.switch(by, set.as_slice(), at),
            Step::Show { by } => self.show(by),
            Step::Take { .. } => self.take(),
            Step::Bring { what, .. } => self.bring(what),
            Step::Read { by, kind } => self.read(by, kind),
            Step::Learn { by } => self.learn(by),
            Step::Work { by } => self.work(by),
            Step::Carry { by } => self.carry(by),
            Step::Done { by } => self.done(by),
            Step::Create { by, name, size } => self.create(by, name, size),
            Step::Destroy { by, client } => self.destroy(by, client),
            Step::Call { by, client, call } => self.call(by, client, call),
        }
    }
}
