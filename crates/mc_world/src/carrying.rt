//! An order of the core is carried to the demuxer, and done.
ghost use Rattle.std.specs.Prelude.{◌≡◌, ℤ, None, Some, ⊤, IfOk, IsSomeAnd};
ghost use Rattle.mc_tracks.specs.Selection.{numbers_of};
ghost use Rattle.mc_calls.specs.Demuxers.{IsDemux};
ghost use Rattle.mc_calls.specs.Film.{StandsFor};
ghost use Rattle.mc_calls.specs.Marks.{AreAmong, marks_of};
ghost use Rattle.mc_journal.specs.Films.{Film};
ghost use Rattle.mc_player.specs.declared.record.Order.TheVariants as orders;
ghost use Rattle.mc_calls.specs.Selecting.{Selects};
ghost use Rattle.mc_world.specs.Steps.{Carries, Does, IsDone, IsSame, carried_after, seek_outcome, select_outcome};
ghost use Rattle.mc_player.specs.Rules.{IsOutcome};
ghost use Rattle.mc_packet.specs.declared.choice.Dir.{Dir};
ghost use Rattle.mc_world.specs.declared.moves.Reply.TheVariants as replies;
ghost use Rattle.mc_world.specs.Calls.{told_as};
ghost use Rattle.mc_world.specs.Errors.{demux_error};

use crate::demuxing::still;
use crate::moves::{Reply, WorldError};
use crate::world::World;
use mc_deeds::copy_outcome;
use mc_demux::{Demux, DemuxError, Selected};
use mc_journal::Sought;
use mc_packet::{Choice, Dir, Why};
use mc_player::{Order, Outcome};
use mc_props::Reads;
use mc_props::meanings::Meaning;
use mc_tracks::default_choice;

// What a seek came to that was carried.
fn seek_outcome(answer: Result<Sought, DemuxError>) -> Result<Outcome, DemuxError>
    ensures value { result ≡ seek_outcome answer }
    ensures fits { (t : ℤ) (dir : Dir) → IfOk result (λ x. IsOutcome (orders.Seek t dir) x) }
{
    match answer {
        Ok(_) => Ok(Outcome::Sought),
        Err(DemuxError::Refused(Why::NoTrack)) => Ok(Outcome::Refused(Why::NoTrack)),
        Err(error) => Err(error),
    }
}

// What a selection came to that was carried.
fn select_outcome(set: Choice, answer: Result<Selected, DemuxError>) -> Result<Outcome, DemuxError>
    ensures value { result ≡ select_outcome set answer }
    ensures fits { (at : ℤ) → IfOk result (λ x. IsOutcome (orders.Select set at) x) }
{
    match answer {
        Ok(_) => Ok(Outcome::Selected { set }),
        Err(error) => Err(error),
    }
}

// A set is selected by its numbers.
fn select_set(demux: &mut Demux, by: u32, set: Choice, at: i64) -> Result<Selected, DemuxError>
    ensures value { Selects by (numbers_of set) at demux.old result demux.new }
    ensures film { (film : Film) → StandsFor film demux.old → StandsFor film demux.new }
    ensures marks { AreAmong (marks_of demux.old.cache) demux.new.cache }
    ensures demux { IsDemux demux.new }
{
    match (set.video, set.audio, set.sub) {
        (Some(video), Some(audio), Some(sub)) => demux.select(by, &[video, audio, sub], at),
        (Some(video), Some(audio), None) => demux.select(by, &[video, audio], at),
        (Some(video), None, Some(sub)) => demux.select(by, &[video, sub], at),
        (Some(video), None, None) => demux.select(by, &[video], at),
        (None, Some(audio), Some(sub)) => demux.select(by, &[audio, sub], at),
        (None, Some(audio), None) => demux.select(by, &[audio], at),
        (None, None, Some(sub)) => demux.select(by, &[sub], at),
        (None, None, None) => demux.select(by, &[], at),
    }
}

impl<F: Reads<M>, M: Meaning> World<F, M> {
    fn carry_load(&mut self, by: u32) -> Result<Reply, WorldError>
        requires order { self.old.order ≡ Some orders.Load }
        requires free { self.old.carried ≡ None }
        ensures value { Carries by orders.Load self.old result self.new }
        ensures demux { IsSame self.old.demux self.new.demux }
    {
        still(&self.demux);
        let outcome = Outcome::Loaded {
            path: self.path.copy()?,
            tracks: self.tracks.copy()?,
            set: default_choice(&self.tracks),
        };
        let told = copy_outcome(&outcome)?;
        self.carried = Some(outcome);
        Ok(Reply::Carry(told))
    }

    // What the order came to is carried from now on, and answered. A refusal leaves all as it is.
    fn answer_carry(
        &mut self,
        outcome: Result<Outcome, DemuxError>,
        told: Result<Outcome, DemuxError>,
    ) -> Result<Reply, WorldError>
        requires same { told ≡ outcome }
        requires free { self.old.carried ≡ None }
        requires fits { IfOk outcome (λ x. IsSomeAnd self.old.order (λ o. IsOutcome o x)) }
        ensures told { result ≡ told_as replies.Carry demux_error outcome }
        ensures carried { self.new ≡ record self.old { carried = carried_after outcome } }
    {
        self.carried = outcome.ok();
        Ok(Reply::Carry(told?))
    }

    fn carry_seek(&mut self, by: u32, t: i64, dir: Dir) -> Result<Reply, WorldError>
        requires order { self.old.order ≡ Some (orders.Seek t dir) }
        requires free { self.old.carried ≡ None }
        ensures value { Carries by (orders.Seek t dir) self.old result self.new }
        ensures film { (film : Film)
            → StandsFor film self.old.demux → StandsFor film self.new.demux }
        ensures marks { AreAmong (marks_of self.old.demux.cache) self.new.demux.cache }
        ensures demux { IsDemux self.new.demux }
    {
        let answer = self.demux.seek(by, t, dir);
        self.answer_carry(seek_outcome(answer), seek_outcome(answer))
    }

    fn carry_select(&mut self, by: u32, set: Choice, at: i64) -> Result<Reply, WorldError>
        requires order { self.old.order ≡ Some (orders.Select set at) }
        requires free { self.old.carried ≡ None }
        ensures value { Carries by (orders.Select set at) self.old result self.new }
        ensures film { (film : Film)
            → StandsFor film self.old.demux → StandsFor film self.new.demux }
        ensures marks { AreAmong (marks_of self.old.demux.cache) self.new.demux.cache }
        ensures demux { IsDemux self.new.demux }
    {
        let answer = select_set(&mut self.demux, by, set, at);
        self.answer_carry(select_outcome(set, answer), select_outcome(set, answer))
    }

    pub(crate) fn carry(&mut self, by: u32) -> Result<Reply, WorldError>
        requires out { IsSomeAnd self.old.order (λ o. ⊤) }
        requires free { self.old.carried ≡ None }
        ensures value { IsSomeAnd self.old.order (λ o. Carries by o self.old result self.new) }
        ensures film { (film : Film)
            → StandsFor film self.old.demux → StandsFor film self.new.demux }
        ensures marks { AreAmong (marks_of self.old.demux.cache) self.new.demux.cache }
        ensures demux { IsDemux self.new.demux }
    {
        match self.order {
            Some(Order::Load) => self.carry_load(by),
            Some(Order::Seek { t, dir }) => self.carry_seek(by, t, dir),
            Some(Order::Select { set, at }) => self.carry_select(by, set, at),
            _ => unreachable!(),
        }
    }

    // The core is told what its order came to.
    fn end(&mut self, by: u32, outcome: Outcome) -> Result<Reply, WorldError>
        requires out { IsSomeAnd self.old.order (λ o. IsOutcome o outcome) }
        ensures value { Does by outcome self.old result self.new }
        ensures demux { IsSame self.old.demux self.new.demux }
    {
        still(&self.demux);
        self.core.done(by, outcome)?;
        self.order = None;
        self.carried = None;
        Ok(Reply::Done)
    }

    pub(crate) fn done(&mut self, by: u32) -> Result<Reply, WorldError>
        requires carried { IsSomeAnd self.old.carried (λ x. ⊤) }
        ensures value { IsSomeAnd self.old.carried (λ x. IsDone by x self.old result self.new) }
        ensures demux { IsSame self.old.demux self.new.demux }
    {
        still(&self.demux);
        match &self.carried {
            Some(outcome) => {
                let outcome = copy_outcome(outcome)?;
                self.end(by, outcome)
            }
            None => unreachable!(),
        }
    }
}
