//! Jobs that come to nothing.
ghost use Rattle.std.specs.Prelude.{◌≡◌, true, is_some, List, ◌++◌, ◌∷◌, [], None};
ghost use Rattle.mc_journal.specs.Films.{Film};
ghost use Rattle.mc_journal.specs.declared.record.DemuxRecord.TheVariants.{Failed as FailedRecord, Starved as StarvedRecord};
ghost use Rattle.mc_calls.specs.declared.waiting.Failure.TheVariants.{Failed, Starved};
ghost use Rattle.mc_calls.specs.Demuxers.{IsDemux};
ghost use Rattle.mc_calls.specs.Outcomes.{BringsFailure, Fails, HasRisen, failed_on};
ghost use Rattle.mc_calls.specs.Film.{StandsFor, failure_record};
ghost use Rattle.mc_calls.specs.Marks.{AreAmong, marks_of};
ghost use Rattle.mc_journal.specs.Callers.{Grew, demuxer};

use crate::demux::Demux;
use mc_calls::{Failure, Taken};
use mc_journal::{DEMUXER, DemuxRecord};

fn failure_record(failure: Failure) -> DemuxRecord
    ensures { result ≡ failure_record failure }
{
    match failure {
        Failure::Failed { before, after } => DemuxRecord::Failed {
            by: DEMUXER,
            before,
            after,
        },
        Failure::Starved => DemuxRecord::Starved { by: DEMUXER },
    }
}

impl Demux {
    /// The job of this number came to nothing, since a read of the file failed, with the shelf's
    /// counts of faults before and after. Until the next seek or selection nothing is read on, and
    /// readers are told. `Stale` exactly where the number is not the present one: then nothing
    /// changes. It takes no memory.
    pub fn failed(&mut self, no: u64, before: u64, after: u64) -> Taken
        requires brought { BringsFailure no self.old }
        requires risen { HasRisen before after }
        ensures value { Fails no (Failed before after) (FailedRecord demuxer before after)
            self.old result self.new }
        ensures grows { Grew demuxer self.old.journal self.new.journal }
        ensures film { (film : Film) → StandsFor film self.old → StandsFor film self.new }
        ensures marks { AreAmong (marks_of self.old.cache) self.new.cache }
        ensures demux { IsDemux self.new }
    {
        if no != self.number {
            return Taken::Stale {
                asked: no,
                now: self.number,
            };
        }
        self.stop(Failure::Failed { before, after });
        Taken::Taken
    }

    /// The job of this number came to nothing for want of memory. Until the next seek or selection
    /// nothing is read on, and readers are told. `Stale` exactly where the number is not the present
    /// one: then nothing changes. It takes no memory.
    pub fn starved(&mut self, no: u64) -> Taken
        requires brought { BringsFailure no self.old }
        ensures value { Fails no Starved (StarvedRecord demuxer) self.old result self.new }
        ensures grows { Grew demuxer self.old.journal self.new.journal }
        ensures film { (film : Film) → StandsFor film self.old → StandsFor film self.new }
        ensures marks { AreAmong (marks_of self.old.cache) self.new.cache }
        ensures demux { IsDemux self.new }
    {
        if no != self.number {
            return Taken::Stale {
                asked: no,
                now: self.number,
            };
        }
        self.stop(Failure::Starved);
        Taken::Taken
    }

    // Reads nothing on, and tells why.
    fn stop(&mut self, failure: Failure)
        requires kept { is_some self.old.kept ≡ true }
        ensures value { self.new ≡ failed_on failure (failure_record failure) self.old }
        ensures demux { IsDemux self.new }
    {
        self.journal.push_reserved(failure_record(failure));
        self.failure = Some(failure);
        self.number += 1;
        self.kept = None;
        self.fed = false;
    }
}
