use mc_demux::{DemuxError, Job, Peek, Reading, Selected, Taken};
use mc_journal::Sought;
use mc_outside::Shelf;
use mc_packet::{CacheView, Choice, Dir, TrackNo};

/// A demuxer with what it takes to do its jobs, by what its calls answer and add to its journal.
pub trait Machine {
    ghost use Rattle.std.specs.Prelude.{◌≡◌, ℕ, ◌≤◌, List, Some, true};
    ghost use Rattle.mc_journal.specs.declared.record.DemuxRecord.{DemuxRecord};
    ghost use Rattle.mc_journal.specs.Drives.{Readings};
    ghost use Rattle.mc_lines.specs.Films.{OnStand, StaysOn, StaysTold};
    ghost use Rattle.mc_lines.specs.Calls.{Ahead, AnswersOn, AtRest, Bears, Brings, Fixed, Jobs, Peeks, Reads, Seeks, Selects, Shows, Takes, at};

    ghost journal: { Self → List DemuxRecord };

    /// The number of the next job, and the job whose outcome is awaited.
    ghost jobs: { Self → Jobs };

    /// What the next calls would answer.
    ghost ahead: { Self → Ahead };

    /// The number of the film's file on a shelf, and how much is cached.
    ghost fixed: { Self → Fixed };

    /// It stands for the film of these octets, of which these readings are.
    ghost stands: { Self → List ℕ → Readings → Type 0 };

    fn seek(&mut self, by: u32, t: i64, dir: Dir) -> Result<Sought, DemuxError>
        ensures seeks { Seeks (ahead self.old) by t dir (journal self.old) (journal self.new)
            (jobs self.old) (jobs self.new) result }
        ensures stands { StaysOn stands self.old self.new }
        ensures fixed { fixed self.new ≡ fixed self.old };

    fn select(&mut self, by: u32, set: &[TrackNo], at: i64) -> Result<Selected, DemuxError>
        ensures selects { Selects (ahead self.old) by set.now at (journal self.old)
            (journal self.new) (jobs self.old) (jobs self.new) result }
        ensures stands { StaysOn stands self.old self.new }
        ensures fixed { fixed self.new ≡ fixed self.old };

    fn show(&mut self, by: u32) -> Result<CacheView, DemuxError>
        ensures shows { Shows by (journal self.old) (journal self.new) (jobs self.old)
            (jobs self.new) result }
        ensures stands { StaysOn stands self.old self.new }
        ensures fixed { fixed self.new ≡ fixed self.old };

    fn next_job(&mut self) -> Result<Job, DemuxError>
        ensures takes { Takes (ahead self.old) (journal self.old) (journal self.new) (jobs self.old)
            (jobs self.new) result }
        ensures stands { StaysOn stands self.old self.new }
        ensures fixed { fixed self.new ≡ fixed self.old };

    /// Does a job that was taken, on the shelf that holds the film's file, and brings its outcome.
    fn bring<S: Shelf>(&mut self, shelf: &mut S, job: Job) -> Result<Taken, DemuxError>
        requires bears { Bears job (jobs self.old) }
        ensures brings { Brings job (S.faults shelf.old) (S.faults shelf.new) (journal self.old)
            (journal self.new) (jobs self.old) (jobs self.new) result }
        ensures stands { StaysTold S.files S.opened shelf.old fixed stands self.old self.new }
        ensures fixed { fixed self.new ≡ fixed self.old }
        ensures files { S.files shelf.new ≡ S.files shelf.old }
        ensures opened { S.opened shelf.new ≡ S.opened shelf.old }
        ensures later { S.faults shelf.old ≤ S.faults shelf.new };

    fn read(&mut self, by: u32, track: TrackNo) -> Result<Reading, DemuxError>
        ensures reads { Reads (ahead self.old) by track
            (journal self.old) (journal self.new) result }
        ensures jobs { jobs self.new ≡ jobs self.old }
        ensures film { OnStand stands self.old
            (λ octets rd. AnswersOn rd track (journal self.old) (journal self.new) result) }
        ensures stands { StaysOn stands self.old self.new }
        ensures fixed { fixed self.new ≡ fixed self.old };

    /// What a read of the track would answer.
    fn peek(&self, track: TrackNo) -> Peek
        ensures { Peeks (ahead self.now) track result };

    /// The selected tracks.
    fn selection(&self) -> Choice
        ensures { result ≡ (ahead self.now).set };

    /// The reader's time in nanoseconds, or 0.
    fn time(&self) -> i64
        ensures { result ≡ (ahead self.now).time };

    /// On its film the next calls answer what the journal says.
    ghost shows_film: { (m : Self) → OnStand stands m (λ octets rd. ahead m ≡ at rd (journal m)) };

    /// Where nothing is to be done, all that is cached can be read to the end.
    ghost rests: { (m : Self) → OnStand stands m
        (λ octets rd. (ahead m).idle ≡ true → AtRest rd (journal m)) };
}
