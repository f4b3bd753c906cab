//! Seeks: answered from the cache where a range serves them, else sent on.
ghost use Rattle.std.specs.Prelude.{◌≡◌, ◌≤◌, ◌+◌, ◌++◌, ◌∷◌, [], false, OnOk, OnErr, is_some};
ghost use Rattle.mc_journal.specs.Allowed.{how_by};
ghost use Rattle.mc_packet.specs.Choices.{is_empty};
ghost use Rattle.mc_journal.specs.Films.{Film};
ghost use Rattle.mc_cache.specs.Cache.{IsCache, count_of, ranges_of};
ghost use Rattle.mc_cache.specs.Changing.{heads_in, server};
ghost use Rattle.mc_calls.specs.Demuxers.{IsDemux};
ghost use Rattle.mc_calls.specs.Film.{StandsFor};
ghost use Rattle.mc_calls.specs.Keeping.{IsRoomy};
ghost use Rattle.mc_calls.specs.Marks.{AreAmong, marks_of};
ghost use Rattle.mc_journal.specs.Callers.{Grew};
ghost use Rattle.mc_calls.specs.Seeking.{Goes, IsRefused, Seeks, Turns, heads_or, target_after};

use crate::asking::is_empty;
use crate::demux::Demux;
use crate::reading::FULL;
use crate::trim::trim;
use mc_cache::Cache;
use mc_calls::{DemuxError, Target};
use mc_journal::{DemuxRecord, Sought};
use mc_packet::{Choice, Dir, Heads, NoMemory, Why};

// No track.
pub(crate) const NOTHING: Choice = Choice {
    video: None,
    audio: None,
    sub: None,
};

fn target_after(t: i64, dir: Dir, how: Sought) -> Option<Target>
    ensures { result ≡ target_after t dir how }
{
    match how {
        Sought::Cached => None,
        Sought::Sent => Some(Target { t, dir }),
    }
}

// Turns to the range that serves a seek, and the heads to where it is read then; or leaves the
// current range where none serves.
#[tactic(auto, using(mc_calls::proofs::Sought::served_by))]
fn turn(cache: &mut Cache, heads: &mut Heads, set: Choice, t: i64, dir: Dir) -> Sought
    ensures value { Turns set t dir result cache.old cache.new }
    ensures how { result ≡ how_by (is_some (server set t dir cache.old)) }
    ensures heads { heads.new
        ≡ heads_or heads.old (heads_in set t dir (server set t dir cache.old)) }
    ensures cache { IsCache cache.new }
{
    match cache.choose(set, t, dir) {
        Some(found) => {
            *heads = found;
            Sought::Cached
        }
        None => {
            cache.leave_current();
            Sought::Sent
        }
    }
}

impl Demux {
    // Writes that a call is refused, and why. `NoMemory` leaves all as it was but room.
    pub(crate) fn refuse(&mut self, by: u32, why: Why) -> Result<(), NoMemory>
        ensures ok { OnOk result (IsRefused by why self.old self.new) }
        ensures err { OnErr result (IsRoomy self.old self.new) }
        ensures demux { IsDemux self.new }
    {
        self.journal.reserve(3)?;
        self.journal.push_reserved(DemuxRecord::Refused { by, why });
        Ok(())
    }

    // Writes a seek and how it is answered, turns the cache and the readers, and drops packets as
    // the limit asks.
    fn go(&mut self, by: u32, t: i64, dir: Dir) -> Sought
        requires room { count_of (ranges_of self.old.cache) + 3 ≤ self.old.spare }
        ensures value { Goes by t dir result self.old self.new }
        ensures demux { IsDemux self.new }
    {
        let set = self.set;
        let how = turn(&mut self.cache, &mut self.heads, set, t, dir);
        self.journal.push_reserved(DemuxRecord::Sought {
            by,
            set,
            t,
            dir,
            how,
        });
        self.seeking = target_after(t, dir, how);
        self.waiting = NOTHING;
        self.failure = None;
        self.ended = NOTHING;
        self.number += 1;
        self.kept = None;
        self.fed = false;
        trim(by, &mut self.cache, &self.heads, &mut self.journal);
        how
    }

    /// A seek of the selected tracks to the time `t`, in nanoseconds. It is answered from the cache
    /// exactly where a range serves it: the first such range in order of last use is the current
    /// one then, and the readers stand where it is read from. Else it is sent on: no range is
    /// current, and the next job is to find where the tracks start. Either way nothing waits, no
    /// failure and no end stands any longer, and what a job brings that was given before is stale.
    /// It is recorded, and then packets behind the readers are dropped, as long as there are more
    /// octets of them than the limit. Refused with `NoTrack` exactly where nothing is selected,
    /// which is recorded; with `JournalFull` exactly where the journal has 16,000,000 records; and
    /// with `NoMemory`. The last two change nothing but room.
    pub fn seek(&mut self, by: u32, t: i64, dir: Dir) -> Result<Sought, DemuxError>
        ensures value { Seeks by t dir self.old result self.new }
        ensures grows { Grew by self.old.journal self.new.journal }
        ensures film { (film : Film) → StandsFor film self.old → StandsFor film self.new }
        ensures marks { AreAmong (marks_of self.old.cache) self.new.cache }
        ensures demux { IsDemux self.new }
    {
        if self.journal.len() >= FULL {
            return Err(DemuxError::JournalFull);
        }
        if is_empty(self.set) {
            self.refuse(by, Why::NoTrack)?;
            return Err(DemuxError::Refused(Why::NoTrack));
        }
        self.make_room()?;
        Ok(self.go(by, t, dir))
    }
}
