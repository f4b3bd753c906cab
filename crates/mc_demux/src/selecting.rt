//! Other tracks are selected.
ghost use Rattle.std.specs.Prelude.{◌≡◌, ◌≤◌, ◌<◌, ◌+◌, ◌++◌, ◌∷◌, true, length, not, ◌||◌, OnOk, OnErr, vec_capacity, vec_len};
ghost use Rattle.mc_packet.specs.Choices.{has, is_known};
ghost use Rattle.mc_journal.specs.Choices.{kept_track};
ghost use Rattle.mc_journal.specs.Films.{Film};
ghost use Rattle.mc_cache.specs.Cache.{count_of, ranges_of};
ghost use Rattle.mc_calls.specs.Demuxers.{IsDemux};
ghost use Rattle.mc_calls.specs.Film.{StandsFor};
ghost use Rattle.mc_calls.specs.Marks.{AreAmong, marks_of};
ghost use Rattle.mc_journal.specs.Callers.{Grew};
ghost use Rattle.mc_tracks.specs.Selection.{knows};
ghost use Rattle.mc_calls.specs.Selecting.{Selects, Switches, added_to, sought_again, told_drops, waiting_after};

use crate::demux::{Demux, Records};
use crate::reading::{FULL, has};
use crate::seek::NOTHING;
use crate::trim::trim;
use crate::viewing::lead_of;
use mc_cache::Removal;
use mc_calls::{DemuxError, Selected, Switch, Target};
use mc_journal::{DemuxRecord, Sought};
use mc_packet::{Choice, NoMemory, TrackNo};

// Added tracks wait, unless a seek is pending, which finds all starts.
fn waiting_after(seeking: Option<Target>, added: Choice) -> Choice
    ensures { result ≡ waiting_after seeking added }
{
    match seeking {
        Some(_) => NOTHING,
        None => added,
    }
}

// Tells of a pending seek again, which is of the new set then.
fn write_sought(journal: &mut Records, by: u32, set: Choice, seeking: Option<Target>)
    requires { vec_len journal.old < vec_capacity journal.old }
    ensures items { journal.new.items ≡ journal.old.items ++ sought_again by set seeking }
    ensures few { vec_len journal.new ≤ vec_len journal.old + 1 }
    ensures kept { vec_capacity journal.new ≡ vec_capacity journal.old }
{
    if let Some(target) = seeking {
        journal.push_reserved(DemuxRecord::Sought {
            by,
            set,
            t: target.t,
            dir: target.dir,
            how: Sought::Sent,
        });
    }
}

// Tells of packets that went.
fn write_drops(journal: &mut Records, by: u32, drops: &[Removal])
    requires { vec_len journal.old + length drops.now ≤ vec_capacity journal.old }
    ensures items { journal.new.items ≡ journal.old.items ++ told_drops by drops.now }
    ensures few { vec_len journal.new ≡ vec_len journal.old + length drops.now }
    ensures kept { vec_capacity journal.new ≡ vec_capacity journal.old }
{
    for drop in drops {
        journal.push_reserved(DemuxRecord::Dropped { by, drop: *drop });
    }
}

// Writes a selection's records: its own, a pending seek again, and what went.
fn write_switch(
    journal: &mut Records,
    by: u32,
    own: DemuxRecord,
    set: Choice,
    seeking: Option<Target>,
    drops: &[Removal],
)
    requires { vec_len journal.old + 2 + length drops.now ≤ vec_capacity journal.old }
    ensures items { journal.new.items
        ≡ journal.old.items ++ ((own ∷ sought_again by set seeking) ++ told_drops by drops.now) }
    ensures few { vec_len journal.new ≤ vec_len journal.old + 2 + length drops.now }
    ensures kept { vec_capacity journal.new ≡ vec_capacity journal.old }
{
    journal.push_reserved(own);
    write_sought(journal, by, set, seeking);
    write_drops(journal, by, drops);
}

impl Demux {
    fn added(&self, track: Option<TrackNo>) -> Option<TrackNo>
        ensures { result
            ≡ kept_track (λ k. not (has self.now.set k) || has self.now.waiting k) track }
    {
        match track {
            Some(track) => {
                if !has(self.set, track) || has(self.waiting, track) {
                    Some(track)
                } else {
                    None
                }
            }
            None => None,
        }
    }

    // The tracks of a set that were not selected, or that wait.
    fn added_to(&self, set: Choice) -> Choice
        ensures { result ≡ added_to set self.now }
    {
        Choice {
            video: self.added(set.video),
            audio: self.added(set.audio),
            sub: self.added(set.sub),
        }
    }

    // Selects a set that is not the present one.
    fn switch(&mut self, by: u32, set: Choice, at: i64) -> Result<(), NoMemory>
        requires known { is_known (knows self.old.list) set ≡ true }
        requires room { count_of (ranges_of self.old.cache) + 34 ≤ self.old.spare }
        ensures ok { OnOk result (Switches by set at self.old self.new) }
        ensures err { OnErr result (self.new ≡ self.old) }
        ensures demux { IsDemux self.new }
    {
        let added = self.added_to(set);
        let drops = self.cache.retrack(set)?;
        let own = DemuxRecord::Switched { by, set, added, at };
        write_switch(
            &mut self.journal,
            by,
            own,
            set,
            self.seeking,
            drops.as_slice(),
        );
        trim(by, &mut self.cache, &self.heads, &mut self.journal);
        self.set = set;
        self.waiting = waiting_after(self.seeking, added);
        self.switch = Switch {
            lead: lead_of(set),
            at,
        };
        self.failure = None;
        self.ended = NOTHING;
        self.number += 1;
        self.kept = None;
        self.fed = false;
        Ok(())
    }

    /// A selection of the tracks with these numbers, at the time `at`, in nanoseconds. `Same` where
    /// they are the present ones: nothing is recorded then. Else the current range keeps the queues
    /// of tracks that stay, all other packets go, and the tracks that are added wait for their start,
    /// which is that of the time `at`; a pending seek is sent again, of the new set. No failure and no
    /// end stands any longer, and what a job brings that was given before is stale. The selection is
    /// recorded, then a seek that is sent again, then what went; and then packets behind the readers
    /// are dropped, as long as there are more octets of them than the limit. Refused with
    /// `UnknownTrack` where a number is not listed, else with `Unsupported` where a track's blocks
    /// can't be read, else with `TwoOfKind` where a number's kind is that of another one before it:
    /// the first such number is told and recorded, and all else stays. Refused with `JournalFull`
    /// exactly where the journal has 16,000,000 records, and with `NoMemory`; these change nothing
    /// but room.
    pub fn select(&mut self, by: u32, set: &[TrackNo], at: i64) -> Result<Selected, DemuxError>
        ensures value { Selects by set.now at self.old result self.new }
        ensures grows { Grew by self.old.journal self.new.journal }
        ensures film { (film : Film) → StandsFor film self.old → StandsFor film self.new }
        ensures marks { AreAmong (marks_of self.old.cache) self.new.cache }
        ensures demux { IsDemux self.new }
    {
        if self.journal.len() >= FULL {
            return Err(DemuxError::JournalFull);
        }
        if let Some(why) = self.list.refusal_of(set) {
            self.refuse(by, why)?;
            return Err(DemuxError::Refused(why));
        }
        let chosen = self.list.choice_of(set);
        if chosen == self.set {
            return Ok(Selected::Same);
        }
        self.make_room_to_change()?;
        self.switch(by, chosen, at)?;
        Ok(Selected::Changed)
    }
}
