ghost use Rattle.std.specs.Prelude.{◌≡◌, List, IfOk};
ghost use Rattle.mc_cursor.specs.Causes.{ReadCause, OnlyReads};

use crate::index::Index;
use crate::search::Around;
use crate::starts::{needed_lead, reference, seek_starts, switch_starts};
use mc_cursor::{Cursor, CursorError};
use mc_outside::Shelf;
use mc_packet::{Choice, Dir, Starts, TrackNo};

impl Index {
    ghost use Rattle.mc_cursor.specs.Standing.{mark_of, at_mark};
    ghost use Rattle.mc_index.specs.Scans.{OnPlan, StayOn};
    ghost use Rattle.mc_index.specs.Answers.{AreFor, AreOfBlocks, SeekStarts, SeekReads, SwitchStarts, SwitchReads};
    ghost use Rattle.mc_index.specs.Searches.{IsNear, NearReads};

    /// The sync points next to a time of a track, if there is one.
    fn near<S: Shelf>(
        &mut self,
        cursor: &mut Cursor,
        shelf: &mut S,
        track: Option<TrackNo>,
        t: i64,
    ) -> Result<Around, CursorError>
        ensures around { IfOk result (λ a. OnPlan S.files S.opened shelf.old cursor.old self.old
            (λ plan. IsNear plan track t a)) }
        ensures stands { StayOn S.files S.opened shelf.old cursor.old self.old cursor.new self.new }
        ensures moves { cursor.new ≡ at_mark cursor.old (mark_of cursor.new) }
        ensures cause { ReadCause (S.faults shelf.old) (S.faults shelf.new) result }
        ensures kept { OnlyReads S.files S.opened S.reach shelf.old shelf.new }
        ensures reach { OnPlan S.files S.opened shelf.old cursor.old self.old
            (λ plan. NearReads plan track t (S.reach shelf.old) (S.reach shelf.new)) }
    {
        match track {
            Some(track) => self.around(cursor, shelf, track, t),
            None => Ok(Around {
                before: None,
                after: None,
            }),
        }
    }

    /// Where to read on after a seek of these tracks to the time `t`, in nanoseconds: the offset of a
    /// block for each of them, and the mark at the least one.
    ///
    /// The video track, or the audio track where no video is selected, starts at its last sync point
    /// at or before `t`, else at its first; for `Dir::Forward` at its first one at or after `t`, else
    /// at its last. Audio beside video starts at its last sync point at or before the time of the
    /// video track's sync point, else at its first. A track without sync points starts at 0, and a
    /// subtitle where the first of the others does. So it is on a regular film, on which the times of
    /// each track's sync points rise; on any film each start is 0 or the offset of a block. The mark
    /// at 0 is the opening mark.
    ///
    /// It reads heads on from the nearest place that is known, and no further than to a sync point of
    /// each video and audio track behind its time. `ReadFault` comes only where the shelf's count of
    /// faults rose in this call, or stands at its last value. After any answer the cursor may stand
    /// elsewhere, and later answers are as they would have been.
    pub fn find<S: Shelf>(
        &mut self,
        cursor: &mut Cursor,
        shelf: &mut S,
        set: Choice,
        t: i64,
        dir: Dir,
    ) -> Result<Starts, CursorError>
        // the starts
        ensures tracks { IfOk result (AreFor set) }
        ensures blocks { IfOk result (λ s. OnPlan S.files S.opened shelf.old cursor.old self.old
            (λ plan. AreOfBlocks plan s)) }
        ensures starts { IfOk result (λ s. OnPlan S.files S.opened shelf.old cursor.old self.old
            (λ plan. SeekStarts plan set dir t s)) }
        // where the cursor and the index stand, after any answer
        ensures stands { StayOn S.files S.opened shelf.old cursor.old self.old cursor.new self.new }
        ensures moves { cursor.new ≡ at_mark cursor.old (mark_of cursor.new) }
        // what is asked of the shelf
        ensures cause { ReadCause (S.faults shelf.old) (S.faults shelf.new) result }
        ensures kept { OnlyReads S.files S.opened S.reach shelf.old shelf.new }
        ensures reach { OnPlan S.files S.opened shelf.old cursor.old self.old
            (λ plan. SeekReads plan set dir t (S.reach shelf.old) (S.reach shelf.new)) }
    {
        let lead = self.near(cursor, shelf, set.video, t)?;
        let time = reference(lead, dir, t);
        let beside = self.near(cursor, shelf, set.audio, time)?;
        Ok(seek_starts(set, dir, t, lead, beside))
    }

    /// Where to read on for tracks that are added at the time `at`, in nanoseconds: as `find`
    /// answers. A video or audio track starts at its last sync point at or before `at`, else at its
    /// first, else at 0; a subtitle at the last such sync point of the lead, else at 0. The lead is
    /// the video track, or without one the audio track, that is selected afterwards.
    pub fn find_switch<S: Shelf>(
        &mut self,
        cursor: &mut Cursor,
        shelf: &mut S,
        added: Choice,
        lead: Option<TrackNo>,
        at: i64,
    ) -> Result<Starts, CursorError>
        // the starts
        ensures tracks { IfOk result (AreFor added) }
        ensures blocks { IfOk result (λ s. OnPlan S.files S.opened shelf.old cursor.old self.old
            (λ plan. AreOfBlocks plan s)) }
        ensures starts { IfOk result (λ s. OnPlan S.files S.opened shelf.old cursor.old self.old
            (λ plan. SwitchStarts plan added lead at s)) }
        // where the cursor and the index stand, after any answer
        ensures stands { StayOn S.files S.opened shelf.old cursor.old self.old cursor.new self.new }
        ensures moves { cursor.new ≡ at_mark cursor.old (mark_of cursor.new) }
        // what is asked of the shelf
        ensures cause { ReadCause (S.faults shelf.old) (S.faults shelf.new) result }
        ensures kept { OnlyReads S.files S.opened S.reach shelf.old shelf.new }
        ensures reach { OnPlan S.files S.opened shelf.old cursor.old self.old
            (λ plan. SwitchReads plan added lead at (S.reach shelf.old) (S.reach shelf.new)) }
    {
        let video = self.near(cursor, shelf, added.video, at)?;
        let audio = self.near(cursor, shelf, added.audio, at)?;
        let leading = self.near(cursor, shelf, needed_lead(added.sub, lead), at)?;
        Ok(switch_starts(added, at, video, audio, leading))
    }
}
