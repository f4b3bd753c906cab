ghost use Rattle.std.specs.Prelude.{◌≡◌, ◌≤◌, ℕ, List, length, Some, None, IfOk, IfSome, Contains};
ghost use Rattle.std.specs.Prelude.{◌==◌, find};
ghost use Rattle.std.specs.Option.{option_copied};
ghost use Rattle.mc_index.specs.declared.entry.LastSync.{LastSync};
ghost use Rattle.mc_index.specs.declared.entry.Entry.{Entry};
ghost use Rattle.mc_cursor.specs.Causes.{ReadCause, OnlyReads};
ghost use Rattle.mc_index.specs.Entries.{is_upto};
ghost use Rattle.mc_index.specs.Searches.{found_by, since_in};

use crate::entry::{Entry, LastSync, Point};
use crate::index::{Index, opening_mark};
use crate::scan::track_point;
use mc_cursor::{Cursor, CursorError, HeadChunk};
use mc_outside::Shelf;
use mc_packet::{Mark, TrackNo};

/// The sync points of a track next to a time: the last one at it or before it, and the first one
/// behind it.
#[derive(Clone, Copy, Debug, PartialEq, Eq)]
pub(crate) struct Around {
    /// The last one at the time or before it.
    pub before: Option<Point>,
    /// The first one behind it.
    pub after: Option<Point>,
}

/// A mark from which to read on, and the track's last sync point before it.
#[derive(Clone, Copy, Debug, PartialEq, Eq)]
pub(crate) struct Since {
    /// Where the look-up reads on.
    pub mark: Mark,
    /// The last sync point before it.
    pub before: Option<Point>,
}

/// What reading on by a head comes to.
#[derive(Clone, Copy, Debug, PartialEq, Eq)]
pub(crate) enum Found {
    /// No sync point of the track.
    Other,
    /// One at the time or before it.
    Upto(Point),
    /// One behind it.
    Past(Point),
    /// The film's ending.
    End,
}

fn find_track(tracks: &[LastSync], track: TrackNo) -> Option<&LastSync>
    ensures { option_copied result ≡ find (λ (l : LastSync). l.track == track) tracks.now }
{
    tracks.iter().find(|last| last.track == track)
}

fn is_upto(point: Option<Point>, t: i64) -> bool
    ensures { result ≡ is_upto t point }
{
    match point {
        Some(point) => point.time <= t,
        None => true,
    }
}

// What a head tells of a track and a time.
fn found_by(head: &HeadChunk, track: TrackNo, t: i64) -> Found
    ensures { result ≡ found_by track t head.now }
{
    if head.ending.is_some() {
        return Found::End;
    }
    match track_point(track, head) {
        Some(point) => if point.time <= t {
            Found::Upto(point)
        } else {
            Found::Past(point)
        },
        None => Found::Other,
    }
}

impl Entry {
    // Reading on from here finds the sync points next to a time, where none of the track behind that
    // time is known here.
    fn since(&self, track: TrackNo, t: i64) -> Option<Since>
        ensures { result ≡ since_in track t self.now }
    {
        match find_track(self.tracks.as_slice(), track) {
            Some(last) => if is_upto(last.point, t) {
                Some(Since {
                    mark: self.mark,
                    before: last.point,
                })
            } else {
                None
            },
            None => None,
        }
    }
}

// Reading on from the last of the entries that the search passes.
fn since_entry(entries: &[Entry], track: TrackNo, t: i64) -> Option<Since>
    ensures { IfSome result (λ s. (e : Entry) × Contains entries.now e
        × (since_in track t e ≡ Some s)) }
{
    let passed = passed(entries, track, t);
    if passed == 0 {
        return None;
    }
    entries[passed - 1].since(track, t)
}

// How many of the entries the search passes: those up to which no later sync point is known, where
// the sync points' times rise.
fn passed(entries: &[Entry], track: TrackNo, t: i64) -> usize
    ensures { result ≤ length entries.now }
{
    let mut low = 0;
    let mut high = entries.len();
    while low < high {
        let middle = low + (high - low) / 2;
        if entries[middle].since(track, t).is_some() {
            low = middle + 1;
        } else {
            high = middle;
        }
    }
    low
}

impl Index {
    ghost use Rattle.mc_walk.specs.declared.plan.Plan.{Plan};
    ghost use Rattle.mc_walk.specs.Parts.{part_at, chunk_at};
    ghost use Rattle.mc_cursor.specs.Heads.{head_chunk_of};
    ghost use Rattle.mc_cursor.specs.Standing.{mark_of, at_mark, ReadsPart};
    ghost use Rattle.mc_index.specs.Scans.{IsIndexOf, OnPlan, StayOn};
    ghost use Rattle.mc_index.specs.Answers.{IsAround};
    ghost use Rattle.mc_index.specs.Searches.{IsSince, IsOn, GoesOn, NearReads};

    // The nearest place from which to look for the sync points next to a time.
    fn nearest(&self, track: TrackNo, t: i64) -> Since
        ensures { (plan : Plan) → IsIndexOf plan self.now → IsSince plan track t result }
    {
        if let Some(since) = self.front.since(track, t) {
            return since;
        }
        match since_entry(self.entries.as_slice(), track, t) {
            Some(since) => since,
            None => Since {
                mark: opening_mark(),
                before: None,
            },
        }
    }

    // Reads on by a head, of which the scan takes note.
    fn read_on<S: Shelf>(
        &mut self,
        cursor: &mut Cursor,
        shelf: &mut S,
        track: TrackNo,
        t: i64,
    ) -> Result<Found, CursorError>
        // what the head tells, and where the cursor and the index stand behind it
        ensures found { IfOk result (λ f. OnPlan S.files S.opened shelf.old cursor.old self.old
            (λ plan. let k = head_chunk_of (chunk_at plan (mark_of cursor.old)) in
            (f ≡ found_by track t k) × (mark_of cursor.new ≡ k.to))) }
        ensures stands { StayOn S.files S.opened shelf.old cursor.old self.old cursor.new self.new }
        ensures moves { cursor.new ≡ at_mark cursor.old (mark_of cursor.new) }
        ensures onward { IfOk result (λ f. GoesOn f (mark_of cursor.old) (mark_of cursor.new)) }
        ensures follows { IfOk result (λ f. IsOn f → mark_of cursor.old ≡ self.old.front.mark
            → mark_of cursor.new ≡ self.new.front.mark) }
        // what is asked of the shelf
        ensures cause { ReadCause (S.faults shelf.old) (S.faults shelf.new) result }
        ensures kept { OnlyReads S.files S.opened S.reach shelf.old shelf.new }
        ensures reach { OnPlan S.files S.opened shelf.old cursor.old self.old
            (λ plan. ReadsPart (part_at plan (mark_of cursor.old))
            (S.reach shelf.old) (S.reach shelf.new)) }
    {
        let head = cursor.next_head(shelf)?;
        self.note(&head)?;
        Ok(found_by(&head, track, t))
    }

    /// The sync points of a track next to a time. It reads on from the nearest place that is known, and
    /// no further than to one behind the time, or to the film's ending.
    pub(crate) fn around<S: Shelf>(
        &mut self,
        cursor: &mut Cursor,
        shelf: &mut S,
        track: TrackNo,
        t: i64,
    ) -> Result<Around, CursorError>
        ensures around { IfOk result (λ a. OnPlan S.files S.opened shelf.old cursor.old self.old
            (λ plan. IsAround plan track t a)) }
        ensures stands { StayOn S.files S.opened shelf.old cursor.old self.old cursor.new self.new }
        ensures moves { cursor.new ≡ at_mark cursor.old (mark_of cursor.new) }
        ensures cause { ReadCause (S.faults shelf.old) (S.faults shelf.new) result }
        ensures kept { OnlyReads S.files S.opened S.reach shelf.old shelf.new }
        ensures reach { OnPlan S.files S.opened shelf.old cursor.old self.old
            (λ plan. NearReads plan (Some track) t (S.reach shelf.old) (S.reach shelf.new)) }
    {
        let since = self.nearest(track, t);
        let mut before = since.before;
        cursor.goto(since.mark);
        loop {
            match self.read_on(cursor, shelf, track, t)? {
                Found::Other => {}
                Found::Upto(point) => before = Some(point),
                Found::Past(point) => {
                    return Ok(Around {
                        before,
                        after: Some(point),
                    });
                }
                Found::End => {
                    return Ok(Around {
                        before,
                        after: None,
                    });
                }
            }
        }
    }
}
