ghost use Rattle.std.specs.Prelude.{◌≡◌, ◌+◌, ◌/◌, ◌<◌, ◌≤◌, All, length, OnOk, OnErr};
ghost use Rattle.mc_walk.specs.declared.plan.Plan.{Plan};
ghost use Rattle.mc_index.specs.Scans.{IsEntry};
ghost use Rattle.mc_index.specs.Entries.{track_point, key_point, key_of, noted_by};

use crate::entry::{Entry, Point};
use crate::index::{Index, SPACING};
use mc_cursor::{BlockMark, HeadChunk};
use mc_packet::{Mark, NoMemory, TrackNo};
use std::alloc::Global;

// The sync point of a head's block element.
fn key_point(head: &HeadChunk, block: BlockMark) -> Point
    ensures { result ≡ key_point head.now block }
{
    Point {
        time: block.time,
        mark: Mark {
            pos: block.pos,
            level: head.to.level,
        },
    }
}

/// The sync point of a track with which a head ends, if it does.
pub(crate) fn track_point(track: TrackNo, head: &HeadChunk) -> Option<Point>
    ensures { result ≡ track_point track head.now head.now.block }
{
    match head.block {
        Some(block) => if block.track == track && block.key {
            Some(key_point(head, block))
        } else {
            None
        },
        None => None,
    }
}

// The sync point of a head and its track.
fn key_of(head: &HeadChunk) -> Option<BlockMark>
    ensures { result ≡ key_of head.now.block }
{
    match head.block {
        Some(block) => if block.key { Some(block) } else { None },
        None => None,
    }
}

impl Entry {
    /// Reads on by a head.
    fn go_on(&mut self, head: &HeadChunk)
        requires { (self.old.blocks ≤ self.old.mark.pos) × (self.old.mark.pos < head.now.to.pos) }
        ensures value { (self.new.blocks ≡ self.old.blocks + 1) × (self.new.mark ≡ head.now.to) }
        ensures tracks { self.new.tracks.items
            ≡ noted_by head.now (key_of head.now.block) self.old.tracks.items }
    {
        prove!(self.blocks < head.to.pos);
        self.blocks += 1;
        self.mark = head.to;
        if let Some(block) = key_of(head) {
            self.note(block.track, key_point(head, block));
        }
    }
}

// Keeps an entry of the place to which the film was scanned, before each 64th block element.
fn keep_entry(alloc: Global, entries: &mut Vec<Entry>, front: &Entry) -> Result<(), NoMemory>
    requires { length entries.old.items ≡ (front.now.blocks + 63) / 64 }
    ensures spaced { OnOk result (length entries.new.items ≡ (front.now.blocks + 64) / 64) }
    ensures err { OnErr result (entries.new.items ≡ entries.old.items) }
    ensures stands { (plan : Plan) → IsEntry plan front.now → All (IsEntry plan) entries.old.items
        → All (IsEntry plan) entries.new.items }
{
    if front.blocks % SPACING == 0 {
        let entry = front.copy(alloc)?;
        entries.push(entry)?;
    }
    Ok(())
}

impl Index {
    ghost use Rattle.mc_walk.specs.Parts.{chunk_at};
    ghost use Rattle.mc_cursor.specs.Heads.{head_chunk_of};
    ghost use Rattle.mc_index.specs.Scans.{IsIndexOf, IsPlan};

    /// Takes note of a head, where it is the one behind all that were noted. An entry is made before
    /// each 64th of them.
    pub(crate) fn note(&mut self, head: &HeadChunk) -> Result<(), NoMemory>
        requires { head.now.ending ≡ None → head.now.from.pos < head.now.to.pos }
        ensures stands { (plan : Plan) → IsPlan plan
            → head.now ≡ head_chunk_of (chunk_at plan head.now.from) → IsIndexOf plan self.old
            → IsIndexOf plan self.new }
        ensures noted { OnOk result (head.now.ending ≡ None → head.now.from ≡ self.old.front.mark
            → (self.new.front.mark ≡ head.now.to)
            × (self.new.front.blocks ≡ self.old.front.blocks + 1)) }
    {
        if head.ending.is_some() || head.from != self.front.mark {
            return Ok(());
        }
        keep_entry(self.alloc, &mut self.entries, &self.front)?;
        self.front.go_on(head);
        Ok(())
    }
}
