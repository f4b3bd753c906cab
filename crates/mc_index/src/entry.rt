ghost use Rattle.std.specs.Prelude.{◌≡◌, IfOk, map};
ghost use Rattle.mc_index.specs.Entries.{noted};

use mc_packet::{Mark, NoMemory, TrackNo};
use std::alloc::Global;

/// A sync point, in short.
#[derive(Clone, Copy, Debug, PartialEq, Eq)]
pub(crate) struct Point {
    /// Its time in nanoseconds.
    pub time: i64,
    /// The mark at its block.
    pub mark: Mark,
}

/// The last sync point of a track before some mark.
#[derive(Clone, Copy, Debug, PartialEq, Eq)]
pub(crate) struct LastSync {
    /// The track's number.
    pub track: TrackNo,
    /// `None` before its first sync point.
    pub point: Option<Point>,
}

/// A mark up to which a film was read, and what stands before it.
#[derive(Debug, Drop)]
pub(crate) struct Entry {
    /// How many block elements stand before the mark.
    pub blocks: u64,
    /// Where the film was read up to.
    pub mark: Mark,
    /// The last sync point before the mark of each video and audio track whose blocks can be read.
    pub tracks: Vec<LastSync>,
}

impl Entry {
    pub(crate) fn copy(&self, alloc: Global) -> Result<Entry, NoMemory>
        ensures { IfOk result (λ e. (e.blocks ≡ self.now.blocks) × (e.mark ≡ self.now.mark)
            × (e.tracks.items ≡ self.now.tracks.items)) }
    {
        Ok(Entry {
            blocks: self.blocks,
            mark: self.mark,
            tracks: Vec::from_slice(alloc, self.tracks.as_slice())?,
        })
    }

    /// Takes note of a sync point of a track.
    pub(crate) fn note(&mut self, track: TrackNo, point: Point)
        ensures value { self.new.tracks.items ≡ map (noted track point) self.old.tracks.items }
        ensures rest { (self.new.blocks ≡ self.old.blocks) × (self.new.mark ≡ self.old.mark) }
    {
        note_in(self.tracks.as_mut_slice(), track, point);
    }
}

fn note_in(tracks: &mut [LastSync], track: TrackNo, point: Point)
    ensures { tracks.new ≡ map (noted track point) tracks.old }
{
    for last in tracks.iter_mut() {
        if track == last.track {
            last.point = Some(point);
        }
    }
}
