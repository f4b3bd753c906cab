ghost use Rattle.std.specs.Prelude.{◌≡◌, [], ◌∷◌, ◌++◌, ◌<◌, ◌≤◌, None, length, nat_eq, OnOk, OnErr, IfOk, IfSome};
ghost use Rattle.std.specs.Option.{option_copied};
ghost use Rattle.mc_tracks.specs.TrackList.{numbered, track_of_kind, is_of, is_known, HaveDistinctNumbers};

use crate::track::Track;
use indexmap::IndexMap;
use mc_packet::{Kind, NoMemory, TrackNo};
use std::alloc::Global;
use std::marker::Model;

/// The listed tracks of a film, in the order of their TrackEntries, each under a number of its own.
#[derive(Debug, Drop)]
pub struct TrackList {
    // Each track under its TrackNumber, in the order of the list; `push` alone adds one.
    by_number: IndexMap<TrackNo, Track>,
}

impl Model for TrackList {
    ghost use Rattle.std.specs.Prelude.{◌≡◌, List, map, nat_eq};
    ghost use Rattle.indexmap.specs.IndexMap.{keys, values, IsUnique};
    ghost use Rattle.mc_tracks.specs.declared.track.Track.{Track};

    ghost Value = { List Track };

    ghost view = { λ l. values l.by_number };

    ghost invariant = { λ l. (keys l.by_number ≡ map (λ (t : Track). t.no) (values l.by_number))
        × IsUnique nat_eq l.by_number };
}

impl TrackList {
    /// No tracks.
    pub fn new(alloc: Global) -> TrackList
        ensures { result ≡ [] }
    {
        TrackList {
            by_number: IndexMap::new(alloc),
        }
    }

    /// The tracks in order.
    pub fn as_slice(&self) -> &[Track]
        ensures value { result.now ≡ self.now }
        ensures distinct { HaveDistinctNumbers self.now }
    {
        self.by_number.values().as_slice()
    }

    /// How many tracks are listed.
    pub fn len(&self) -> usize
        ensures { result ≡ length self.now }
    {
        self.by_number.len()
    }

    /// The track of a number.
    pub fn get(&self, no: TrackNo) -> Option<&Track>
        ensures { option_copied result ≡ numbered no self.now }
    {
        self.by_number.get(&no)
    }

    /// Whether a number is a known track's: it is listed and its blocks are not encoded.
    pub fn is_known(&self, no: TrackNo) -> bool
        ensures { result ≡ is_known self.now no }
    {
        match self.get(no) {
            Some(track) => !track.encoded,
            None => false,
        }
    }

    /// Adds a track at the end. Its number is none of those that are listed, which `get` tells.
    ///
    /// `NoMemory` comes only where the room was not there, and leaves the list as it was.
    pub fn push(&mut self, track: Track) -> Result<(), NoMemory>
        requires { numbered track.no self.old ≡ None }
        ensures ok { OnOk result (self.new ≡ self.old ++ track ∷ []) }
        ensures err { OnErr result (self.new ≡ self.old) }
    {
        let number = track.no;
        self.by_number.insert(number, track)?;
        Ok(())
    }

    /// The `id`-th track of a kind in the order of the list, counted from 1, if there is one: its
    /// number in mpv's `vid`, `aid` and `sid`.
    pub fn of_kind(&self, kind: Kind, id: u32) -> Option<&Track>
        ensures { option_copied result ≡ track_of_kind kind id self.now }
    {
        let mut left = id;
        for track in self.as_slice() {
            if is_of(kind, track.kind) {
                match left {
                    0 => return None,
                    1 => return Some(track),
                    _ => left -= 1,
                }
            }
        }
        None
    }

    /// An equal list.
    pub fn copy(&self) -> Result<TrackList, NoMemory>
        ensures { IfOk result (λ l. l ≡ self.now) }
    {
        let mut copied = TrackList::new(*self.by_number.allocator());
        for track in self.as_slice() {
            copied.push(track.copy()?)?;
        }
        Ok(copied)
    }
}

// Whether two kinds are the same.
pub(crate) fn is_of(kind: Kind, other: Kind) -> bool
    ensures { result ≡ is_of kind other }
{
    kind == other
}
