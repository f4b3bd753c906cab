ghost use Rattle.std.specs.Prelude.{◌≡◌, ◌+◌, ◌≤◌, ◌/◌, ◌||◌, length, map, IfOk};
ghost use Rattle.mc_packet.specs.declared.choice.Kind.TheVariants.{Video, Audio};
ghost use Rattle.mc_walk.specs.Parts.{opening_mark};
ghost use Rattle.mc_index.specs.Fronts.{is_readable, leads_of};
ghost use Rattle.mc_index.specs.Entries.{unread};

use crate::entry::{Entry, LastSync};
use mc_packet::{Kind, Level, Mark, NoMemory};
use mc_tracks::{Track, TrackList};
use std::alloc::Global;

/// How many block elements there are from one entry to the next.
pub(crate) const SPACING: u64 = 64;

/// What is known of a film's sync points, as far as it was read: an entry for each 64th block
/// element.
#[derive(Drop)]
pub struct Index {
    // Where an entry's list of tracks is made.
    pub(crate) alloc: Global,
    // The place to which the film was scanned: each head behind it that a look-up reads moves it on.
    pub(crate) front: Entry,
    // The front as it was before each 64th block element; `note` alone adds to them.
    pub(crate) entries: Vec<Entry>,
    ghost spaced: { length entries.items ≡ (front.blocks + 63) / 64 },
    ghost onward: { front.blocks ≤ front.mark.pos },
}

impl Index {
    ghost use Rattle.mc_walk.specs.declared.plan.Plan.{Plan};
    ghost use Rattle.mc_index.specs.Scans.{IsIndexOf};

    /// An index of any film with this list of tracks, of which nothing is read yet.
    pub fn new(alloc: Global, list: &TrackList) -> Result<Index, NoMemory>
        ensures stands { IfOk result (λ x. (plan : Plan) → plan.tracks ≡ list.now
            → IsIndexOf plan x) }
        ensures empty { IfOk result (λ x. x.front.blocks ≡ 0) }
    {
        Ok(Index {
            alloc,
            front: opening_entry(alloc, list)?,
            entries: Vec::new(alloc),
        })
    }

    /// How many entries it keeps: one for each 64 block elements that were scanned.
    pub fn entries(&self) -> usize
        ensures value { result ≡ length self.now.entries.items }
        ensures few { result ≡ (self.now.front.blocks + 63) / 64 }
    {
        self.entries.len()
    }

    /// How many block elements of the film were scanned so far.
    pub fn blocks(&self) -> u64
        ensures { result ≡ self.now.front.blocks }
    {
        self.front.blocks
    }
}

/// The mark of the Segment's first child.
pub(crate) fn opening_mark() -> Mark
    ensures { result ≡ opening_mark }
{
    Mark {
        pos: 0,
        level: Level::Segment,
    }
}

fn is_readable(kind: Kind, track: &Track) -> bool
    ensures { result ≡ is_readable kind track.now }
{
    track.kind == kind && !track.encoded
}

fn is_lead(track: &Track) -> bool
    ensures { result ≡ (is_readable Video track.now || is_readable Audio track.now) }
{
    is_readable(Kind::Video, track) || is_readable(Kind::Audio, track)
}

// The video and audio tracks whose blocks can be read, before any of their sync points.
fn lead_tracks(alloc: Global, tracks: &[Track]) -> Result<Vec<LastSync>, NoMemory>
    ensures { IfOk result (λ v. v.items ≡ map unread (leads_of tracks.now)) }
{
    let mut leads = Vec::new(alloc);
    for track in tracks {
        if is_lead(track) {
            leads.push(LastSync {
                track: track.no,
                point: None,
            })?;
        }
    }
    Ok(leads)
}

fn opening_entry(alloc: Global, list: &TrackList) -> Result<Entry, NoMemory>
    ensures { IfOk result (λ e. (e.blocks ≡ 0) × (e.mark ≡ opening_mark)
        × (e.tracks.items ≡ map unread (leads_of list.now))) }
{
    Ok(Entry {
        blocks: 0,
        mark: opening_mark(),
        tracks: lead_tracks(alloc, list.as_slice())?,
    })
}
