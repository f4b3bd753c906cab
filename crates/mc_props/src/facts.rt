ghost use Rattle.std.specs.Prelude.{◌≡◌, IfOk};
ghost use Rattle.mc_props.specs.First.{empty_view, first_facts};

use mc_packet::{CacheView, Choice, RangeViews};
use mc_tracks::TrackList;
use mc_value::{NoMemory, Text};
use std::alloc::Global;

/// What a player knows of itself: all that a property may show.
#[derive(Debug, Drop)]
pub struct Facts {
    /// The file that is played, as it was named; none before the first is loaded.
    pub path: Option<Text>,
    /// Its tracks, in the order of their entries (RFC 9559 section 5.1.4).
    pub tracks: TrackList,
    /// The selected tracks, at most one of a kind.
    pub set: Choice,
    /// Whether the player is paused.
    pub pause: bool,
    /// Whether its sound is off.
    pub mute: bool,
    /// What the demuxer's cache last told of itself.
    pub cache: CacheView,
    /// Whether a file is loaded.
    pub loaded: bool,
}

impl Facts {
    /// What a player knows before its first file: no path, no tracks and none selected, neither
    /// paused nor muted, and a cache that holds nothing.
    pub fn new(alloc: Global) -> Facts
        ensures { result ≡ first_facts }
    {
        Facts {
            path: None,
            tracks: TrackList::new(alloc),
            set: Choice::NONE,
            pause: false,
            mute: false,
            cache: empty_view(alloc),
            loaded: false,
        }
    }

    /// Equal facts.
    pub fn copy(&self, alloc: Global) -> Result<Facts, NoMemory>
        ensures { IfOk result (λ f. f ≡ self.now) }
    {
        Ok(Facts {
            path: copy_path(&self.path)?,
            tracks: self.tracks.copy()?,
            set: self.set,
            pause: self.pause,
            mute: self.mute,
            cache: self.cache.copy(alloc)?,
            loaded: self.loaded,
        })
    }
}

fn empty_view(alloc: Global) -> CacheView
    ensures { result ≡ empty_view }
{
    CacheView {
        ranges: RangeViews::new(alloc),
        forward: 0,
        back: 0,
        bof: false,
        ending: None,
        time: None,
        playing: false,
        ended: false,
    }
}

fn copy_path(path: &Option<Text>) -> Result<Option<Text>, NoMemory>
    ensures { IfOk result (λ p. p ≡ path.now) }
{
    match path {
        None => Ok(None),
        Some(path) => Ok(Some(path.copy()?)),
    }
}
