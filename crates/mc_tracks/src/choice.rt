ghost use Rattle.std.specs.Prelude.{◌≡◌, find};
ghost use Rattle.std.specs.Option.{option_copied};
ghost use Rattle.mc_tracks.specs.TrackList.{is_default, is_playable, preferred, number_of, default_choice_of};

use crate::list::{TrackList, is_of};
use crate::track::Track;
use mc_packet::{Choice, Kind, TrackNo};

/// What is played at first: of video and of audio the first track that is default and not encoded,
/// else the first that is not encoded; and no subtitle.
#[tactic(auto, unfolding(crate::specs::TrackList::default_choice_of))]
pub fn default_choice(list: &TrackList) -> Choice
    ensures { result ≡ default_choice_of list.now }
{
    let tracks = list.as_slice();
    Choice {
        video: preferred(tracks, Kind::Video),
        audio: preferred(tracks, Kind::Audio),
        sub: None,
    }
}

fn preferred(tracks: &[Track], kind: Kind) -> Option<TrackNo>
    ensures { result ≡ number_of (preferred kind tracks.now) }
{
    match first_default(tracks, kind) {
        Some(track) => Some(track.no),
        None => first_readable(tracks, kind).map(|track| track.no),
    }
}

// The first track of a kind that is default and not encoded.
fn first_default(tracks: &[Track], kind: Kind) -> Option<&Track>
    ensures { option_copied result ≡ find (is_default kind) tracks.now }
{
    tracks.iter().find(|track| is_of(kind, track.kind) && !track.encoded && track.default)
}

// The first track of a kind that is not encoded.
fn first_readable(tracks: &[Track], kind: Kind) -> Option<&Track>
    ensures { option_copied result ≡ find (is_playable kind) tracks.now }
{
    tracks
        .iter()
        .find(|track| is_of(kind, track.kind) && !track.encoded)
}
