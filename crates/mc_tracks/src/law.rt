//! Laws about lists of tracks, for the crates above.
ghost use Rattle.mc_tracks.specs.Header.{NumbersFit, TracksAreListed};
ghost use Rattle.mc_tracks.specs.Selection.{NumbersSelect};
ghost use Rattle.mc_tracks.specs.TrackList.{NumbersAreNew};

use mc_ebml::fitting_integers;

/// The tracks of any Tracks are a list of at most 64 under numbers of their own, with short texts.
pub fn listed_tracks()
    ensures { TracksAreListed }
{}

/// Of octets the numbers of those tracks fit 64 bits.
pub fn fitting_numbers()
    ensures { NumbersFit }
{
    fitting_integers();
}

/// In a list of tracks under numbers of their own, that of each is none of those before it.
pub fn new_numbers()
    ensures { NumbersAreNew }
{}

/// A choice of tracks that a list knows, each under its own kind, is what a selection of its
/// numbers comes to, and that is not refused.
pub fn selected_numbers()
    ensures { NumbersSelect }
{}
