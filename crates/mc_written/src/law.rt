//! The law of written films, for a crate that writes one and says how it is read.
ghost use Rattle.mc_written.specs.Films.{AnyTracksReadBack, FilmsReadBack};

use mc_block::plain_blocks;
use mc_ebml::written_parts;
use mc_tracks::new_numbers;

/// The text of a film is read back as its scale, its tracks and the packets of its Clusters, in
/// order and at their places, and it ends as it should; also where its Tracks has another form that
/// is read as the same tracks.
pub fn written_films()
    ensures films { FilmsReadBack }
    ensures any_tracks { AnyTracksReadBack }
{
    written_parts();
    plain_blocks();
    new_numbers()
}
