//! The law of generated films.
ghost use Rattle.mc_gen.specs.Generated.{GeneratedReadBack};

use mc_written::written_films;

/// A generated film is read back as its two tracks and the packets of its pictures, in order, and it
/// ends as it should.
pub fn generated_films()
    ensures { GeneratedReadBack }
{
    written_films()
}
