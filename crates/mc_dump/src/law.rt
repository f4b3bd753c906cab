//! The law of dumped films, by which `write_film` says how its text is read.
ghost use Rattle.mc_dump.specs.Dumped.{DumpsReadBack};

use mc_film::film_packets;
use mc_written::written_films;

/// What is written for packets and tracks of a film is read back as them.
pub fn dumped_films()
    ensures { DumpsReadBack }
{
    written_films();
    film_packets()
}
