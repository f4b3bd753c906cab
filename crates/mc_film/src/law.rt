//! A law of whole films, for a crate that writes a film and proves how it is read.
ghost use Rattle.mc_film.specs.Film.{FilmsAreAgain, FilmsHaveShape};

use mc_walk::{opened_films, walked_packets};

/// Each packet of any film is of a known track and can be written again as a block of its own; the
/// film's scale is at least 1, and its tracks are a list of at most 64 under numbers of their own.
pub fn film_packets()
    ensures again { FilmsAreAgain }
    ensures shape { FilmsHaveShape }
{
    walked_packets();
    opened_films()
}
