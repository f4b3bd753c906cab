//! What a reader is handed is the film's: shown by the public clauses of the demuxer alone.
ghost use Rattle.std.specs.Prelude.{IfOk, reverse};
ghost use Rattle.mc_journal.specs.Films.{Film};
ghost use Rattle.mc_calls.specs.Film.{StandsFor};
ghost use Rattle.turn_bench.specs.Handed.{IsOfFilm};

use mc_demux::{Demux, DemuxError, Reading, shown_readers};
use mc_packet::TrackNo;

/// A read, as `Demux::read` has it. Of whatever film the demuxer stands for, a packet that it gives is
/// the film's own, its octets too.
pub fn read_of_film(demux: &mut Demux, by: u32, track: TrackNo) -> Result<Reading, DemuxError>
    ensures { (film : Film) → StandsFor film demux.old
        → IfOk result (IsOfFilm film (reverse demux.old.journal) track) }
{
    shown_readers();
    demux.read(by, track)
}
