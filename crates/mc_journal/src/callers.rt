// The numbers of a demuxer's callers, which stand in its records.
ghost use Rattle.std.specs.Prelude.{◌≡◌};
ghost use Rattle.mc_journal.specs.Callers.{by_of, reader as reader_number};

use crate::record::DemuxRecord;
use mc_packet::Kind;

/// The driver, which opens the film, and seeks and selects where no core does.
pub const DRIVER: u32 = 0;

/// The player's core, which seeks and selects for its clients.
pub const CORE: u32 = 1;

/// The demuxer itself, which reads the film on.
pub const DEMUXER: u32 = 5;

/// The reader of a kind's track: 2 for video, 3 for audio and 4 for subtitles.
pub fn reader(kind: Kind) -> u32
    ensures number { result ≡ reader_number kind }
{
    match kind {
        Kind::Video => 2,
        Kind::Audio => 3,
        Kind::Sub => 4,
    }
}

impl DemuxRecord {
    /// The number of the caller at whose call the record was made.
    pub fn by(&self) -> u32
        ensures by { result ≡ by_of self.now }
    {
        match self {
            DemuxRecord::Opened { by, .. }
            | DemuxRecord::Sought { by, .. }
            | DemuxRecord::Switched { by, .. }
            | DemuxRecord::Found { by, .. }
            | DemuxRecord::Fed { by, .. }
            | DemuxRecord::Failed { by, .. }
            | DemuxRecord::Starved { by }
            | DemuxRecord::Dropped { by, .. }
            | DemuxRecord::Joined { by }
            | DemuxRecord::Gave { by, .. }
            | DemuxRecord::Ended { by, .. }
            | DemuxRecord::Overfull { by, .. }
            | DemuxRecord::Faulted { by, .. }
            | DemuxRecord::Wanting { by, .. }
            | DemuxRecord::Shown { by, .. }
            | DemuxRecord::Refused { by, .. } => *by,
        }
    }
}
