ghost use Rattle.std.specs.Prelude.{◌≡◌};

use mc_outside::SinkError;
use mc_packet::Pos;

/// Why a film is not written, or not whole.
#[derive(Clone, Copy, Debug, PartialEq, Eq)]
pub enum DumpError {
    /// There is no packet.
    Empty,
    /// A packet's time is too low for a block, since a Cluster's time is not negative.
    TooLow {
        /// The place of the first such packet.
        pos: Pos,
    },
    /// The sink failed: its count of faults rose, or stands at its last value.
    Sink,
    /// Memory was wanting.
    NoMemory,
}

impl From<SinkError> for DumpError {
    ghost use Rattle.mc_dump.specs.Writes.{dump_error};

    ghost from_gives = { λ s e. e ≡ dump_error s };

    fn from(e: SinkError) -> DumpError {
        match e {
            SinkError::Failed => DumpError::Sink,
            SinkError::NoMemory => DumpError::NoMemory,
        }
    }
}
