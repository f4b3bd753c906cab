//! What the calls of a demuxer answer.
use mc_packet::{Ending, NoMemory, Packet, Pos, Why};

/// Whether the outcome of a job was taken.
#[derive(Clone, Copy, Debug, PartialEq, Eq)]
pub enum Taken {
    /// It was taken, and the next job bears the next number.
    Taken,
    /// It was brought under another number than the present one, and changed nothing: a seek, a
    /// selection or another outcome came between.
    Stale {
        /// The number under which it was brought.
        asked: u64,
        /// The present number.
        now: u64,
    },
}

/// Whether a selection changed anything.
#[derive(Clone, Copy, Debug, PartialEq, Eq)]
pub enum Selected {
    /// These tracks were selected already; nothing was recorded.
    Same,
    /// Others are selected from now on.
    Changed,
}

/// What a reader is told.
#[derive(Debug, Drop)]
pub enum Reading {
    /// The next packet.
    Gave(Packet),
    /// The packet is not read yet.
    NotYet,
    /// There is none any more, and this is how the film ends.
    End(Ending),
    /// Nothing more is read for now, since enough stands ahead of the readers.
    Overfull {
        /// The octets ahead of the readers in the current range; each packet counts for 64 more
        /// than its payload has.
        forward: u64,
        /// The limit on them.
        max: u64,
    },
    /// A read of the file failed.
    Fault {
        /// The shelf's count of faults before the read.
        before: u64,
        /// Its count after the read.
        after: u64,
    },
    /// Memory was wanting to read on.
    Wanting,
    /// The track is not selected.
    Unselected,
}

/// What a read would answer.
#[derive(Clone, Copy, Debug, PartialEq, Eq)]
pub enum Peek {
    /// The packet at this place.
    Packet(Pos),
    /// An end, a fault or want of memory.
    Finish,
    /// Something else.
    Wait,
}

/// Why a call of a demuxer was not carried out.
#[derive(Clone, Copy, Debug, PartialEq, Eq)]
pub enum DemuxError {
    /// What was asked cannot be.
    Refused(Why),
    /// The journal has 16,000,000 records.
    JournalFull,
    /// Memory was wanting.
    NoMemory,
}

impl From<NoMemory> for DemuxError {
    ghost use Rattle.std.specs.Prelude.{◌≡◌};
    ghost use Rattle.mc_calls.specs.declared.answer.DemuxError.TheVariants.{NoMemory};

    ghost from_gives = { λ _ e. e ≡ NoMemory };

    fn from(_error: NoMemory) -> DemuxError {
        DemuxError::NoMemory
    }
}
