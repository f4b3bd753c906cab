ghost use Rattle.std.specs.Prelude.{◌≡◌};
ghost use Rattle.mc_lines.specs.Lines.{halt_of as halt_lem, halted as halted_lem, settled as settled_lem};

use mc_demux::DemuxError;

/// Why a script ends before its last line.
#[derive(Clone, Copy, Debug, PartialEq, Eq)]
pub enum Halt {
    /// The journal has 16,000,000 records.
    JournalFull,
    /// Memory was wanting.
    NoMemory,
}

/// A refusal ends a line and not the script.
pub(crate) fn settled<T: Drop>(answer: Result<T, DemuxError>) -> Result<(), Halt>
    ensures { result ≡ settled_lem answer }
{
    match answer {
        Ok(_) => Ok(()),
        Err(DemuxError::Refused(_)) => Ok(()),
        Err(DemuxError::JournalFull) => Err(Halt::JournalFull),
        Err(DemuxError::NoMemory) => Err(Halt::NoMemory),
    }
}

/// Of a call that refuses nothing, without what it gives.
pub(crate) fn halted<T: Drop>(answer: Result<T, DemuxError>) -> Result<(), Halt>
    ensures { result ≡ halted_lem answer }
{
    match answer {
        Ok(_) => Ok(()),
        Err(error) => Err(halt_of(error)),
    }
}

/// Of a call that refuses nothing.
pub(crate) fn halt_of(error: DemuxError) -> Halt
    ensures { result ≡ halt_lem error }
{
    match error {
        DemuxError::JournalFull => Halt::JournalFull,
        _ => Halt::NoMemory,
    }
}
