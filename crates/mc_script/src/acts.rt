use mc_packet::{Dir, Kind};
use sqlite_items::Items;
use std::alloc::AllocError;

/// Numbers of tracks.
pub type Numbers = Items<u64>;

/// What a line of a script asks for.
#[derive(Debug, Drop)]
pub enum Act {
    /// `seek SECONDS [forward]`: to a time in nanoseconds.
    Seek { t: i64, dir: Dir },
    /// `switch [NUMBER...] [at SECONDS]`: to these tracks, at a time in nanoseconds where one is
    /// given.
    Switch { set: Numbers, at: Option<i64> },
    /// `show`: looks at the cache.
    Show,
    /// `demux [COUNT]`: so many jobs of the demuxer.
    Demux { count: u32 },
    /// `demux take`: takes a job.
    DemuxTake,
    /// `demux give`: brings the outcome of the job that was taken.
    DemuxGive,
    /// `read KIND [COUNT]`: reads so many packets of the selected track of a kind.
    Read { kind: Kind, count: u32 },
    /// `drain`: reads all selected tracks to their ends.
    Drain,
}

/// The lines of a script that ask for something, in order: the number of the line, counted from 1
/// over all lines, and what it asks for.
pub type Script = Items<(u32, Act)>;

/// Why a script is refused.
#[derive(Clone, Copy, Debug, PartialEq, Eq)]
pub enum ScriptWhy {
    /// It has more than 16,777,216 octets.
    Size,
    /// It is not UTF-8.
    Utf8,
    /// A line has no form, or may not stand in its place.
    Word,
    /// A number or a time in a line is wrong.
    Number,
}

/// Why a text gives no script.
#[derive(Clone, Copy, Debug, PartialEq, Eq)]
pub enum ScriptError {
    /// The first line outside the grammar, counted from 1; 0 where the text as a whole is refused.
    Refused { line: u32, why: ScriptWhy },
    /// There was no memory for the script.
    NoMemory,
}

impl From<AllocError> for ScriptError {
    ghost use Rattle.std.specs.Prelude.{◌≡◌};
    ghost use Rattle.mc_script.specs.declared.acts.ScriptError.TheVariants.{NoMemory};

    ghost from_gives = { λ _ e. e ≡ NoMemory };

    fn from(_error: AllocError) -> ScriptError {
        ScriptError::NoMemory
    }
}
