ghost use Rattle.std.specs.Prelude.{◌≡◌};
ghost use Rattle.mc_script.specs.Exits.{exit_text, refused_name, status_of, why_text};

use crate::acts::ScriptWhy;
use mc_journal::DemuxJournal;
use mc_tracks::Refused;
use std::fmt;

/// Why a file was not read.
#[derive(Clone, Copy, Debug, PartialEq, Eq)]
pub enum ShelfCause {
    /// The shelf's count of faults rose between the command's start and its end.
    Rose { before: u64, after: u64 },
    /// No file has the name that is the word of this number, counted from 0.
    NoFile { word: u32 },
}

/// How a command ended.
#[derive(Clone, Copy, Debug, PartialEq, Eq)]
pub enum Exit {
    Done,
    /// Memory was wanting.
    NoMemory,
    /// The words are not in the line's grammar.
    Usage,
    /// A file could not be read.
    Shelf(ShelfCause),
    /// The text could not be written.
    Sink,
    /// The film is refused for what stands before its Clusters.
    File(Refused),
    /// The script is outside its grammar: the first bad line, counted from 1, or 0 where the text as a
    /// whole is refused.
    Script { line: u32, why: ScriptWhy },
    /// The demuxer's journal has 16,000,000 records.
    JournalFull,
}

impl Exit {
    /// The status with which the program ends. It takes no memory.
    pub fn status(&self) -> u8
        ensures { result ≡ status_of self.now }
    {
        match self {
            Exit::Done => 0,
            Exit::NoMemory => 1,
            Exit::Usage => 2,
            Exit::Shelf(_) => 3,
            Exit::Sink => 4,
            Exit::File(_) => 5,
            Exit::Script { .. } => 6,
            Exit::JournalFull => 7,
        }
    }
}

/// How a command ended, and what happened in its demuxer.
#[derive(Drop)]
pub struct RunReport {
    /// Whether it was carried out, or the cause that it was not.
    pub exit: Exit,
    /// The demuxer's records, the oldest first; none where the steps were not reached.
    pub hd: DemuxJournal,
}

const USAGE: &str =
    "mcplay: usage: mcplay run [--forward=N] [--back=N] [--readahead=N] FILE [SCRIPT]";

fn why_name(why: ScriptWhy) -> &'static str
    ensures { result.now ≡ why_text why }
{
    match why {
        ScriptWhy::Size => "Size",
        ScriptWhy::Utf8 => "Utf8",
        ScriptWhy::Word => "Word",
        ScriptWhy::Number => "Number",
    }
}

fn refused_name(refused: Refused) -> &'static str
    ensures { result.now ≡ refused_name refused }
{
    match refused {
        Refused::NotEbml => "NotEbml",
        Refused::Version => "Version",
        Refused::DocType => "DocType",
        Refused::NoSegment => "NoSegment",
        Refused::NoInfo => "NoInfo",
        Refused::NoTracks => "NoTracks",
        Refused::Broken(_) => "Broken",
        Refused::NoNumber => "NoNumber",
        Refused::TwiceNumber => "TwiceNumber",
        Refused::ScaleZero => "ScaleZero",
        Refused::TooMany => "TooMany",
    }
}

/// The line that the program prints on standard error, without its end; nothing for `Done`.
impl fmt::Display for Exit {
    ghost use Rattle.std.specs.Prelude.{Some};

    ghost output = { λ e. Some (exit_text e) };

    fn fmt<W: fmt::Write>(&self, f: &mut fmt::Formatter<W>) -> fmt::Result {
        match *self {
            Exit::Done => Ok(()),
            Exit::NoMemory => f.write_str("mcplay: out of memory"),
            Exit::Usage => f.write_str(USAGE),
            Exit::Shelf(_) => f.write_str("mcplay: cannot read"),
            Exit::Sink => f.write_str("mcplay: cannot write"),
            Exit::File(Refused::Broken(at)) => write!(f, "mcplay: file refused: Broken {at}"),
            Exit::File(refused) => {
                let name = refused_name(refused);
                write!(f, "mcplay: file refused: {name}")
            }
            Exit::Script { line, why } => {
                let name = why_name(why);
                write!(f, "mcplay: script line {line}: {name}")
            }
            Exit::JournalFull => f.write_str("mcplay: journal full"),
        }
    }
}
