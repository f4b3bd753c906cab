use mc_core::CoreError;
use mc_demux::{DemuxError, Job, Reading, Selected, Taken};
use mc_dispatch::{Call, ClientNo};
use mc_jobs::Brought;
use mc_journal::Sought;
use mc_packet::{CacheView, Dir, Kind, NoMemory, TrackNo, Why};
use mc_player::{Answer, Order, Outcome};
use mc_value::Text;
use sqlite_items::Items;

/// Numbers of tracks.
pub type Numbers = Items<TrackNo>;

/// One step of a world. The records that it adds bear the caller's number `by`, but those of a job's
/// outcome bear the demuxer's own.
#[derive(Debug, Drop)]
pub enum Step {
    /// The readers go to a time.
    Seek {
        by: u32,
        /// In nanoseconds.
        t: i64,
        /// Whether to a keyframe that is not behind that time, or not before it.
        dir: Dir,
    },
    /// Other tracks are selected.
    Switch {
        by: u32,
        /// The tracks, at most one of each kind.
        set: Numbers,
        /// The time from which an added track is read, in nanoseconds.
        at: i64,
    },
    /// What is cached is told, and stands in the demuxer's journal.
    Show {
        by: u32,
    },
    /// The next job of the demuxer is put out.
    Take {
        by: u32,
    },
    /// The job that is out came to this.
    Bring {
        by: u32,
        what: Brought,
    },
    /// The reader of the selected track of a kind asks for a packet.
    Read {
        by: u32,
        kind: Kind,
    },
    /// The core is shown the demuxer's cache.
    Learn {
        by: u32,
    },
    /// The core says what the demuxer is to do next, or works a request.
    Work {
        by: u32,
    },
    /// The order that is out is carried to the demuxer.
    Carry {
        by: u32,
    },
    /// The core is told what the order came to.
    Done {
        by: u32,
    },
    /// A client comes.
    Create {
        by: u32,
        name: Text,
        /// How many events and places for replies its ring holds.
        size: u32,
    },
    /// A client goes.
    Destroy {
        by: u32,
        client: ClientNo,
    },
    /// A client makes a call.
    Call {
        by: u32,
        client: ClientNo,
        call: Call,
    },
}

/// What a step answers: that of the call it made.
#[derive(Debug, Drop)]
pub enum Reply {
    Seek(Sought),
    Switch(Selected),
    Show(CacheView),
    Take(Job),
    Bring(Taken),
    Read(Reading),
    Learn,
    Work(Order),
    Carry(Outcome),
    Done,
    Create(ClientNo),
    Destroy,
    Call(Answer),
}

/// Why a step was refused. Nothing changed then, but that a demuxer's refusal stands in its journal.
#[derive(Clone, Copy, Debug, PartialEq, Eq)]
pub enum WorldError {
    /// The journal of which the step asks has 16,000,000 records.
    JournalFull,
    /// Memory was wanting.
    NoMemory,
    /// The demuxer refused a seek or a selection.
    Demux(Why),
    /// No living client has the number.
    UnknownClient,
    /// A living client has the name.
    NameTaken,
    /// There are 64 clients.
    TooMany,
    /// A ring has room for 1 to 100,000 events.
    BadSize,
}

impl From<DemuxError> for WorldError {
    ghost use Rattle.std.specs.Prelude.{◌≡◌};
    ghost use Rattle.mc_world.specs.Errors.{demux_error};

    ghost from_gives = { λ x e. e ≡ demux_error x };

    fn from(error: DemuxError) -> WorldError {
        match error {
            DemuxError::Refused(why) => WorldError::Demux(why),
            DemuxError::JournalFull => WorldError::JournalFull,
            DemuxError::NoMemory => WorldError::NoMemory,
        }
    }
}

impl From<CoreError> for WorldError {
    ghost use Rattle.std.specs.Prelude.{◌≡◌};
    ghost use Rattle.mc_world.specs.Errors.{core_error};

    ghost from_gives = { λ x e. e ≡ core_error x };

    fn from(error: CoreError) -> WorldError {
        match error {
            CoreError::UnknownClient => WorldError::UnknownClient,
            CoreError::NameTaken => WorldError::NameTaken,
            CoreError::TooMany => WorldError::TooMany,
            CoreError::BadSize => WorldError::BadSize,
            CoreError::JournalFull => WorldError::JournalFull,
            CoreError::NoMemory => WorldError::NoMemory,
        }
    }
}

impl From<NoMemory> for WorldError {
    ghost use Rattle.std.specs.Prelude.{◌≡◌};
    ghost use Rattle.mc_world.specs.declared.moves.WorldError.TheVariants.{NoMemory};

    ghost from_gives = { λ _ e. e ≡ NoMemory };

    fn from(_error: NoMemory) -> WorldError {
        WorldError::NoMemory
    }
}
