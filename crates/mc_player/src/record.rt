use mc_dispatch::{Call, ClientNo};
use mc_packet::{CacheView, Choice, Dir, Why};
use mc_props::Facts;
use mc_ring::Event;
use mc_tracks::TrackList;
use mc_value::Text;

/// The answer to a client's call.
#[derive(Debug, Drop)]
pub enum Answer {
    /// It was done; or the request was accepted, and its reply will come.
    Ok,
    /// It was refused, with this error of libmpv's `client.h`: -1 where the client's ring has no
    /// place for a reply, -4 where the call's form is wrong.
    Refused(i32),
    /// So many observers or requests were removed.
    Removed(u32),
    /// The event that a poll found.
    Event(Event),
}

/// What the demuxer is to do for the player. `Load`, `Seek` and `Select` are out until their
/// outcome is told.
#[derive(Clone, Copy, Debug, PartialEq, Eq)]
pub enum Order {
    /// Nothing: no request waits, or the player ends.
    Idle,
    /// The file is to be opened. This is the first order, and comes once.
    Load,
    /// A seek.
    Seek {
        /// The time to seek, in nanoseconds, at most 2^62 on either side of 0.
        t: i64,
        /// Whether it goes to a keyframe that is not behind that time, or not before it.
        dir: Dir,
    },
    /// Other tracks are to be selected.
    Select {
        /// The tracks, each one that the file lists, under its kind, and not encoded.
        set: Choice,
        /// The time from which an added track is read, in nanoseconds.
        at: i64,
    },
    /// Nothing: a request was taken, and its reply came at once.
    Finished,
}

/// What became of an order.
#[derive(Debug, Drop)]
pub enum Outcome {
    /// The file was opened, behind `Load`.
    Loaded {
        /// The file, as it was named.
        path: Text,
        /// Its tracks, in the order of their entries.
        tracks: TrackList,
        /// Those that are selected.
        set: Choice,
    },
    /// The seek was begun, behind `Seek`.
    Sought,
    /// These tracks are selected, behind `Select`.
    Selected {
        /// The order's tracks.
        set: Choice,
    },
    /// The seek was refused, since no track is selected.
    Refused(Why),
}

/// One thing that happened in a player. Each record bears the number `by` of the caller at whose
/// call it was made.
#[derive(Debug, Drop)]
pub enum CoreRecord {
    /// A client came.
    Created {
        /// The caller's number.
        by: u32,
        /// The client's number, which no other living client has. It may be given again once the
        /// client is gone.
        client: ClientNo,
        /// Its name, which no other living client has.
        name: Text,
        /// How many events and places for replies its ring holds, from 1 to 100,000.
        size: u32,
    },
    /// A client went, and its queued requests with it.
    Destroyed {
        /// The caller's number.
        by: u32,
        /// The client's number.
        client: ClientNo,
    },
    /// A client made a call.
    Called {
        /// The caller's number.
        by: u32,
        /// The client's number.
        client: ClientNo,
        /// The number by which an accepted request is known: the number of records before this one.
        /// None for every other call.
        ticket: Option<u64>,
        /// The call.
        call: Call,
        /// The answer to it.
        answer: Answer,
    },
    /// The player was shown the demuxer's cache.
    Learned {
        /// The caller's number.
        by: u32,
        /// What it was shown.
        view: CacheView,
    },
    /// Facts were written, and the observers of what depends on them may have news.
    Wrote {
        /// The caller's number.
        by: u32,
        /// The fields that may have changed, as bits (`mc_props::fields`).
        mask: u32,
        /// The facts as they are now.
        facts: Facts,
    },
    /// The oldest request was taken, to be worked.
    Took {
        /// The caller's number.
        by: u32,
        /// The client that asked.
        client: ClientNo,
        /// The request's ticket.
        ticket: u64,
        /// The number that its reply bears.
        id: u64,
    },
    /// The demuxer was asked for something.
    Ordered {
        /// The caller's number.
        by: u32,
        /// What it was asked for: `Load`, `Seek` or `Select`.
        order: Order,
    },
    /// The outcome of the order that was out was told.
    Did {
        /// The caller's number.
        by: u32,
        /// The outcome.
        outcome: Outcome,
    },
    /// An event was pushed to a client that has not switched it off.
    Pushed {
        /// The caller's number.
        by: u32,
        /// The client's number.
        client: ClientNo,
        /// The event.
        event: Event,
        /// Whether its ring kept the event, and did not drop it.
        kept: bool,
    },
    /// A request got its reply.
    Replied {
        /// The caller's number.
        by: u32,
        /// The client that asked.
        client: ClientNo,
        /// The request's ticket.
        ticket: u64,
        /// The reply.
        event: Event,
    },
}

/// The records of a player, the oldest first.
pub type CoreJournal = Vec<CoreRecord>;
