use mc_dispatch::ClientNo;
use mc_packet::{Choice, Dir};
use mc_value::{Value, Words};

/// What a request does once it is taken, beside its reply. But for `Fails` and `Gives` the reply
/// tells no error and bears no value.
#[derive(Debug, Drop)]
pub enum Deed {
    /// Nothing: its reply tells this error of `client.h`, a number below 0.
    Fails(i32),
    /// Nothing.
    Ignores,
    /// Its reply bears this value.
    Gives(Value),
    /// The player is paused, or goes on.
    Pauses(bool),
    /// Its sound is off, or on.
    Mutes(bool),
    /// The demuxer is asked for a seek, and the reply waits for its outcome.
    Seeks {
        /// The time to seek, in nanoseconds, at most 2^62 on either side of 0.
        t: i64,
        /// Whether it goes to a keyframe that is not behind that time, or not before it.
        dir: Dir,
    },
    /// The demuxer is asked for other tracks, and the reply waits for its outcome.
    Selects {
        /// The tracks.
        set: Choice,
        /// The time from which an added track is read, in nanoseconds.
        at: i64,
    },
    /// Each client gets these words as a message.
    Sends(Words),
    /// One client gets them.
    SendsTo {
        /// Its number.
        client: ClientNo,
        /// The words.
        words: Words,
    },
    /// Each client is told that the file ends, since the player does, and then of its shutdown.
    /// No request is taken any more.
    Quits,
}
