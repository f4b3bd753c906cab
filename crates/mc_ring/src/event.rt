ghost use Rattle.std.specs.Prelude.{◌≡◌, IfOk};
ghost use Rattle.mc_ring.specs.Event.{enters_ring, event_number};
ghost use Rattle.mc_ring.specs.declared.event.Event.TheVariants.{Change};

use mc_value::{Format, NoMemory, Text, Value, Words, copy_words};
use std::alloc::Global;

/// What a client finds at a poll: libmpv's `mpv_event`, with what it carries.
#[derive(Debug, Drop)]
pub enum Event {
    /// Nothing has happened.
    None,
    /// The player ends.
    Shutdown,
    /// The reply to a request for a property: the request's number, an error of `client.h` or 0,
    /// and the value.
    GetReply {
        id: u64,
        error: i32,
        value: Value,
    },
    /// The reply to a request that sets a property.
    SetReply {
        id: u64,
        error: i32,
    },
    /// The reply to a command.
    CommandReply {
        id: u64,
        error: i32,
    },
    /// A file is about to be opened.
    StartFile,
    /// A file has ended, for a reason of `client.h`: 0 at its end, 2 stopped, 3 quit, 4 by an
    /// error.
    EndFile {
        reason: u32,
    },
    /// A file was opened.
    FileLoaded,
    /// A message from a client.
    Message {
        words: Words,
    },
    /// A seek was begun.
    Seek,
    /// Reading begins anew, behind a seek or an opening.
    PlaybackRestart,
    /// An observed property has another value: the observer's number, and the value in a format.
    Change {
        id: u64,
        name: Text,
        format: Format,
        value: Value,
    },
    /// At least one event was dropped.
    Overflow,
}

impl Event {
    /// The event's number in `client.h`.
    pub fn number(&self) -> u32
        ensures { result ≡ event_number self.now }
    {
        match self {
            Event::None => 0,
            Event::Shutdown => 1,
            Event::GetReply { .. } => 3,
            Event::SetReply { .. } => 4,
            Event::CommandReply { .. } => 5,
            Event::StartFile => 6,
            Event::EndFile { .. } => 7,
            Event::FileLoaded => 8,
            Event::Message { .. } => 16,
            Event::Seek => 20,
            Event::PlaybackRestart => 21,
            Event::Change { .. } => 22,
            Event::Overflow => 24,
        }
    }

    /// Whether the event may be pushed into a ring. `None`, `Overflow` and `Change` may not: a poll
    /// makes them when it finds the ring empty.
    pub fn enters_ring(&self) -> bool
        ensures { result ≡ enters_ring self.now }
    {
        !matches!(self, Event::None | Event::Overflow | Event::Change { .. })
    }

    /// An equal event.
    pub fn copy(&self, alloc: Global) -> Result<Event, NoMemory>
        ensures { IfOk result (λ e. e ≡ self.now) }
    {
        Ok(match self {
            Event::None => Event::None,
            Event::Shutdown => Event::Shutdown,
            Event::GetReply { id, error, value } => Event::GetReply {
                id: *id,
                error: *error,
                value: value.copy(alloc)?,
            },
            Event::SetReply { id, error } => Event::SetReply {
                id: *id,
                error: *error,
            },
            Event::CommandReply { id, error } => Event::CommandReply {
                id: *id,
                error: *error,
            },
            Event::StartFile => Event::StartFile,
            Event::EndFile { reason } => Event::EndFile { reason: *reason },
            Event::FileLoaded => Event::FileLoaded,
            Event::Message { words } => Event::Message {
                words: copy_words(alloc, words.as_slice())?,
            },
            Event::Seek => Event::Seek,
            Event::PlaybackRestart => Event::PlaybackRestart,
            Event::Change {
                id,
                name,
                format,
                value,
            } => copy_change(alloc, *id, name, *format, value)?,
            Event::Overflow => Event::Overflow,
        })
    }
}

fn copy_change(
    alloc: Global,
    id: u64,
    name: &Text,
    format: Format,
    value: &Value,
) -> Result<Event, NoMemory>
    ensures { IfOk result (λ e. e ≡ Change id name.now format value.now) }
{
    Ok(Event::Change {
        id,
        name: name.copy()?,
        format,
        value: value.copy(alloc)?,
    })
}
