ghost use Rattle.std.specs.Prelude.{◌≡◌, IfOk};
ghost use Rattle.mc_dispatch.specs.declared.call.Call.TheVariants.{Set};

use mc_value::{Format, NoMemory, Text, Value, Words, copy_words};
use std::alloc::Global;

/// What a client asks for, after libmpv's asynchronous calls. `Command`, `Get` and `Set` are
/// requests: each waits in the queue, and gets one reply, with the `id` that it bears. The others
/// are answered at once.
#[derive(Debug, Drop)]
pub enum Call {
    /// A command is run: its words, and the number that its reply bears.
    Command { id: u64, words: Words },
    /// A property is read: the reply has its value in the format.
    Get { id: u64, name: Text, format: Format },
    /// A property is set to the value.
    Set { id: u64, name: Text, value: Value },
    /// A property is observed in the format from now on, under the number `id`.
    Observe { id: u64, name: Text, format: Format },
    /// The observers with the number go.
    Unobserve { id: u64 },
    /// The events with the number, after `client.h`, are switched on or off.
    Event { number: u32, on: bool },
    /// The next event is taken.
    Poll,
    /// The client's queued requests with the number are aborted.
    Abort { id: u64 },
}

impl Call {
    /// An equal call.
    pub fn copy(&self, alloc: Global) -> Result<Call, NoMemory>
        ensures { IfOk result (λ c. c ≡ self.now) }
    {
        Ok(match self {
            Call::Command { id, words } => Call::Command {
                id: *id,
                words: copy_words(alloc, words.as_slice())?,
            },
            Call::Get { id, name, format } => Call::Get {
                id: *id,
                name: name.copy()?,
                format: *format,
            },
            Call::Set { id, name, value } => copy_set(alloc, *id, name, value)?,
            Call::Observe { id, name, format } => Call::Observe {
                id: *id,
                name: name.copy()?,
                format: *format,
            },
            Call::Unobserve { id } => Call::Unobserve { id: *id },
            Call::Event { number, on } => Call::Event {
                number: *number,
                on: *on,
            },
            Call::Poll => Call::Poll,
            Call::Abort { id } => Call::Abort { id: *id },
        })
    }
}

fn copy_set(alloc: Global, id: u64, name: &Text, value: &Value) -> Result<Call, NoMemory>
    ensures { IfOk result (λ c. c ≡ Set id name.now value.now) }
{
    Ok(Call::Set {
        id,
        name: name.copy()?,
        value: value.copy(alloc)?,
    })
}
