use mc_value::{Text, Words};
use std::alloc::AllocError;

/// A command of a client.
#[derive(Debug, Drop)]
pub enum Command {
    /// To another time, in nanoseconds: to `t` where it is absolute, else by `t` from the present
    /// time on. It goes to a keyframe: to the last that is not behind that time, or with `forward`
    /// to the first that is not before it.
    Seek {
        /// Nanoseconds, at most 2^62 on either side of 0.
        t: i64,
        /// Whether `t` is a time, and no distance.
        absolute: bool,
        /// Whether the keyframe is one that is not before that time.
        forward: bool,
    },
    /// Sets a property to a text, as a client's `set` of that string.
    Set {
        /// The property's name.
        name: Text,
        /// What it is set to, as a text.
        value: Text,
    },
    /// Turns a flag over.
    Cycle {
        /// The property's name.
        name: Text,
    },
    /// Words to every client.
    Message {
        /// At least one word.
        words: Words,
    },
    /// Words to one client.
    MessageTo {
        /// The client's name.
        client: Text,
        /// At least one word.
        words: Words,
    },
    /// Nothing.
    Ignore,
    /// Ends the player.
    Quit,
}

/// Why a line gives no words, or words no command.
#[derive(Clone, Copy, Debug, PartialEq, Eq)]
pub enum CommandError {
    /// The first wrong or missing word, by its number from 0; 2^32 - 1 stands for each greater one.
    Bad { word: u32 },
    /// There was no memory for the answer.
    NoMemory,
}

impl From<AllocError> for CommandError {
    ghost use Rattle.std.specs.Prelude.{◌≡◌};
    ghost use Rattle.mc_command.specs.declared.command.CommandError.TheVariants.{NoMemory};

    ghost from_gives = { λ _ e. e ≡ NoMemory };

    fn from(_error: AllocError) -> CommandError {
        CommandError::NoMemory
    }
}
