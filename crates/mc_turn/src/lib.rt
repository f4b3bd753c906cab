//! A ticket lock that keeps history. It takes a value with a journal, each entry of which bears
//! the number of the caller that made it, and gives it to one pass at a time. What a pass has
//! seen is a prefix of the journal of the value, and the entries under its own numbers are
//! just those that it has seen: `Seen` of `specs/Passes.antt`. No entry bears a number that was
//! not handed out, so a pass with all numbers has seen all. What a worker makes over many turns
//! is `Worked` of `specs/Workers.antt`, and `specs/Laws.antt` adds its turns up.
#![tactic(auto)]

mod bell;
mod kept;
mod law;
mod pass;
mod turn;
mod view;

pub use bell::Bell;
pub use kept::Kept;
pub use pass::Pass;
pub use turn::{NoMemory, Turn};
