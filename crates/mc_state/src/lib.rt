//! A player's core in the midst of a call. Each of its steps writes one record, and what it holds is
//! always what its journal tells. The calls of `mc_core` are made of these steps.
//!
//! - `State` holds the clients, the queue, the facts, and the journal. Its type keeps `Stands` (in
//!   `specs/Stands`): every record of the journal was allowed, and all else is what it tells.
//! - A step says what it wrote (`wrote`: just that record, by `specs/Steps`), and after it the type
//!   says all the rest. `push_to` writes one record or none, as the client hears the event or not, and
//!   says which pushes are still to come (`ahead`, by `specs/Pushing`).
//! - What a step needs is a `requires`: that nothing is due (`IsQuiet`), or that just this is due;
//!   and room in the journal, which `make_room` and its like make before anything changes. So a step
//!   that writes cannot fail once there is room, but for those that take memory of their own.
#![tactic(auto)]

mod answering;
mod learning;
mod lives;
mod making;
mod pushing;
mod reading;
mod replying;
mod requests;
mod state;
mod taking;

pub use state::State;
