//! A client of the player: its ring of events and replies, the events that it switched off, and the
//! properties that it observes. It takes events and replies, and notes which properties may have
//! changed; a poll gives the ring's oldest event, else an overflow, else the first property whose
//! value is another one than its observer was last given. Contracts see a client as the record of
//! `specs/Client.antt`; a poll's answer stands in `specs/Polls.antt`, and as a function of what is
//! observed in `specs/Seen.antt`.
#![tactic(auto)]

mod calls;
mod client;
mod refusal;
mod watch;
mod watches;

pub use calls::{ClientAnswer, ClientCall};
pub use client::Client;
pub use mc_value::NoMemory;
pub use refusal::{ClientError, Pushed};
