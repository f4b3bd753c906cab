//! The bounded ring of events that a client polls, after libmpv's event queue. It takes events and
//! replies, and gives them back in order, the oldest first: a reply to an accepted request has its
//! place set aside, and an event that finds none is dropped, of which one overflow tells. Contracts
//! see a ring as the record of `specs/Ring.antt`; the law over every list of calls stands on
//! `Ring::new`.
#![tactic(auto)]

mod calls;
mod event;
mod ring;

pub use calls::{RingAnswer, RingCall};
pub use event::Event;
pub use mc_value::NoMemory;
pub use ring::{Pushed, QueueFull, Ring, RingError};
