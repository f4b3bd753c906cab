//! The queue of the clients' requests, and the calls that a client makes. It takes requests, and
//! gives them back in the order in which they came; those of a ticket, of a client, or of a client
//! and a number can be taken out from between the others. Contracts see it as its list of requests,
//! and whether room is reserved for one more.
#![tactic(auto)]

mod call;
mod dispatch;
mod request;

pub use call::Call;
pub use dispatch::Dispatch;
pub use mc_value::NoMemory;
pub use request::{ClientNo, Request, Requests};
