//! What happens in a player with clients, as a journal of records, and what may be read off it:
//! which clients live and what each observes and holds in its ring, which requests wait, which
//! order is out, what the player knows of itself. It runs next to nothing; it gives the types of
//! the records, the definitions over journals, and the laws on them.
//!
//! A definition reads a journal with its newest record first. The chief ones are `specs/Rules`,
//! which record may come next, and `specs/Laws`, what a reader may rely on where every record was
//! allowed: that no event leaves out of order, that a client that finds no event was given what
//! each of its observers has, that no accepted request loses its reply or gets two. What a request
//! does stands in `specs/Deeds`, and what has to follow it in `specs/Effects`.
//!
//! ```text
//! Created { by: 6, client: 0, name: "a", size: 16 }        a client comes, with room for 16 events
//! Called  { by: 6, client: 0, ticket: 1, call: Set pause, answer: Ok }    it asks, and is accepted
//! Took    { by: 1, client: 0, ticket: 1, id: 7 }                       its request is taken, ..
//! Wrote   { by: 1, mask: 1, facts: .. }                                .. which pauses the player, ..
//! Replied { by: 1, client: 0, ticket: 1, event: SetReply }             .. and is replied to
//! ```
#![tactic(auto)]

mod callers;
mod deed;
mod journals;
mod law;
mod record;

pub use deed::Deed;
pub use journals::{worked_journals, wrong_journals};
pub use law::{allowed_journals, known_tracks, listed_clients, waiting_requests};
pub use record::{Answer, CoreJournal, CoreRecord, Order, Outcome};
