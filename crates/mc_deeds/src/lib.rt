//! What becomes of a core's clients one at a time, and what a request or an outcome does: the parts
//! of a player's core (`mc_core`) that stand on no core.
//!
//! - `deeds`: what a request does once it is taken, and the facts after it; `outcomes`: what became
//!   of an order, and the facts after it; `forms`: whether a request may be asked at all.
//! - `follow`: the effects of either, made ready before anything changes, each event twice (for a
//!   ring and for the journal); `closes` picks them, `replies` makes the reply to a request, and
//!   `signals` are events that take no memory.
//! - `clients`: a client of a slab, one call at a time; `flags`: each client's observers are flagged
//!   where fields of the facts change.
//!
//! Each function answers a definition of `mc_player` or of this crate's `specs/`, wholly.
#![tactic(auto)]

mod clients;
mod closes;
mod deeds;
mod flags;
mod follow;
mod forms;
mod outcomes;
mod replies;
mod signals;

pub use clients::{
    full_at, next_at, observe_at, place_at, poll_at, push_at, reply_at, switch_at, unobserve_at,
};
pub use closes::{Close, close_of, follow_behind};
pub use deeds::{
    apply, cycle_deed, deed_mask, dir_of, get_deed, goal_of, seek_deed, send_deed, set_deed,
};
pub use flags::flag_all;
pub use follow::{Follow, Twice};
pub use forms::{id_of, is_bad};
pub use outcomes::{apply_outcome, copy_outcome, is_load, is_refusal, outcome_mask, restart_after};
pub use replies::{End, end_behind, reply_of};
pub use signals::{Signal, noted};
