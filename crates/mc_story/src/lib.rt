//! What a demuxer's journal and a player's journal say of each other. Nothing runs here; the crate
//! gives definitions over the two journals and the laws on them, which need no more of a world than
//! what each of its steps adds to either journal.
//!
//! `specs/Story` says what one story is: what the demuxer was asked under the player's caller
//! number is what the player ordered, in order and with its outcomes; each view that the player
//! learned is what the demuxer's cache was at some moment, and these moments are in order; and the
//! file was loaded at most once, as it was opened. The chief law is [`every_run`]: whatever steps
//! are made, in whatever order, the two journals tell one story. `specs/Steps` has the steps,
//! `specs/Tie` what each of them keeps, and `specs/Turns` the turns of a player's core that are
//! composed of them.
//!
//! ```text
//! the player's journal                                  the demuxer's journal
//! Ordered { by: 1, order: Seek { t: 5000, dir: Back } }
//!                                                       Sought { by: 1, t: 5000, dir: Back, .. }
//! Did     { by: 1, outcome: Sought }
//! Ordered { by: 1, order: Select { set: .. } }          nothing, where that set is selected
//! Did     { by: 1, outcome: Selected { set: .. } }
//! Learned { by: 1, view: .. }                           the view of the journal so far
//! ```
#![tactic(auto)]

mod journals;
mod law;

pub use journals::{worked_run, worked_selections, worked_story, wrong_stories};
pub use law::{counted_turns, every_run, every_turn, known_orders, tied_worlds};
