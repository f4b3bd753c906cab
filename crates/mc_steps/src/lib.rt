//! From what the calls of a demuxer (`mc_calls`) and of a player's core (`mc_core`) say that they
//! leave in their journals, to the steps of a world over both (`mc_story`). Nothing runs here.
//!
//! A world makes one such call at each of its steps: [`demux_steps`] and [`core_steps`] say of each
//! call, from its own contract, what the step adds; and what every list of steps comes to is then
//! the law of `mc_story`.
#![tactic(auto)]

mod law;

pub use law::{core_steps, demux_steps};
