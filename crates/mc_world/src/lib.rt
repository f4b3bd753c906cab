//! A demuxer and a player's core together, moved one step at a time. It opens no file and reads no
//! clock: what does a demuxer's jobs brings their outcomes (`Bring`), and the demuxer's cache is shown
//! to the core (`Learn`), whose orders are carried to the demuxer (`Work`, `Carry`, `Done`).
//!
//! Contracts see a world as the record of `specs/World`. `World::step` makes one call of the demuxer or
//! of the core for each step, and says by `specs/Steps` which, and what it leaves: so what is true of
//! every demuxer and of every core is true of those in a world. Which steps may come when is
//! `specs/Steps.May`.
//!
//! Whatever steps a world makes, its two journals tell one story: [`world_story`] has what each
//! step keeps, and [`every_run`] what every list of steps from a new world comes to.
#![tactic(auto)]

mod carrying;
mod demuxing;
mod law;
mod moves;
mod playing;
mod world;

pub use law::{every_run, world_story};
pub use moves::{Numbers, Reply, Step, WorldError};
pub use world::World;
