//! The lines of a script, played over a demuxer. The demuxer stands behind a trait (`Machine`) that
//! says what its calls answer and add to its journal; a line calls it until what the line asks for
//! stands in the journal. `specs/Calls` says what a machine's calls do, `specs/Lines` and
//! `specs/Runs` what lines leave, by the words of `mc_script`'s `specs/Plays`. A driver (`mc_jobs`)
//! is such a machine, by `specs/Machines`.
#![tactic(auto)]

mod draining;
mod driver;
mod halt;
mod lines;
mod machine;
mod next;
mod play;
mod reads;
mod turns;

pub use draining::drain;
pub use halt::Halt;
pub use machine::Machine;
pub use play::run_script;
pub use turns::turn;
