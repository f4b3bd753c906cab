//! The commands of the program. `run` takes words, a shelf of files and a sink for the text: it plays
//! the script that the words name over the film that they name, and writes what its readers were given
//! and what its cache did. Its contract is the program's: `specs/Asked` says what words name, `specs/Run`
//! how a run ends and why, and what it leaves.
#![tactic(auto)]

mod command;
mod generating;
mod opening;
mod playing;
mod summing;
mod text;

pub use command::run;
pub use generating::{GenLine, generate};
