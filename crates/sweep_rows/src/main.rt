//! Runs the player over a film once for each octet whose read fails, each write call that fails, and each
//! length to which the film is cut, and over a script whose journal is longer than what is written at a
//! time; prints how many runs there were, how many of them printed nothing, and the first that went
//! wrong. The rows stand in `stdin`, and what they must answer in `stdout`.
//!
//! `["each_..",FROM,TO,WORDS,FILM]`, with a script behind where one is read, runs the words for each number
//! from the one up to the other; what is owed of each run is told at `Sweep`. `["looks",FILM,N,VIEW]` drains
//! and looks so many times, and each look is owed the view.
#![tactic(auto)]

mod looks;
mod sweeps;
mod table;

use rows::play;
use std::io;
use table::SweepTable;

fn main(rt: HostRuntime) -> io::Result<()> {
    play(&rt, &mut SweepTable::new(rt.alloc()))
}
