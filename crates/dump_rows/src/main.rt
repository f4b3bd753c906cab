//! Makes the calls of `mc_dump` that its rows name, and prints what each answered. The rows stand in
//! `stdin`, and what they must answer in `stdout`. Tracks and packets are held from row to row:
//! `choose` takes those of a named film, `track` and `packet` add one, `tracks` and `packets` make many.
//! `write` writes the film of what is held, reads it back, and tells what it found.
#![tactic(auto)]

mod answers;
mod held;
mod table;
mod writing;

use rows::play;
use std::io;
use table::DumpTable;

fn main(rt: HostRuntime) -> io::Result<()> {
    play(&rt, &mut DumpTable::new(rt.alloc()))
}
