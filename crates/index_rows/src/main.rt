//! Makes the calls of `mc_index` that its rows name, over a film in memory, and prints what each
//! answered: where a seek or a switch starts, and how many octets were read. The rows stand in
//! `stdin`, and what they must answer in `stdout`. Times are in milliseconds. A film lives from row
//! to row, with a cursor and an index of it.
#![tactic(auto)]

mod calls;
mod reading;

use calls::IndexTable;
use rows::play;
use std::io;

fn main(rt: HostRuntime) -> io::Result<()> {
    play(&rt, &mut IndexTable::new())
}
