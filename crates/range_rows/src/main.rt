//! Makes the calls of `mc_range` that its rows name, on a range and on another one that live from row
//! to row, and prints what each answered. The rows stand in `stdin`, and what they must answer in
//! `stdout`. Its packets have no octets, so that each counts for 64.
#![tactic(auto)]

mod answers;
mod calls;
mod ranges;
mod table;

use rows::play;
use std::io;
use table::RangeTable;

fn main(rt: HostRuntime) -> io::Result<()> {
    play(&rt, &mut RangeTable::new())
}
