//! Makes the calls of `mc_block` and `mc_tracks` that its rows name, and prints what each answered.
//! The rows stand in `stdin`, and what they must answer in `stdout`. Octets are texts of hex digits.
#![tactic(auto)]

mod blocks;
mod table;
mod tracks;

use rows::play;
use std::io;
use table::BlockTable;

fn main(rt: HostRuntime) -> io::Result<()> {
    play(&rt, &mut BlockTable)
}
