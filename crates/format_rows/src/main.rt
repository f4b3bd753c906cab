//! Makes the calls of `mc_packet` and `mc_ebml` that its rows name, and prints what each answered.
//! The rows stand in `stdin`, and what they must answer in `stdout`. Octets are texts of hex digits, and a number 0 in place of a track stands for none.
#![tactic(auto)]

mod arguments;
mod elements;
mod packets;
mod table;
mod writing;

use rows::play;
use std::io;
use table::FormatTable;

fn main(rt: HostRuntime) -> io::Result<()> {
    play(&rt, &mut FormatTable)
}
