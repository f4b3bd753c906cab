//! Makes the calls of `mc_cursor` that its rows name, over a film in memory whose octets a row gives
//! as hex digits, and prints what each answered. The rows stand in `stdin`, and what they must answer
//! in `stdout`. A film, with the one octet whose read fails once, lives from row to row.
#![tactic(auto)]

mod calls;
mod opened;
mod print;

use calls::CursorTable;
use rows::play;
use std::io;

fn main(rt: HostRuntime) -> io::Result<()> {
    play(&rt, &mut CursorTable::new())
}
