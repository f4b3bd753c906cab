//! Makes the calls of `mc_ring`, `mc_dispatch` and `mc_command` that its rows name, as `ring new`,
//! `queue take` and `line split`, and prints what each answered. One ring and one queue live from
//! row to row. The rows stand in `stdin`, and what they must answer in `stdout`.
#![tactic(auto)]

mod events;
mod lines;
mod queue;
mod ring;
mod table;

use rows::play;
use std::io;
use table::PlayerTable;

fn main(rt: HostRuntime) -> io::Result<()> {
    play(&rt, &mut PlayerTable::new())
}
