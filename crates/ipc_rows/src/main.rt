//! Makes the calls of `mc_ipc` that its rows name, and prints what each answered. One `LineCut`
//! lives from row to row; `new` makes another. The rows stand in `stdin`, and what they must answer in
//! `stdout`.
#![tactic(auto)]

mod asked;
mod cutting;
mod events;
mod table;
mod told;

use rows::play;
use std::io;
use table::IpcTable;

fn main(rt: HostRuntime) -> io::Result<()> {
    play(&rt, &mut IpcTable::new())
}
