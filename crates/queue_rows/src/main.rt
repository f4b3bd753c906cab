//! Makes the calls of `mc_queue` that its rows name, on a queue and on another one that live from row
//! to row, and prints what each answered. The rows stand in `stdin`, and what they must answer in
//! `stdout`. A queue is of track 1, and a packet has two octets.
#![tactic(auto)]

mod calls;
mod packets;

use calls::QueueTable;
use rows::play;
use std::io;

fn main(rt: HostRuntime) -> io::Result<()> {
    play(&rt, &mut QueueTable::new())
}
