//! Reads films on demand, chunk after chunk with `mc_cursor` and part after part with `mc_film`,
//! beside the same films read whole. The rows stand in `stdin`, and what they must answer in `stdout`.
#![tactic(auto)]

mod chunks;
mod parts;
mod same;
mod table;

use rows::play;
use std::io;
use table::ChunkTable;

fn main(rt: HostRuntime) -> io::Result<()> {
    play(&rt, &mut ChunkTable::new(rt.alloc()))
}
