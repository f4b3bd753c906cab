//! Makes the calls of `mc_gen` that its rows name, and prints what each answered. The rows stand in
//! `stdin`, and what they must answer in `stdout`. A film is named by its number of pictures: `octets`
//! writes its octets, `packets` those of its packets that are asked for, and `summary` what is counted
//! in it, all as the reader of whole films finds them; `fails` writes it into a sink that fails, and
//! `pieces` into one that counts; `seeks` opens it through a shelf that counts, and seeks in it.
#![tactic(auto)]

mod pieces;
mod seeks;
mod table;
mod written;

use rows::play;
use std::io;
use table::GenTable;

fn main(rt: HostRuntime) -> io::Result<()> {
    play(&rt, &mut GenTable)
}
