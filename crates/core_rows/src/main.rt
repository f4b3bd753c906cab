//! Makes the calls of `mc_core` that its rows name, on one core after another over the standard
//! properties of a player, and prints what each answered. The rows stand in `stdin`, and what they
//! must answer in `stdout`.
#![tactic(auto)]

ghost use Rattle.std.specs.Prelude.{ℕ, ◌<◌};

mod asks;
mod outcomes;
mod shown;
mod table;

use mc_core::Core;
use mc_props::meanings::Standard;
use mc_props::{Facts, PropTable, Reads, standard, standard_entries};
use rows::play;
use std::alloc::Global;
use std::io;
use table::CoreTable;

fn main(rt: HostRuntime) -> io::Result<()> {
    let alloc = rt.alloc();
    play_all(
        &rt,
        alloc,
        |place: u32, facts: &Facts| standard(alloc, place, facts),
    )
}

// How many cores the rows may use, one after another.
const CORES: u32 = 20;

fn play_all<F: Reads<Standard> + Copy>(rt: &HostRuntime, alloc: Global, reader: F) -> io::Result<()>
    requires { (place : ℕ) → place < 14 → F.answers reader place }
{
    let mut cores = Vec::new(alloc);
    for _ in 0..CORES {
        let table = PropTable::new(alloc, standard_entries(alloc)?, reader);
        cores.push(Core::new(alloc, table))?;
    }
    play(rt, &mut CoreTable::new(cores))
}
