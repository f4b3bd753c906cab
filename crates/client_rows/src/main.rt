//! Makes the calls of `mc_client` that its rows name, on one client that lives from row to row over
//! the standard properties of a player, and prints what each answered. The rows stand in `stdin`,
//! and what they must answer in `stdout`.
#![tactic(auto)]

ghost use Rattle.std.specs.Prelude.{ℕ, ◌<◌};

mod changes;
mod held;
mod polls;
mod table;

use held::Held;
use mc_props::meanings::Standard;
use mc_props::{Facts, PropTable, Reads, standard, standard_entries};
use rows::play;
use std::alloc::{AllocError, Global};
use std::io;
use table::ClientTable;

fn main(rt: HostRuntime) -> io::Result<()> {
    let alloc = rt.alloc();
    play_all(
        &rt,
        alloc,
        |place: u32, facts: &Facts| standard(alloc, place, facts),
    )
}

fn play_all<F: Reads<Standard>>(rt: &HostRuntime, alloc: Global, reader: F) -> io::Result<()>
    requires { (place : ℕ) → place < 14 → F.answers reader place }
{
    let table = PropTable::new(alloc, standard_entries(alloc)?, reader);
    match Held::new(alloc, table) {
        Ok(held) => play(rt, &mut ClientTable::new(held)),
        Err(_) => Err(AllocError.into()),
    }
}
