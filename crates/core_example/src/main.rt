//! A client's life: it comes, observes whether the player is paused, has it paused, and polls until
//! nothing is new. It stands on the first page of `mc_core`.
#![tactic(auto)]

ghost use Rattle.std.specs.Prelude.{ℕ, ◌<◌};

mod steps;

use mc_core::{Core, CoreError};
use mc_props::meanings::Standard;
use mc_props::{Facts, PropTable, Reads, standard, standard_entries};
use std::alloc::{AllocError, Global};
use std::io;
use steps::life;

fn main(rt: HostRuntime) -> io::Result<()> {
    let alloc = rt.alloc();
    live(
        &rt,
        alloc,
        |place: u32, facts: &Facts| standard(alloc, place, facts),
    )
}

fn live<F: Reads<Standard>>(rt: &HostRuntime, alloc: Global, reader: F) -> io::Result<()>
    requires { (place : ℕ) → place < 14 → F.answers reader place }
{
    let table = PropTable::new(alloc, standard_entries(alloc)?, reader);
    let mut core = Core::new(alloc, table);
    let mut out = String::new(alloc);
    match life(alloc, &mut core, &mut out) {
        Ok(()) => println!(rt; "{}", out.as_str()),
        Err(CoreError::NoMemory) => Err(AllocError.into()),
        Err(error) => println!(rt; "{error:?}"),
    }
}
