//! Makes the calls of `mc_props` that its rows name, over the standard properties of a player and
//! over a table of its own, and prints what each answered. The row `facts` says which facts the
//! others are of. The rows stand in `stdin`, and what they must answer in `stdout`.
#![tactic(auto)]

ghost use Rattle.std.specs.Prelude.{ℕ, ◌<◌};

mod calls;
mod facts;
mod own;
mod table;

use mc_props::meanings::Standard;
use mc_props::{Facts, PropTable, Reading, Reads, standard, standard_entries};
use mc_value::Value;
use own::{OwnTable, Silence};
use rows::play;
use std::alloc::Global;
use std::io;
use table::PropsTable;

fn main(rt: HostRuntime) -> io::Result<()> {
    let alloc = rt.alloc();
    play_all(
        &rt,
        alloc,
        |place: u32, facts: &Facts| standard(alloc, place, facts),
        |_place: u32, facts: &Facts| Ok(Reading::Is(Value::Flag(facts.mute))),
    )
}

fn play_all<F: Reads<Standard>, G: Reads<Silence>>(
    rt: &HostRuntime,
    alloc: Global,
    reader: F,
    own: G,
) -> io::Result<()>
    requires standard { (place : ℕ) → place < 14 → F.answers reader place }
    requires own { G.answers own 0 }
{
    let table = PropTable::new(alloc, standard_entries(alloc)?, reader);
    let own = OwnTable::new(alloc, own)?;
    play(rt, &mut PropsTable::new(table, Facts::new(alloc), own))
}
