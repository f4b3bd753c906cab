//! Makes the calls of `mc_playlist` that its rows name, over properties after mpv's manual and one
//! of a front end's own, and prints what each answered. `new` and `step` make and change the list
//! that the others see; `play` takes a whole script and what its films print. The rows stand in
//! `stdin`, and what they must answer in `stdout`.
#![tactic(auto)]

ghost use Rattle.std.specs.Prelude.{ℕ, ◌<◌};

mod calls;
mod lines;
mod own;
mod plays;
mod table;

use mc_playlist::{ListFacts, ListReads, ListTable};
use own::{Own, own_entries, show};
use rows::play;
use std::alloc::Global;
use std::io;
use table::PlaylistTable;

fn main(rt: HostRuntime) -> io::Result<()> {
    let alloc = rt.alloc();
    play_all(
        &rt,
        alloc,
        |place: u32, facts: &ListFacts| show(alloc, place, facts),
    )
}

fn play_all<F: ListReads<Own>>(rt: &HostRuntime, alloc: Global, reader: F) -> io::Result<()>
    requires { (place : ℕ) → place < 4 → F.answers reader place }
{
    let table = ListTable::new(own_entries(alloc)?, reader);
    play(rt, &mut PlaylistTable::new(alloc, table))
}
