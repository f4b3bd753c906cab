//! Makes the calls of `mc_outside` that its rows name, on one shelf and one sink that live from row to
//! row, and prints what each answered. The rows stand in `stdin`, and what they must answer in
//! `stdout`. Octets are printed as hex digits.
#![tactic(auto)]

mod calls;
mod drip;
mod fake;
mod shelves;
mod sinks;

use calls::OutsideTable;
use fake::FakeFiles;
use rows::play;
use std::io;

fn main(rt: HostRuntime) -> io::Result<()> {
    let fakes = FakeFiles;
    play(&rt, &mut OutsideTable::new(&rt, &fakes))
}
