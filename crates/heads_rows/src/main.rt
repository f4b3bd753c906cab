//! Tells whether a cursor reads heads without payloads: it walks films of forty blocks of a mebibyte
//! each, whose octets are made where they are asked for, and counts the octets that it reads. The
//! rows stand in `stdin`, and what they must answer in `stdout`. A row has a call, a kind of film and
//! how many octets the call may read for each block; it is answered `under`, or the number it read.
#![tactic(auto)]

mod calls;
mod made;

use calls::HeadsTable;
use rows::play;
use std::io;

fn main(rt: HostRuntime) -> io::Result<()> {
    play(&rt, &mut HeadsTable)
}
