//! Makes the calls of `mc_script` that its rows name, and prints what each answered: words of a
//! command line, scripts, and the text of a journal. The rows stand in `stdin`, and what they must
//! answer in `stdout`.
#![tactic(auto)]

mod calls;
mod records;
mod scripts;
mod views;

use calls::ScriptTable;
use rows::play;
use std::io;

fn main(rt: HostRuntime) -> io::Result<()> {
    play(&rt, &mut ScriptTable)
}
