//! Runs the player over films and scripts in memory, and prints what it wrote and, on the last line,
//! the status and how it ended. The rows stand in `stdin`, and what they must answer in `stdout`.
//!
//! `["run",WORDS,FILM]` runs the words over a shelf that has the film of that name as `film.mkv`;
//! `["run",WORDS,FILM,SCRIPT]` over one that has the text, or an array of its octets in hex, as `script`
//! too. `["spot",FILE,PLACE,..]` is the same where the read of that octet of file 0, the film, or 1, the
//! script, fails once; `["bad",CALL,..]` where the write call of that number fails. `["lines",FRONTS,..]`
//! prints only the lines that begin so, and `["end_of",LINES,FRONT,..]` whether those that do are an end
//! of these lines. `["says",EXIT,..]` is what a way to end is told as.
#![tactic(auto)]

mod calls;
mod exits;
mod table;

use rows::play;
use std::io;
use table::RunTable;

fn main(rt: HostRuntime) -> io::Result<()> {
    play(&rt, &mut RunTable::new(rt.alloc()))
}
