//! Plays the lines of its rows with `mc_cache`, each on a cache of its own, and prints what they
//! answered. The rows stand in `stdin`, and what they must answer in `stdout`.
//!
//! A row is the limit on the octets behind and a line of words, each a letter and a number. The film
//! has one track, and a packet's time in nanoseconds is ten times its block:
//!
//! - `s` a range starts at a block: answers each interval that goes for it;
//! - `k`, `p`, `x` the film is read over a keyframe in a block, another packet, or a keyframe at a
//!   time greater by one; `r`, `e` it is read up to a block without a packet, and ends there (`e`);
//! - `b`, `f` a seek back or forward to a time: answers the block of the head;
//! - `c` the next drop with the head at a block: answers the interval that goes;
//! - `j` joins: answers how many ranges were united, and how many went since they differ;
//! - `m` answers the mark, `v` whether the current range begins where the film does, `l` leaves the
//!   current range; their number says nothing.
//!
//! Behind the answers stand the ranges, the current one first if there is one, and how many packets
//! they hold.
#![tactic(auto)]

mod acts;
mod film;
mod table;

use rows::play;
use std::io;
use table::CacheTable;

fn main(rt: HostRuntime) -> io::Result<()> {
    play(&rt, &mut CacheTable)
}
