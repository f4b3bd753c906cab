//! Makes the calls of `mc_demux` that its rows name, on a demuxer that lives from row to row, and
//! prints what each answered and, behind commas, the records that it wrote. The rows stand in `stdin`,
//! and what they must answer in `stdout`.
//!
//! `["open",forward,back,set,packets]` opens a film of these packets, each of one octet in a block of
//! 7; it lists video 1, audio 2 and 3, and audio 4 whose blocks can't be read. `["work",n]` does so many
//! jobs that read on, and prints the last; `["find",video,audio]` does the next one that finds starts,
//! and `["fail"]` the next one, which fails.
#![tactic(auto)]

mod calls;
mod film;
mod jobs;
mod records;
mod table;
mod tracks;

use rows::play;
use std::io;
use table::DemuxTable;

fn main(rt: HostRuntime) -> io::Result<()> {
    play(&rt, &mut DemuxTable::new())
}
