//! The readers of a film over a seekable cache of its packets. [`Demux`] opens nothing and reads no
//! file: it says which [`Job`] is to be done next ([`Demux::next_job`]), and whoever reads the film
//! brings its outcome under the job's number ([`Demux::found`], [`Demux::feed`], [`Demux::failed`],
//! [`Demux::starved`]). Beside that readers read ([`Demux::read`]), and seeks and selections come
//! ([`Demux::seek`], [`Demux::select`]). All that happens stands in its journal.
//!
//! ```text
//! let mut demux = Demux::new(alloc, list, set, limits)?;
//! match demux.next_job()? {
//!     Job::Read { no } => demux.feed(no, chunk)?,
//!     Job::Resume { no, mark } => demux.feed(no, chunk)?,
//!     Job::SeekTo { no, .. } | Job::Refresh { no, .. } => demux.found(no, starts)?,
//!     Job::Idle => wait(),
//! };
//! match demux.read(reader(Kind::Video), 1)? {
//!     Reading::Gave(packet) => decode(packet),
//!     Reading::End(ending) => stop(ending),
//!     _ => wait(),
//! }
//! ```
//!
//! The definitions of what a call leaves stand in the crate [`mc_calls`]. Each call has three clauses
//! beside others. `value`, by the definition that bears its name (`Seeks`, `Selects`, `Asks`, `Finds`,
//! `Feeds`, `Fails`, `Reads`, `Shows`), fixes its answer and what it leaves: by which steps the cache
//! came about, which records were written, and all else. `grows`: what it wrote bears its caller's
//! number. `film`: whatever film the demuxer stood for (`StandsFor`), it stands for it afterwards, where
//! what was brought is of that film. What follows for readers are the laws [`standing_journals`],
//! [`resting_readers`] and [`shown_readers`]; that what is cached and which job comes next follow from
//! the journal, [`cached_octets`] and [`next_jobs`]. What is cached is handed out as packets by
//! [`Demux::cached`].
//!
//! Whoever knows mpv's `demux.c` finds there, under these names:
//!
//! | here | in mpv |
//! |---|---|
//! | a range of the cache, the current one | `demux_cached_range`, `current_range` |
//! | a reader's head | `reader_head` |
//! | `Limits`: `forward`, `back`, `readahead` | `--demuxer-max-bytes`, `-max-back-bytes`, `-readahead-secs` |
//! | a seek that a range serves | `find_cache_seek_range`, `switch_current_range` |
//! | a seek that is sent; the job `SeekTo` | `seeking`; `execute_seek` |
//! | the job `Refresh`, for tracks that wait | `initiate_refresh_seek` for streams that were selected late |
//! | the job `Resume` | `initiate_refresh_seek` behind a seek in the cache |
//! | the job `Read` | `read_packet` |
//! | a join of two ranges | `attempt_range_joining` |
//! | drops that the limit asks for | `prune_old_packets` |
//! | a selection | `demuxer_select_track` |
//! | what a reader is told | `dequeue_packet`; its end is `eof` |
#![tactic(auto)]

mod asking;
mod cached;
mod demux;
mod feeding;
mod finding;
mod joining;
mod opening;
mod outcomes;
mod reading;
mod rooms;
mod seek;
mod selecting;
mod trim;
mod viewing;
mod wanting;

pub use demux::Demux;
pub use mc_calls::{
    DemuxError, Failure, Job, Peek, Reading, Selected, Switch, Taken, Target, cached_octets,
    next_jobs, resting_readers, shown_readers, standing_journals,
};
