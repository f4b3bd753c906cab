//! What happens in a demuxer with a seekable cache, as a journal of records, and what may be read
//! off it: which tracks are selected, from where each is read, what its reader was given, which
//! ranges of the film are cached. It takes nothing and runs nothing but the making of a record
//! from a packet; it gives the definitions over films and journals, and the laws on them. The
//! chief ones are `specs/Legal`, that a reader was given a front of a fresh reading of the film,
//! and `specs/Used`, which record may come next.
#![tactic(auto)]

mod callers;
mod journals;
mod law;
mod record;

pub use callers::{CORE, DEMUXER, DRIVER, reader};
pub use journals::{
    crowded_journals, forward_journals, worked_films, worked_journals, wrong_journals,
};
pub use law::{allowed_journals, queues, serving_ranges};
pub use record::{Cause, DemuxJournal, DemuxRecord, Removal, Sought, gave};
