//! What each call of a demuxer (`mc_demux`) leaves, as definitions over a record of its state, and the
//! laws that they keep to the film. The crate has the types that calls take and answer, and nothing
//! that runs.
#![tactic(auto)]

mod answer;
mod job;
mod law;
mod shows;
mod waiting;

pub use answer::{DemuxError, Peek, Reading, Selected, Taken};
pub use job::Job;
pub use law::{resting_readers, standing_journals};
pub use shows::{cached_octets, next_jobs, shown_readers};
pub use waiting::{Failure, Switch, Target};
