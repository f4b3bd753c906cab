//! The jobs of a demuxer. A `Driver` is a demuxer beside the cursor and the index that do its jobs over
//! one file: they read a part of the film or find where tracks start, over the shelf that holds the file
//! (`find_starts`, `find_added`, `read_part`), and what that came to is brought to the demuxer (`bring`).
//! Which film these stand for is `specs/Driving`, what a job comes to `specs/Working`, and a job done and
//! brought `specs/Doing`.
#![tactic(auto)]

mod beginning;
mod brought;
mod driver;
mod job;
mod law;
mod work;

pub use beginning::{driver_begins, film_lists, film_tracks};
pub use brought::Brought;
pub use driver::Driver;
pub use job::number_of;
pub use law::{film_parts, film_starts};
pub use work::{bring, find_added, find_starts, read_part};
