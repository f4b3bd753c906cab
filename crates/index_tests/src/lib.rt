//! What tries of the index stand on: a shelf that counts the octets it gives, and a film of many
//! groups. `index_rows` and `index_bench` use them.
#![tactic(auto)]

mod counting;
mod groups;

pub use counting::CountingShelf;
pub use groups::long_film;
