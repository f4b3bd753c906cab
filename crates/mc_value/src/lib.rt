//! The values that a client of the player sends and is sent: texts, flags, whole numbers, arrays
//! and maps, as libmpv's client interface has them. It takes Rust's own strings and numbers, and
//! gives values in another format (`convert`), as texts (`value_text`, `json`, `seconds_text`), and
//! parts of them (`path`). Each answer is the definition's of `specs/`; contracts see a `Text` as
//! its octets.
#![tactic(auto)]

mod conversion;
mod equality;
mod json_string;
mod number;
mod octets;
mod paths;
mod seconds;
mod text;
mod tree;
mod value;

pub use conversion::{convert, value_text};
pub use number::{read_number, read_place, read_whole_number};
pub use octets::find_octet;
pub use paths::path;
pub use seconds::{parse_seconds, seconds_text};
pub use text::{NoMemory, Text, Words, copy_words};
pub use tree::json;
pub use value::{Format, Pairs, Value, ValueError, Values, copy_pairs, copy_values};
