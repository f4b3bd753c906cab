//! Reads and writes the parts of an EBML element (RFC 8794): IDs, data sizes, heads, unsigned
//! integers and texts. It takes octets and gives what `specs/Element` says stands there, or the
//! fault; what it writes is read back as what was handed in. `ids` is the one table of element IDs.
#![tactic(auto)]

pub mod ids;
mod law;
mod read;
mod whole;
mod write;

pub use law::{fitting_integers, written_parts};
pub use read::{
    Coded, EbmlError, Head, Size, read_coded, read_head, read_id, read_size, read_text, read_uint,
};
pub use whole::{WholeElement, read_element};
pub use write::{
    NoMemory, coded_len, head_len, uint_len, write_coded, write_element, write_head, write_text,
    write_uint,
};
