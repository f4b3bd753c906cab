//! Takes blocks of a Matroska film apart into packets (RFC 9559, sections 10.2 and 10.3), and
//! writes plain ones. It takes the body of a SimpleBlock or a BlockGroup and its place in the film,
//! and gives the packets that `specs/Block` and `specs/Frames` say it holds, or the first fault.
#![tactic(auto)]

mod body;
mod error;
mod group;
mod lace;
mod lace_reader;
mod law;
mod packets;
mod parts;
mod sizes;
mod times;
mod write;

pub use body::{block_head, block_track, simple_body};
pub use error::BlockError;
pub use group::{GroupParts, child_by_head, group_body};
pub use lace::{frames, is_laced};
pub use lace_reader::LaceReader;
pub use law::{packets_of_blocks, plain_blocks};
pub use packets::{block_packets, is_key, parse_block, parse_group};
pub use parts::{BlockBody, BlockHead, FrameSpans, Place};
pub use times::frame_time;
pub use write::{block_len, write_simple_block};
