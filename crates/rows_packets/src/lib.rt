//! The words of a demuxer as arguments of a row, and as answers (the form of a row is told on the
//! first page of `rows`). A track is its number; a choice is the tracks of video, audio and subtitles,
//! each a number or `null`; a place is its block and its lane, `[86,0]`; starts and heads are a block of
//! each kind, or `null`; a packet is its track, its block, its time in nanoseconds and whether it is a
//! sync point, `[1,86,0,true]`. In answers a place is `86.0`, and what is not there is `none`.
#![tactic(auto)]

mod answers;
mod packets;
mod places;

pub use answers::{push_choice, push_ending, push_heads, push_place, push_span, push_time};
pub use packets::{ending_in, is_light, packet_in, packets_in};
pub use places::{
    at, block_in, choice_in, dir_in, heads_in, kind_in, mark_at, nanos_in, place_in, starts_in,
    track_in,
};
