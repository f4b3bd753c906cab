//! What both cores are asked: views, names and requests.
use mc_dispatch::Call;
use mc_packet::{CacheView, RangeView, RangeViews, Spans};
use mc_value::{Format, NoMemory, Text, Value};
use std::alloc::Global;

/// How many events a client's ring holds.
pub const SIZE: u32 = 16;

/// The properties that ten observers have, one has the first of, and twenty have twice.
pub const NAMES: [&str; 10] = [
    "eof-reached",
    "pause",
    "mute",
    "time-pos",
    "path",
    "filename",
    "idle-active",
    "seekable",
    "vid",
    "aid",
];

/// The format of all observers.
pub const FORMAT: Format = Format::Node;

/// The view of a cache of one range, which has ended or not.
pub fn view(alloc: Global, ended: bool) -> Result<CacheView, NoMemory> {
    let mut ranges = RangeViews::new(alloc);
    ranges.push(RangeView {
        bounds: Some((0, 5_000_000_000)),
        spans: Spans {
            video: None,
            audio: None,
            sub: None,
        },
    })?;
    Ok(CacheView {
        ranges,
        forward: 1000,
        back: 0,
        bof: true,
        ending: None,
        time: Some(0),
        playing: true,
        ended,
    })
}

/// The request of a number: the player is to pause, or to go on.
pub fn request(alloc: Global, number: u32) -> Result<Call, NoMemory> {
    Ok(Call::Set {
        id: number as u64,
        name: Text::new(alloc, "pause")?,
        value: Value::Flag(number % 2 == 0),
    })
}

/// A request that changes nothing.
pub fn question(alloc: Global, number: u32) -> Result<Call, NoMemory> {
    Ok(Call::Get {
        id: number as u64,
        name: Text::new(alloc, "mute")?,
        format: FORMAT,
    })
}
