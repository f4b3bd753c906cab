// What the program prints of the lock and of the board: the same at every run.
use crate::cell::place_in_film;
use crate::demux_cell;
use crate::log::Log;
use crate::names::Unnamed;
use crate::settings::set_alone;
use crate::team::{Team, fill, fill_alone};
use crate::watch::{beside, look_thrice};
use crate::writers::write_both;
use mc_packet::Status;
use mc_turn::Kept;
use mc_value::Value;
use std::alloc::Global;
use std::io;
use std::sync::Wait;
use std::thread::Threads;

/// Eight workers with a thousand turns each.
pub fn team<R: Threads + Wait + Sync + Print>(rt: &R, alloc: Global) -> io::Result<()> {
    let (log, all) = fill(rt, alloc, Team::Eight, 1000)?;
    let count = log.length();
    let in_order = (0..8u32).all(|number| log.is_in_order(number));
    println!(rt; "{count} turns, all of them: {all}, each number's in order: {in_order}")
}

fn show_items<R: Print>(rt: &R, log: &Log, caller: u32) -> io::Result<()> {
    for entry in log.entries() {
        if entry.caller == caller {
            let item = entry.item;
            println!(rt; "caller {caller} added {item}")?;
        }
    }
    Ok(())
}

/// Two callers with two items each.
pub fn writers<R: Threads + Wait + Sync + Print>(rt: &R, alloc: Global) -> io::Result<()> {
    let (log, numbers) = write_both(rt, alloc, 5, 7, 9)?;
    let count = log.length();
    println!(rt; "{numbers} callers added {count} items")?;
    show_items(rt, &log, 0)?;
    show_items(rt, &log, 1)
}

/// One caller by itself: under a lock round a log, round settings, and round a cell that borrows.
pub fn alone<R: Wait + Print>(rt: &R, alloc: Global) -> io::Result<()> {
    let (log, all) = fill_alone(rt, alloc, 3)?;
    let items = log.length();
    let settings = set_alone(rt, alloc, Value::Int(7))?.length();
    let places = place_in_film::<Unnamed, R>(rt, alloc, 12)?.length();
    println!(rt; "alone: {items} items, all of them: {all}, {settings} value, {places} place")
}

/// A board with a thousand posts.
pub fn board<R: Threads + Wait + Sync + Print>(rt: &R, alloc: Global) -> io::Result<()> {
    let seq = beside(rt, alloc, 1000, 1000, false)?.seq;
    println!(rt; "the board shows {seq}")
}

fn show_status<R: Print>(rt: &R, status: Status) -> io::Result<()> {
    let Status {
        seq,
        forward,
        back,
        flags,
    } = status;
    println!(rt; "a look shows {seq} {forward} {back} {flags}")
}

/// A board with two statuses, and what two passes see of it.
pub fn looks<R: Wait + Print>(rt: &R, alloc: Global) -> io::Result<()> {
    let first = Status {
        seq: 0,
        forward: 10,
        back: 20,
        flags: 256,
    };
    let second = Status {
        seq: 4,
        forward: 1 << 40,
        back: u64::MAX,
        flags: 513,
    };
    let (one, two, three) = look_thrice(rt, alloc, first, second)?;
    show_status(rt, one)?;
    show_status(rt, two)?;
    show_status(rt, three)
}

/// A demuxer under one caller, and under two beside each other: each call leaves a record.
pub fn demuxes<R: Threads + Wait + Sync + Print>(rt: &R, alloc: Global) -> io::Result<()> {
    let alone = demux_cell::alone(rt, alloc, 1000)?.length();
    let both = demux_cell::both(rt, alloc, 1000)?.length();
    println!(rt; "demuxers of one caller and of two: {alone} and {both} records")
}
