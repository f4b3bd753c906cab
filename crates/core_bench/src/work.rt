//! The exchanges with the core.
use crate::script::{FORMAT, NAMES, SIZE, question, request, view};
use mc_core::{Core, CoreError};
use mc_dispatch::{Call, ClientNo};
use mc_packet::Choice;
use mc_player::{Answer, Order, Outcome};
use mc_props::Reads;
use mc_props::meanings::Standard;
use mc_ring::Event;
use mc_tracks::TrackList;
use mc_value::Text;
use std::alloc::Global;
use std::fmt::Write;

// The number of the caller.
const BY: u32 = 1;

// The first client, in a core that nobody has left.
const FIRST: ClientNo = ClientNo(0);

// Polls until there is no event, at most as often as a client can have some.
fn poll_all<F: Reads<Standard>>(
    core: &mut Core<F, Standard>,
    c: ClientNo,
) -> Result<(), CoreError> {
    for _ in 0..100 {
        if let Answer::Event(Event::None) = core.call(BY, c, Call::Poll)? {
            return Ok(());
        }
    }
    Ok(())
}

fn join<F: Reads<Standard>>(
    alloc: Global,
    core: &mut Core<F, Standard>,
    number: u32,
    observers: usize,
) -> Result<(), CoreError> {
    let mut name = String::new(alloc);
    write!(name, "client {number}")?;
    let c = core.create_client(BY, Text::new(alloc, name.as_str())?, SIZE)?;
    for (id, name) in NAMES.iter().cycle().take(observers).enumerate() {
        let id = id as u64;
        let name = Text::new(alloc, name)?;
        let format = FORMAT;
        core.call(BY, c, Call::Observe { id, name, format })?;
    }
    poll_all(core, c)
}

// A file without tracks is opened.
fn open<F: Reads<Standard>>(alloc: Global, core: &mut Core<F, Standard>) -> Result<(), CoreError> {
    if core.order().is_none() {
        core.work(BY)?;
    }
    let path = Text::new(alloc, "night.mkv")?;
    let tracks = TrackList::new(alloc);
    let set = Choice::NONE;
    if let Some(Order::Load) = core.order() {
        core.done(BY, Outcome::Loaded { path, tracks, set })?;
    }
    core.learn(BY, view(alloc, false)?)
}

/// A file is opened, and so many clients come, of so many observers each, which are told what they
/// have. Then the first polls in vain until the journal has so many records.
pub fn begin<F: Reads<Standard>>(
    alloc: Global,
    core: &mut Core<F, Standard>,
    clients: u32,
    observers: usize,
    records: usize,
) -> Result<(), CoreError> {
    open(alloc, core)?;
    for number in 0..clients {
        join(alloc, core, number, observers)?;
    }
    let more = records.saturating_sub(core.journal().len());
    for _ in 0..more {
        core.call(BY, FIRST, Call::Poll)?;
    }
    Ok(())
}

fn work<F: Reads<Standard>>(core: &mut Core<F, Standard>) -> Result<(), CoreError> {
    if core.order().is_none() {
        core.work(BY)?;
    }
    Ok(())
}

/// So many requests, each asked, worked, and its reply polled. It answers how many replies came.
pub fn ask<F: Reads<Standard>>(
    alloc: Global,
    core: &mut Core<F, Standard>,
    count: u32,
) -> Result<u32, CoreError> {
    let mut replies = 0_u32;
    for number in 0..count {
        core.call(BY, FIRST, request(alloc, number)?)?;
        work(core)?;
        if let Answer::Event(Event::SetReply { .. }) = core.call(BY, FIRST, Call::Poll)? {
            replies = replies.saturating_add(1);
        }
    }
    Ok(replies)
}

/// So many questions, each asked, worked, and its reply polled. It answers how many replies came.
pub fn question_all<F: Reads<Standard>>(
    alloc: Global,
    core: &mut Core<F, Standard>,
    count: u32,
) -> Result<u32, CoreError> {
    let mut replies = 0_u32;
    for number in 0..count {
        core.call(BY, FIRST, question(alloc, number)?)?;
        work(core)?;
        if let Answer::Event(Event::GetReply { .. }) = core.call(BY, FIRST, Call::Poll)? {
            replies = replies.saturating_add(1);
        }
    }
    Ok(replies)
}

/// So many views, of each of which an observer has another value. It answers how many changes came.
pub fn change<F: Reads<Standard>>(
    alloc: Global,
    core: &mut Core<F, Standard>,
    count: u32,
) -> Result<u32, CoreError> {
    let mut changes = 0_u32;
    for number in 0..count {
        core.learn(BY, view(alloc, number % 2 == 0)?)?;
        if let Answer::Event(Event::Change { .. }) = core.call(BY, FIRST, Call::Poll)? {
            changes = changes.saturating_add(1);
        }
    }
    Ok(changes)
}

/// So many views that are as the one before.
pub fn learn<F: Reads<Standard>>(
    alloc: Global,
    core: &mut Core<F, Standard>,
    count: u32,
) -> Result<u32, CoreError> {
    for _ in 0..count {
        core.learn(BY, view(alloc, false)?)?;
    }
    Ok(count)
}
