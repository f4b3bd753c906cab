//! The exchanges with the plain core.
use crate::plain::Plain;
use crate::script::{FORMAT, NAMES, SIZE, question, request, view};
use mc_ring::Event;
use mc_value::{NoMemory, Text};
use std::alloc::Global;

/// A core with so many clients of so many observers each, which were told what they have.
pub fn begin(alloc: Global, clients: u32, observers: usize) -> Result<Plain, NoMemory> {
    let mut core = Plain::new(alloc, view(alloc, false)?);
    for _ in 0..clients {
        let at = core.create_client(SIZE as usize)?;
        for (id, name) in NAMES.iter().cycle().take(observers).enumerate() {
            core.observe(at, id as u64, Text::new(alloc, name)?, FORMAT)?;
        }
        for _ in 0..observers {
            core.poll(at)?;
        }
    }
    Ok(core)
}

/// So many requests, each asked, worked, and its reply polled. It answers how many replies came.
pub fn ask(alloc: Global, core: &mut Plain, count: u32) -> Result<u32, NoMemory> {
    let mut replies = 0_u32;
    for number in 0..count {
        core.ask(0, request(alloc, number)?)?;
        core.work()?;
        if let Event::SetReply { .. } = core.poll(0)? {
            replies = replies.saturating_add(1);
        }
    }
    Ok(replies)
}

/// So many questions, each asked, worked, and its reply polled. It answers how many replies came.
pub fn question_all(alloc: Global, core: &mut Plain, count: u32) -> Result<u32, NoMemory> {
    let mut replies = 0_u32;
    for number in 0..count {
        core.ask(0, question(alloc, number)?)?;
        core.work()?;
        if let Event::GetReply { .. } = core.poll(0)? {
            replies = replies.saturating_add(1);
        }
    }
    Ok(replies)
}

/// So many views, of each of which an observer has another value. It answers how many changes came.
pub fn change(alloc: Global, core: &mut Plain, count: u32) -> Result<u32, NoMemory> {
    let mut changes = 0_u32;
    for number in 0..count {
        core.learn(view(alloc, number % 2 == 0)?);
        if let Event::Change { .. } = core.poll(0)? {
            changes = changes.saturating_add(1);
        }
    }
    Ok(changes)
}

/// So many views that are as the one before.
pub fn learn(alloc: Global, core: &mut Plain, count: u32) -> Result<u32, NoMemory> {
    for _ in 0..count {
        core.learn(view(alloc, false)?);
    }
    Ok(count)
}
