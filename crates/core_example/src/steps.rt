use mc_core::{Core, CoreError};
use mc_dispatch::{Call, ClientNo};
use mc_packet::Choice;
use mc_player::{Answer, Order, Outcome};
use mc_props::Reads;
use mc_props::meanings::Standard;
use mc_ring::Event;
use mc_tracks::TrackList;
use mc_value::{Format, Text, Value};
use std::alloc::Global;
use std::fmt::Write;

// The numbers of the callers: the player itself, and the client.
const PLAYER: u32 = 1;

const CLIENT: u32 = 6;

/// The client's life, and what its polls give.
pub fn life<F: Reads<Standard>>(
    alloc: Global,
    core: &mut Core<F, Standard>,
    out: &mut String,
) -> Result<(), CoreError> {
    let c = core.create_client(CLIENT, Text::new(alloc, "a")?, 16)?;
    let name = Text::new(alloc, "pause")?;
    let format = Format::Flag;
    core.call(
        CLIENT,
        c,
        Call::Observe {
            id: 1,
            name,
            format,
        },
    )?;
    poll_all(core, c, out)?;
    work(alloc, core)?;
    let name = Text::new(alloc, "pause")?;
    let value = Value::Flag(true);
    core.call(CLIENT, c, Call::Set { id: 7, name, value })?;
    work(alloc, core)?;
    poll_all(core, c, out)?;
    core.destroy(CLIENT, c)
}

// The player works, and a file without tracks is opened where one is ordered.
fn work<F: Reads<Standard>>(alloc: Global, core: &mut Core<F, Standard>) -> Result<(), CoreError> {
    if core.order().is_some() {
        return Ok(());
    }
    core.work(PLAYER)?;
    let path = Text::new(alloc, "night.mkv")?;
    let tracks = TrackList::new(alloc);
    let set = Choice::NONE;
    match core.order() {
        Some(Order::Load) => core.done(PLAYER, Outcome::Loaded { path, tracks, set }),
        _ => Ok(()),
    }
}

// Polls until there is no event, at most as often as the ring is large.
fn poll_all<F: Reads<Standard>>(
    core: &mut Core<F, Standard>,
    c: ClientNo,
    out: &mut String,
) -> Result<(), CoreError> {
    for _ in 0..16 {
        match core.call(CLIENT, c, Call::Poll)? {
            Answer::Event(Event::None) => return Ok(()),
            Answer::Event(event) => push_event(out, &event)?,
            _ => {}
        }
    }
    Ok(())
}

fn push_event(out: &mut String, event: &Event) -> Result<(), CoreError> {
    match event {
        Event::Change {
            id,
            value: Value::Flag(paused),
            ..
        } => writeln!(out, "change of {id}: {paused}")?,
        Event::SetReply { id, error } => writeln!(out, "reply to {id}: {error}")?,
        other => writeln!(out, "event {}", other.number())?,
    }
    Ok(())
}
