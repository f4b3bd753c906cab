use mc_ipc::{IpcCall, LineCut, event_line, parse_line, reply_line};
use mc_ring::Event;
use mc_value::{Format, NoMemory, Text, Value};
use serde_json::Value as Json;
use std::alloc::{AllocError, Global};

// Lines that front ends send.
const LINES: [&str; 6] = [
    "{\"command\":[\"get_property\",\"time-pos\"],\"request_id\":7}",
    "{\"command\":[\"set_property\",\"pause\",true],\"request_id\":8}",
    "{\"command\":[\"observe_property\",1,\"demuxer-cache-state\"],\"request_id\":9}",
    "{\"command\":[\"seek\",\"-10\",\"relative+keyframes\"],\"request_id\":10}",
    "{ \"command\": [\"script-message\", \"show\", \"a b c\"], \"async\": true }",
    "{\"command\":[\"client_name\"],\"request_id\":12}",
];

fn line_at(number: u32) -> &'static str {
    LINES[(number % 6) as usize]
}

/// Parses so many lines, and says how many were calls.
pub fn parse(alloc: Global, count: u32) -> Result<u32, NoMemory> {
    let mut calls = 0u32;
    for number in 0..count {
        match parse_line(alloc, line_at(number).as_bytes())? {
            IpcCall::Core { .. } | IpcCall::Name { .. } => calls = calls.saturating_add(1),
            IpcCall::Bad { .. } | IpcCall::Skip => {}
        }
    }
    Ok(calls)
}

/// Reads the same lines as JSON values, and says how many are objects.
pub fn read_values(alloc: Global, count: u32) -> Result<u32, NoMemory> {
    let mut objects = 0u32;
    for number in 0..count {
        match Json::from_slice(alloc, line_at(number).as_bytes()) {
            Ok(json) => objects = objects.saturating_add(json.is_object() as u32),
            Err(_) => return Err(AllocError),
        }
    }
    Ok(objects)
}

/// Writes so many replies, and says how many have text.
pub fn reply(alloc: Global, count: u32) -> Result<u32, NoMemory> {
    let value = Value::Flag(true);
    let mut written = 0u32;
    for number in 0..count {
        let line = reply_line(alloc, number as u64, 0, Some(&value))?;
        written = written.saturating_add(!line.as_str().is_empty() as u32);
    }
    Ok(written)
}

/// Writes the lines of so many changes of one property, and says how many have text.
pub fn tell_changes(alloc: Global, count: u32) -> Result<u32, NoMemory> {
    let mut written = 0u32;
    for _ in 0..count {
        written = written.saturating_add(tell_change(alloc)?);
    }
    Ok(written)
}

fn tell_change(alloc: Global) -> Result<u32, NoMemory> {
    let line = event_line(
        alloc,
        &Event::Change {
            id: 1,
            name: Text::new(alloc, "pause")?,
            format: Format::Node,
            value: Value::Flag(true),
        },
    )?;
    Ok(!line.as_str().is_empty() as u32)
}

/// Cuts so many lines, each of which comes as one piece with its LF.
pub fn cut(alloc: Global, count: u32) -> Result<u32, NoMemory> {
    let mut cut = LineCut::new(alloc);
    let mut lines = 0u32;
    for number in 0..count {
        cut.feed(alloc, line_at(number).as_bytes())?;
        let fed = cut.feed(alloc, b"\n")?;
        lines = lines.saturating_add(!fed.lines.is_empty() as u32);
    }
    Ok(lines)
}
