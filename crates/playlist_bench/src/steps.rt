use crate::tell;
use mc_playlist::{ListStep, NoMemory, Playlist};
use mc_value::Text;
use std::alloc::Global;
use std::io;
use std::time::{Clock, Instant};

// How often steps are done that take as long as the list is.
const SOME: u32 = 50;

// Does a step so often, and says how often it wasn't refused.
fn repeat(list: &mut Playlist, count: u32, step: &ListStep) -> Result<u32, NoMemory> {
    let mut done = 0u32;
    for _ in 0..count {
        done = done.saturating_add(list.step(step.copy()?).is_ok() as u32);
    }
    Ok(done)
}

fn time<R: Print + Clock>(
    rt: &R,
    list: &mut Playlist,
    what: &str,
    count: u32,
    step: &ListStep,
    is_timed: bool,
) -> io::Result<()> {
    let start = Instant::now(rt)?;
    let done = repeat(list, count, step)?;
    tell(rt, what, done, start, is_timed)
}

fn fill(alloc: Global, list: &mut Playlist, entries: u32) -> Result<u32, NoMemory> {
    let mut done = 0u32;
    for number in 0..entries {
        let name = Text::from_string(format!(in alloc; "films/film-{number}.mkv")?);
        done = done.saturating_add(list.step(ListStep::Add(name)).is_ok() as u32);
    }
    Ok(done)
}

/// Adds so many names.
pub fn add<R: Print + Clock>(
    rt: &R,
    alloc: Global,
    list: &mut Playlist,
    what: &str,
    entries: u32,
    is_timed: bool,
) -> io::Result<()> {
    let start = Instant::now(rt)?;
    let done = fill(alloc, list, entries)?;
    tell(rt, what, done, start, is_timed)
}

/// Goes through so many entries.
pub fn go<R: Print + Clock>(
    rt: &R,
    list: &mut Playlist,
    entries: u32,
    is_timed: bool,
) -> io::Result<()> {
    time(rt, list, "jump", entries, &ListStep::Jump(0), is_timed)?;
    time(rt, list, "next", entries, &ListStep::Next, is_timed)?;
    time(rt, list, "prev", entries, &ListStep::Prev, is_timed)?;
    time(rt, list, "played", entries, &ListStep::Played, is_timed)
}

/// Moves entries from one end of so many to the other.
pub fn order<R: Print + Clock>(
    rt: &R,
    list: &mut Playlist,
    entries: u32,
    is_timed: bool,
) -> io::Result<()> {
    let last = entries.saturating_sub(1);
    let to_end = ListStep::Move(0, entries);
    time(
        rt,
        list,
        "move, the first to the end",
        SOME,
        &to_end,
        is_timed,
    )?;
    let to_front = ListStep::Move(last, 0);
    time(
        rt,
        list,
        "move, the last to the front",
        SOME,
        &to_front,
        is_timed,
    )
}

/// Takes some of the first entries out.
pub fn take_out<R: Print + Clock>(rt: &R, list: &mut Playlist, is_timed: bool) -> io::Result<()> {
    time(
        rt,
        list,
        "remove, the first",
        SOME,
        &ListStep::Remove(0),
        is_timed,
    )
}

/// Takes all entries out: of the list as it is, of a fifth of so many added behind that, and of so
/// many where one is the list's place.
pub fn clear<R: Print + Clock>(
    rt: &R,
    alloc: Global,
    list: &mut Playlist,
    entries: u32,
    is_timed: bool,
) -> io::Result<()> {
    let clear = ListStep::Clear;
    time(rt, list, "clear", 1, &clear, is_timed)?;
    add(
        rt,
        alloc,
        list,
        "add, behind a clear",
        entries / 5,
        is_timed,
    )?;
    time(rt, list, "clear, soon behind a clear", 1, &clear, is_timed)?;
    fill(alloc, list, entries)?;
    repeat(list, 1, &ListStep::Jump(0))?;
    time(rt, list, "clear, with a place", 1, &clear, is_timed)
}
