ghost use Rattle.std.specs.Prelude.{◌<◌, ℕ, OnOk};
ghost use Rattle.mc_playlist.specs.Watches.{Current};
ghost use Rattle.playlist_bench.specs.Properties.{count_at};

use crate::properties::{Counted, entries};
use crate::tell;
use mc_playlist::{ListFacts, ListReads, ListTable, NoMemory, Playlist, Watches, fields};
use std::alloc::Global;
use std::io;
use std::time::{Clock, Instant};

// How often it is asked what is new.
const ROUNDS: u32 = 1000;

// Watches each property of a table.
fn watch_all<F: ListReads<Counted>>(
    table: &ListTable<F, Counted>,
    facts: &ListFacts,
    watches: &mut Watches,
) -> u32
    requires { Current count_at table.now facts.now watches.old }
    ensures { Current count_at table.now facts.now watches.new }
{
    let mut watched = 0u32;
    for entry in table.entries() {
        let is_watched = watches.watch(table, entry.name.as_str()).is_ok();
        watched = watched.saturating_add(is_watched as u32);
    }
    watched
}

// Asks so often what is new where fields of a mask may have changed, and says how much was.
fn look<F: ListReads<Counted>>(
    table: &ListTable<F, Counted>,
    facts: &ListFacts,
    watches: &mut Watches,
    mask: u32,
    rounds: u32,
) -> Result<u32, NoMemory>
    requires { Current count_at table.now facts.now watches.old }
    ensures { OnOk result (Current count_at table.now facts.now watches.new) }
{
    let mut told = 0u32;
    for _ in 0..rounds {
        let changes = watches.changes(table, facts, mask)?;
        told = told.saturating_add(changes.len().min(u32::MAX as usize) as u32);
    }
    Ok(told)
}

/// Watches twenty properties of a list, and asks what is new: once, and often where nothing is.
pub fn watch<R: Print + Clock, F: ListReads<Counted>>(
    rt: &R,
    alloc: Global,
    list: &Playlist,
    reader: F,
    is_timed: bool,
) -> io::Result<()>
    requires { (place : ℕ) → place < 20 → F.answers reader place }
{
    let table = ListTable::new(entries(alloc)?, reader);
    let mut watches = Watches::new(alloc);
    let start = Instant::now(rt)?;
    let watched = watch_all(&table, list.facts(), &mut watches);
    tell(rt, "watch", watched, start, is_timed)?;
    let start = Instant::now(rt)?;
    let told = look(&table, list.facts(), &mut watches, 0, 1)?;
    tell(rt, "first changes of all", told, start, is_timed)?;
    let start = Instant::now(rt)?;
    let told = look(&table, list.facts(), &mut watches, fields::POS, ROUNDS)?;
    tell(rt, "changes, none of them read", ROUNDS, start, is_timed)?;
    let start = Instant::now(rt)?;
    let again = look(&table, list.facts(), &mut watches, fields::NAMES, ROUNDS)?;
    tell(rt, "changes, all of them read", ROUNDS, start, is_timed)?;
    println!(rt; "told: {}", told.saturating_add(again))
}
