//! A client's observers, in order of observing.

ghost use Rattle.std.specs.Prelude.{◌≡◌, ◌<◌, ◌+◌, ◌++◌, ◌∷◌, ℕ, IfOk, OnErr, Option, Bool, false, All, List, map, take, drop, length, slice_get};
ghost use Rattle.mc_client.specs.Polls.{Finds, IsNews, WatchesPolled, WouldTell, told_at};
ghost use Rattle.mc_client.specs.Watches.{Fresh, IsPlaced, IsSettled, IsSure, cleared, flagged_for, present};
ghost use Rattle.mc_client.specs.declared.watch.Watch.{Watch};

use crate::watch::Watch;
use mc_props::meanings::Meaning;
use mc_props::{Facts, PropTable, Reads};
use mc_ring::Event;
use mc_value::{Format, NoMemory, Value};
use std::alloc::Global;

/// The place of an observer, and the format and the value that it has now.
#[derive(Debug, Drop)]
pub struct Changed {
    /// The observer's place.
    pub place: usize,
    /// The format and the value that it has.
    pub shown: (Format, Value),
}

/// The first observer that was last given something else than it has now.
pub fn first_changed<F: Reads<M>, M: Meaning>(
    watches: &[Watch],
    table: &PropTable<F, M>,
    facts: &Facts,
) -> Result<Option<Changed>, NoMemory>
    requires { Fresh M.value table.now facts.now watches.now }
    ensures { IfOk result (λ c. Finds (present M.value facts.now) watches.now c) }
{
    for (place, watch) in watches.iter().enumerate() {
        if let Some(shown) = news(watch, table, facts)? {
            return Ok(Some(Changed { place, shown }));
        }
    }
    Ok(None)
}

/// What an observer has now, if it was last given something else.
fn news<F: Reads<M>, M: Meaning>(
    watch: &Watch,
    table: &PropTable<F, M>,
    facts: &Facts,
) -> Result<Option<(Format, Value)>, NoMemory>
    requires placed { IsPlaced table.now watch.now }
    requires sure { IsSure (present M.value facts.now) watch.now }
    ensures { IfOk result (λ o. IsNews (present M.value facts.now) watch.now o) }
{
    if !watch.flagged {
        return Ok(None);
    }
    let shown = table.present(watch.entry, watch.name.as_str(), watch.format, facts)?;
    if watch.was_given(&shown) {
        return Ok(None);
    }
    Ok(Some(shown))
}

/// The event that tells the first observer that was last given something else than it has now, or
/// `None` if there is none. Nothing changes.
pub fn next_change<F: Reads<M>, M: Meaning>(
    alloc: Global,
    watches: &[Watch],
    table: &PropTable<F, M>,
    facts: &Facts,
) -> Result<Event, NoMemory>
    requires { Fresh M.value table.now facts.now watches.now }
    ensures { IfOk result (λ e. WouldTell (present M.value facts.now) watches.now e) }
{
    match first_changed(watches, table, facts)? {
        Some(changed) => watches[changed.place].change(alloc, &changed.shown),
        None => Ok(Event::None),
    }
}

/// The same event, which the observer is then given; those that were read lose their flags.
pub fn poll_watches<F: Reads<M>, M: Meaning>(
    alloc: Global,
    watches: &mut [Watch],
    table: &PropTable<F, M>,
    facts: &Facts,
) -> Result<Event, NoMemory>
    requires { Fresh M.value table.now facts.now watches.old }
    ensures value { IfOk result
        (λ e. WatchesPolled (present M.value facts.now) watches.old e watches.new) }
    ensures err { OnErr result (watches.new ≡ watches.old) }
{
    match first_changed(watches, table, facts)? {
        Some(changed) => {
            let event = watches[changed.place].change(alloc, &changed.shown)?;
            tell(watches, changed);
            Ok(event)
        }
        None => {
            clear_flags(watches);
            Ok(Event::None)
        }
    }
}

/// Notes that the fields of a mask have changed.
pub fn flag_watches<F: Reads<M>, M: Meaning>(
    watches: &mut [Watch],
    table: &PropTable<F, M>,
    mask: u32,
)
    requires { All (IsPlaced table.now) watches.old }
    ensures { watches.new ≡ map (flagged_for table.now mask) watches.old }
{
    for watch in watches.iter_mut() {
        flag_watch(watch, table, mask);
    }
}

fn flag_watch<F: Reads<M>, M: Meaning>(watch: &mut Watch, table: &PropTable<F, M>, mask: u32)
    requires { IsPlaced table.now watch.old }
    ensures { watch.new ≡ flagged_for table.now mask watch.old }
{
    if let Some(entry) = watch.entry {
        if table.affected(entry, mask) {
            watch.flagged = true;
        }
    }
}

/// Notes that the observers were read.
pub fn clear_flags(watches: &mut [Watch])
    ensures { watches.new ≡ map cleared watches.old }
{
    for watch in watches.iter_mut() {
        watch.flagged = false;
    }
}

/// Notes that the observers before a place were read, and what the one there is given.
pub fn tell(watches: &mut [Watch], changed: Changed)
    requires { changed.place < length watches.old }
    ensures { (w : Watch) → slice_get watches.old changed.place ≡ Option.Some w
        → watches.new ≡ told_at watches.old changed.place w changed.shown }
{
    let (before, rest) = watches.split_at_mut(changed.place);
    clear_flags(before);
    if let [watch, ..] = rest {
        watch.flagged = false;
        watch.given = Some(changed.shown);
    }
}
