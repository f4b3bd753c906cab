//! What is new to watched properties.

ghost use Rattle.std.specs.Prelude.{◌≡◌, [], ◌∷◌, ◌++◌, IfOk, IsTrue, All, Option, Bool, true, false, length, map};
ghost use Rattle.std.specs.List.{list_any};
ghost use Rattle.mc_playlist.specs.Watches.{AnswersIfDue, IsSure, change_to, changes_of, given, is_due, news_of, noted};

use crate::facts::ListFacts;
use crate::meanings::ListMeaning;
use crate::reads::ListReads;
use crate::watched::{Changes, Watched};
use mc_props::{PropEntry, Reading};
use mc_value::NoMemory;
use sqlite_items::Items;
use std::alloc::Global;

/// What each watched property is to be given, if anything, and the changes that tell it.
#[derive(Drop)]
pub struct News {
    /// For each watched property, in order.
    pub readings: Items<Option<Reading>>,
    /// For those that are given something.
    pub changes: Changes,
}

impl News {
    fn new(alloc: Global) -> News
        ensures readings { result.readings ≡ [] }
        ensures changes { result.changes ≡ [] }
    {
        News {
            readings: Items::new(alloc),
            changes: Changes::new(alloc),
        }
    }
}

/// Whether a property has to be read where fields of a mask have changed.
pub fn is_any_due(watches: &[Watched], entries: &[PropEntry], mask: u32) -> bool
    ensures { result ≡ list_any (is_due entries.now mask) watches.now }
{
    watches.iter().any(|watched| watched.is_due(entries, mask))
}

/// Reads the properties that are due where fields of a mask have changed. The reader has to answer
/// for these alone, so no other is read.
pub fn read_due<F: ListReads<M>, M: ListMeaning>(
    alloc: Global,
    watches: &[Watched],
    entries: &[PropEntry],
    reader: &F,
    facts: &ListFacts,
    mask: u32,
) -> Result<News, NoMemory>
    requires answers { All (AnswersIfDue (F.answers reader.now) entries.now mask) watches.now }
    requires sure { All (IsSure M.value entries.now mask facts.now) watches.now }
    ensures readings { IfOk result (λ n. n.readings ≡ map (news_of M.value facts.now) watches.now) }
    ensures changes { IfOk result (λ n. n.changes ≡ changes_of M.value facts.now watches.now) }
{
    let mut news = News::new(alloc);
    for watched in watches {
        match news_of(watched, entries, reader, facts, mask)? {
            Some(reading) => {
                news.changes.push(watched.change(alloc, &reading)?)?;
                news.readings.push(Some(reading))?;
            }
            None => news.readings.push(None)?,
        }
    }
    Ok(news)
}

// What a property is to be given, if anything. It is not read unless it is due.
fn news_of<F: ListReads<M>, M: ListMeaning>(
    watched: &Watched,
    entries: &[PropEntry],
    reader: &F,
    facts: &ListFacts,
    mask: u32,
) -> Result<Option<Reading>, NoMemory>
    requires answers { AnswersIfDue (F.answers reader.now) entries.now mask watched.now }
    requires sure { IsSure M.value entries.now mask facts.now watched.now }
    ensures { IfOk result (λ o. o ≡ news_of M.value facts.now watched.now) }
{
    if !watched.is_due(entries, mask) {
        return Ok(None);
    }
    let reading = reader.read(watched.place, facts)?;
    if watched.was_given(&reading) {
        return Ok(None);
    }
    Ok(Some(reading))
}

/// Notes what the properties were given.
pub fn note(watches: &mut [Watched], readings: Items<Option<Reading>>)
    requires { length readings ≡ length watches.old }
    ensures { watches.new ≡ noted readings watches.old }
{
    let mut readings = readings;
    while let Some(reading) = readings.pop() {
        give(&mut watches[readings.len()], reading);
    }
}

// Notes what one is given, if anything.
fn give(watched: &mut Watched, reading: Option<Reading>)
    ensures { watched.new ≡ given watched.old reading }
{
    if let Some(reading) = reading {
        watched.given = Some(reading);
    }
}
