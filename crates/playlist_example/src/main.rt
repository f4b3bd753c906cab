//! A front end's property of its own, watched while a list of films changes: how many films are
//! left. The heart of it stands on the first page of `mc_playlist`.
#![tactic(auto)]

ghost use Rattle.std.specs.Prelude.{OnOk};
ghost use Rattle.mc_playlist.specs.Watches.{Current};
ghost use Rattle.playlist_example.specs.Left.{left_at};

mod shown;

use mc_playlist::{
    Change, ListFacts, ListMeaning, ListReads, ListStep, ListTable, Playlist, Watches, fields,
};
use mc_props::{PropEntries, PropEntry, Reading};
use mc_value::{Text, json};
use std::alloc::Global;
use std::io;

/// What the property means: it names `left_at` of `specs/Left.antt`.
#[derive(Drop)]
struct Left;

impl ListMeaning for Left {
    ghost use Rattle.playlist_example.specs.Left.{left_at};

    ghost value = { left_at };
}

fn main(rt: HostRuntime) -> io::Result<()> {
    let alloc = rt.alloc();
    show(
        &rt,
        alloc,
        |_place: u32, facts: &ListFacts| Ok(shown::left(facts)),
    )
}

fn show<F: ListReads<Left>>(rt: &HostRuntime, alloc: Global, reader: F) -> io::Result<()>
    requires { F.answers reader 0 }
{
    let mut entries = PropEntries::new(alloc);
    entries.push(PropEntry {
        name: Text::new(alloc, "left")?,
        mask: fields::NAMES | fields::POS,
        writable: false,
    })?;
    let table = ListTable::new(entries, reader);
    let mut list = Playlist::new(alloc);
    let mut watches = Watches::new(alloc);
    let _is_known = watches.watch(&table, "left").is_ok();
    let first = ListStep::Add(Text::new(alloc, "a.mkv")?);
    take(rt, alloc, &table, &mut list, &mut watches, first)?;
    let second = ListStep::Add(Text::new(alloc, "b.mkv")?);
    take(rt, alloc, &table, &mut list, &mut watches, second)?;
    take(rt, alloc, &table, &mut list, &mut watches, ListStep::Next)?;
    take(
        rt,
        alloc,
        &table,
        &mut list,
        &mut watches,
        ListStep::Move(1, 0),
    )?;
    take(
        rt,
        alloc,
        &table,
        &mut list,
        &mut watches,
        ListStep::Jump(2),
    )
}

// Does a step, and prints what then is new.
fn take<F: ListReads<Left>>(
    rt: &HostRuntime,
    alloc: Global,
    table: &ListTable<F, Left>,
    list: &mut Playlist,
    watches: &mut Watches,
    step: ListStep,
) -> io::Result<()>
    requires { Current left_at table.now list.old watches.old }
    ensures { OnOk result (Current left_at table.now list.new watches.new) }
{
    let fields = step.fields();
    if let Err(error) = list.step(step) {
        println!(rt; "refused: {error:?}")?;
    }
    let changes = watches.changes(table, list.facts(), fields)?;
    print(rt, alloc, changes.as_slice())
}

fn print(rt: &HostRuntime, alloc: Global, changes: &[Change]) -> io::Result<()> {
    for change in changes {
        if let Reading::Is(value) = &change.reading {
            println!(rt; "{} {}", change.name.as_str(), json(alloc, value)?.as_str())?;
        }
    }
    Ok(())
}
