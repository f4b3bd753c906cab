ghost use Rattle.std.specs.Prelude.{◌≡◌, IfOk, map};
ghost use Rattle.mc_playlist.specs.Table.{AreEntries};
ghost use Rattle.playlist_bench.specs.Properties.{count_at, entry_of, twenty};

use mc_playlist::{ListFacts, ListMeaning, fields};
use mc_props::{PropEntries, PropEntry, Reading};
use mc_value::{NoMemory, Text, Value};
use std::alloc::Global;

/// What each property means: it names `count_at` of `specs/Properties.antt`.
#[derive(Drop)]
pub struct Counted;

impl ListMeaning for Counted {
    ghost use Rattle.playlist_bench.specs.Properties.{count_at};

    ghost value = { count_at };
}

/// How many films there are.
pub fn count(facts: &ListFacts) -> Reading
    ensures { result ≡ count_at 0 facts.now }
{
    let count = facts.names.as_slice().len();
    Reading::Is(Value::Int(count.min(i64::MAX as usize) as i64))
}

fn entry(alloc: Global, name: &str) -> Result<PropEntry, NoMemory>
    ensures { IfOk result (λ e. e ≡ entry_of name.now) }
{
    Ok(PropEntry {
        name: Text::new(alloc, name)?,
        mask: fields::NAMES,
        writable: false,
    })
}

fn entries_named(alloc: Global, names: &[&str]) -> Result<PropEntries, NoMemory>
    ensures { IfOk result (λ es. es ≡ map (λ n. entry_of n.now) names.now) }
{
    let mut entries = PropEntries::new(alloc);
    for name in names {
        entries.push(entry(alloc, name)?)?;
    }
    Ok(entries)
}

/// Twenty properties, the names of which are the letters from `a` on.
#[tactic(auto, using(crate::proofs::Fitting::fit))]
pub fn entries(alloc: Global) -> Result<PropEntries, NoMemory>
    ensures value { IfOk result (λ es. es ≡ twenty) }
    ensures fit { IfOk result (λ es. AreEntries count_at es) }
{
    entries_named(
        alloc,
        &[
            "a", "b", "c", "d", "e", "f", "g", "h", "i", "j", "k", "l", "m", "n", "o", "p", "q",
            "r", "s", "t",
        ],
    )
}
