ghost use Rattle.std.specs.Prelude.{◌≡◌, IfOk};
ghost use Rattle.mc_playlist.specs.Table.{AreEntries};
ghost use Rattle.playlist_rows.specs.Own.{entry_of, entry_value, entry_values, is_at, left_behind, number_value, own_of, own_table, pos_value};

use mc_playlist::{ListFacts, ListMeaning, fields};
use mc_props::{PropEntries, PropEntry, Reading};
use mc_value::{NoMemory, Pairs, Text, Value, Values};
use std::alloc::Global;

/// Properties of a list after mpv's manual, and how many entries are left, which is this front
/// end's own.
#[derive(Drop)]
pub struct Own;

impl ListMeaning for Own {
    ghost use Rattle.playlist_rows.specs.Own.{own_of};

    ghost value = { own_of };
}

/// Their entries.
#[tactic(auto, using(crate::proofs::Fitting::own_fits))]
pub fn own_entries(alloc: Global) -> Result<PropEntries, NoMemory>
    ensures value { IfOk result (λ es. es ≡ own_table) }
    ensures fit { IfOk result (λ es. AreEntries own_of es) }
{
    let mut entries = PropEntries::new(alloc);
    entries.push(entry(alloc, "playlist-count", fields::NAMES)?)?;
    entries.push(entry(alloc, "playlist-pos", fields::POS)?)?;
    entries.push(entry(alloc, "playlist", fields::NAMES | fields::POS)?)?;
    entries.push(entry(alloc, "playlist-left", fields::NAMES | fields::POS)?)?;
    Ok(entries)
}

fn entry(alloc: Global, name: &str, mask: u32) -> Result<PropEntry, NoMemory>
    ensures { IfOk result (λ e. e ≡ entry_of name.now mask) }
{
    Ok(PropEntry {
        name: Text::new(alloc, name)?,
        mask,
        writable: false,
    })
}

/// What the property at a place shows.
pub fn show(alloc: Global, place: u32, facts: &ListFacts) -> Result<Reading, NoMemory>
    ensures { IfOk result (λ r. r ≡ own_of place facts.now) }
{
    let names = facts.names.as_slice();
    match place {
        0 => Ok(Reading::Is(number_value(names.len()))),
        1 => Ok(Reading::Is(pos_value(facts.pos))),
        2 => Ok(Reading::Is(Value::Array(entry_values(alloc, facts.pos, names)?))),
        3 => Ok(Reading::Is(number_value(left_behind(facts.pos, names.len())))),
        _ => Ok(Reading::Unavailable),
    }
}

// A number as a value, as far as an `i64` holds it.
fn number_value(number: usize) -> Value
    ensures { result ≡ number_value number }
{
    Value::Int(number.min(i64::MAX as usize) as i64)
}

// The list's place, or -1.
fn pos_value(pos: Option<u32>) -> Value
    ensures { result ≡ pos_value pos }
{
    match pos {
        Some(pos) => number_value(pos as usize),
        None => Value::Int(-1),
    }
}

fn entry_values(alloc: Global, pos: Option<u32>, names: &[Text]) -> Result<Values, NoMemory>
    ensures { IfOk result (λ vs. vs ≡ entry_values 0 pos names.now) }
{
    let mut values = Values::new(alloc);
    for (place, name) in names.iter().enumerate() {
        values.push(entry_value(alloc, name.as_str(), is_at(pos, place))?)?;
    }
    Ok(values)
}

fn is_at(pos: Option<u32>, place: usize) -> bool
    ensures { result ≡ is_at pos place }
{
    match pos {
        Some(pos) => pos as usize == place,
        None => false,
    }
}

fn entry_value(alloc: Global, name: &str, current: bool) -> Result<Value, NoMemory>
    ensures { IfOk result (λ v. v ≡ entry_value name.now current) }
{
    let mut pairs = Pairs::new(alloc);
    let name = Value::Str(Text::new(alloc, name)?);
    pairs.push((Text::new(alloc, "filename")?, name))?;
    pairs.push((Text::new(alloc, "current")?, Value::Flag(current)))?;
    Ok(Value::Map(pairs))
}

// How many entries stand behind the list's place.
fn left_behind(pos: Option<u32>, count: usize) -> usize
    ensures { result ≡ left_behind pos count }
{
    match pos {
        Some(pos) => count.saturating_sub(pos as usize + 1),
        None => count,
    }
}
