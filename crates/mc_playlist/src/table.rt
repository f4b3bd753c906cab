ghost use Rattle.std.specs.Prelude.{◌≡◌, ◌<◌, ℕ, IfOk, IfSome, Option, false, length};
ghost use Rattle.mc_props.specs.Entries.{place_of};
ghost use Rattle.mc_props.specs.Fields.{share_field};
ghost use Rattle.mc_props.specs.Readings.{mask_at};
ghost use Rattle.mc_playlist.specs.Answers.{Answers};
ghost use Rattle.mc_playlist.specs.Fields.{AgreeOutside};
ghost use Rattle.mc_playlist.specs.Table.{AreEntries, got};
ghost use Rattle.mc_playlist.specs.declared.facts.ListFacts.{ListFacts};

use crate::facts::ListFacts;
use crate::meanings::ListMeaning;
use crate::reads::ListReads;
use crate::steps::ListError;
use mc_props::fields::share_field;
use mc_props::{PropEntries, PropEntry, Reading};
use mc_value::NoMemory;
use std::marker::{Model, PhantomData};

/// Properties of a list under their names, and one reader of them all, which answers the stated
/// function of `M` at each entry's place on any facts. Facts that agree on an entry's mask
/// (`fields`) show the same there.
#[derive(Drop)]
pub struct ListTable<F: ListReads<M>, M: ListMeaning> {
    // all are set by `new`, and then read alone; no value lies in the last
    entries: PropEntries,
    reader: F,
    meaning: PhantomData<M>,
}

impl<F: ListReads<M>, M: ListMeaning> Model for ListTable<F, M> {
    ghost use Rattle.std.specs.Prelude.{List, ℕ, ◌<◌, length};
    ghost use Rattle.mc_props.specs.declared.entries.PropEntry.{PropEntry};
    ghost use Rattle.mc_playlist.specs.Table.{AreEntries};

    ghost Value = { List PropEntry };

    ghost view = { λ t. t.entries };

    ghost invariant = { λ t. ((place : ℕ) → place < length t.entries → F.answers t.reader place)
        × AreEntries M.value t.entries };
}

impl<F: ListReads<M>, M: ListMeaning> ListTable<F, M> {
    /// A table of these entries, fewer than 2^32, with distinct names. The reader may be called for
    /// each entry on any facts and answers the stated function of `M`, whose values are the same at
    /// facts that agree on the entry's mask.
    pub fn new(entries: PropEntries, reader: F) -> Self
        requires answers { (place : ℕ) → place < length entries → F.answers reader place }
        requires entries { AreEntries M.value entries }
        ensures { result ≡ entries }
    {
        ListTable {
            entries,
            reader,
            meaning: PhantomData,
        }
    }

    /// What the property of a name shows; the whole name is looked up, without a path. `NotFound`
    /// exactly where no entry has it.
    pub fn get(&self, name: &str, facts: &ListFacts) -> Result<Reading, ListError>
        ensures { Answers result (got M.value self.now name.now facts.now) }
    {
        match self.find(name) {
            Some(place) => Ok(self.at(place, facts)?),
            None => Err(ListError::NotFound),
        }
    }

    /// The place of the property of a name. It takes no memory.
    pub fn find(&self, name: &str) -> Option<u32>
        ensures place { result ≡ place_of name.now self.now }
        ensures known { IfSome result (λ k. k < length self.now) }
    {
        match place_of(self.entries(), name) {
            Some(place) => Some(place as u32),
            None => None,
        }
    }

    /// What the property at a place shows.
    pub fn at(&self, place: u32, facts: &ListFacts) -> Result<Reading, NoMemory>
        requires { place < length self.now }
        ensures { IfOk result (λ r. r ≡ M.value place facts.now) }
    {
        self.reader.read(place, facts)
    }

    /// Whether the property at a place may show something else where fields of a mask change; no
    /// property stands behind the last place. Where it isn't affected, it shows the same at facts
    /// that differ only in those fields. It takes no memory.
    pub fn affected(&self, place: u32, mask: u32) -> bool
        ensures value { result ≡ share_field (mask_at self.now (Option.Some place)) mask }
        ensures spared { result ≡ false → place < length self.now
            → (f g : ListFacts) → AgreeOutside mask f g → M.value place f ≡ M.value place g }
    {
        share_field(self.mask_at(place), mask)
    }

    /// The entries, each at its place. The properties' stated values depend on the fields of their
    /// masks alone.
    pub fn entries(&self) -> &[PropEntry]
        ensures value { result.now ≡ self.now }
        ensures fit { AreEntries M.value self.now }
    {
        self.entries.as_slice()
    }

    fn mask_at(&self, place: u32) -> u32
        ensures value { result ≡ mask_at self.now (Option.Some place) }
        ensures fit { AreEntries M.value self.now }
    {
        mask_at(self.entries.as_slice(), place)
    }

    /// The reader, which may be called for each entry on any facts.
    pub(crate) fn reader(&self) -> &F
        ensures { (place : ℕ) → place < length self.now → F.answers result.now place }
    {
        &self.reader
    }
}

/// The mask of the entry at a place; none of its fields stands behind the last.
pub(crate) fn mask_at(entries: &[PropEntry], place: u32) -> u32
    ensures { result ≡ mask_at entries.now (Option.Some place) }
{
    match entries.get(place as usize) {
        Some(found) => found.mask,
        None => 0,
    }
}

fn place_of(entries: &[PropEntry], name: &str) -> Option<usize>
    ensures place { result ≡ place_of name.now entries.now }
    ensures within { IfSome result (λ k. k < length entries.now) }
{
    entries.iter().position(|entry| entry.name.as_str() == name)
}
