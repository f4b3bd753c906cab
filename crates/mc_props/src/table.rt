ghost use Rattle.std.specs.Prelude.{◌≡◌, ◌<◌, ◌^◌, ℕ, IfOk, IfSome, List, Option, false, length};
ghost use Rattle.std.specs.Option.{option_copied};
ghost use Rattle.mc_value.specs.declared.value.Format.{Format};
ghost use Rattle.mc_props.specs.Entries.{AreEntries, place_of, property_part};
ghost use Rattle.mc_props.specs.Fields.{Agree, AgreeOutside, share_field};
ghost use Rattle.mc_props.specs.Readings.{Answers, IsPresented, PresentsSame, got, got_at, mask_at, present_of, read_at};
ghost use Rattle.mc_props.specs.Settings.{SelectsKnown, set_to};
ghost use Rattle.mc_props.specs.declared.facts.Facts.{Facts};

use crate::entries::{PropEntries, PropEntry, place_of};
use crate::facts::Facts;
use crate::fields::share_field;
use crate::meanings::Meaning;
use crate::names::{path_part, property_part};
use crate::reading::Reading;
use crate::reads::Reads;
use crate::refusal::PropError;
use crate::settings::{Write, written};
use mc_value::{Format, NoMemory, Value, convert, path};
use std::alloc::{AllocError, Global};
use std::marker::{Model, PhantomData};

/// Properties under their names, and one reader of them all, which answers the stated function of
/// `M` at each entry's place on any facts. Facts that agree on an entry's mask show the same there.
#[derive(Drop)]
pub struct PropTable<F: Reads<M>, M: Meaning> {
    // all four are set by `new`, and then read alone; no value lies in the last
    alloc: Global,
    entries: PropEntries,
    reader: F,
    meaning: PhantomData<M>,
}

impl<F: Reads<M>, M: Meaning> Model for PropTable<F, M> {
    ghost use Rattle.std.specs.Prelude.{List, ℕ, ◌<◌, length};
    ghost use Rattle.mc_props.specs.declared.entries.PropEntry.{PropEntry};
    ghost use Rattle.mc_props.specs.Entries.{AreEntries};

    ghost Value = { List PropEntry };

    ghost view = { λ t. t.entries };

    ghost invariant = { λ t. ((place : ℕ) → place < length t.entries → F.answers t.reader place)
        × AreEntries M.value t.entries };
}

impl<F: Reads<M>, M: Meaning> PropTable<F, M> {
    /// A table of these entries, fewer than 2^32, with distinct names, of which only `pause`,
    /// `mute`, `vid`, `aid` and `sid` may be set. The reader may be called for each entry on any
    /// facts and answers the stated function of `M`, whose values are the same at facts that agree
    /// on the entry's mask.
    pub fn new(alloc: Global, entries: PropEntries, reader: F) -> Self
        requires answers { (place : ℕ) → place < length entries → F.answers reader place }
        requires entries { AreEntries M.value entries }
        ensures { result ≡ entries }
    {
        PropTable {
            alloc,
            entries,
            reader,
            meaning: PhantomData,
        }
    }

    /// The value of the property that the part of a name before its first slash names, cut by the
    /// path behind it and converted. In this order: `NotFound` where no entry has the name,
    /// `Unavailable` where the property has no value or the path leads nowhere in it,
    /// `PropertyFormat` where the value has no form in the format.
    pub fn get(&self, name: &str, facts: &Facts, format: Format) -> Result<Value, PropError>
        ensures { Answers result (got M.value self.now name.now facts.now format) }
    {
        match self.find(name) {
            Some(place) => self.get_at(place, name, facts, format),
            None => Err(PropError::NotFound),
        }
    }

    /// What setting the property of a name to a value writes; the whole name is looked up, without
    /// a path. In this order: `NotFound`, `ReadOnly`, `Unavailable` where the property has no
    /// value, `PropertyFormat` where the value is not what the property takes, `NoSuchTrack` where
    /// no track of the kind has that number, `Unsupported` where it is encoded. A selection has only
    /// listed tracks that are not encoded, each under its own kind, where the one before it had.
    pub fn set(&self, name: &str, facts: &Facts, value: &Value) -> Result<Write, PropError>
        ensures value { Answers result (set_to M.value self.now name.now facts.now value.now) }
        ensures known { IfOk result (λ w. SelectsKnown facts.now w) }
    {
        // For the proof: the list says that its tracks' numbers differ.
        let _tracks = facts.tracks.as_slice();
        self.set_by_name(name, facts, value)
    }

    fn set_by_name(&self, name: &str, facts: &Facts, value: &Value) -> Result<Write, PropError>
        ensures { Answers result (set_to M.value self.now name.now facts.now value.now) }
    {
        let Some(place) = place_of(self.entries(), name) else {
            return Err(PropError::NotFound);
        };
        let Some(entry) = self.entries().get(place) else {
            return Err(PropError::NotFound);
        };
        if !entry.writable {
            return Err(PropError::ReadOnly);
        }
        match self.at(place as u32, facts)? {
            Reading::Is(_) => written(self.alloc, name, facts, value),
            Reading::Unavailable => Err(PropError::Unavailable),
        }
    }

    /// The place of the property that the part of a name before its first slash names. It takes no
    /// memory.
    pub fn find(&self, name: &str) -> Option<u32>
        ensures place { result ≡ place_of (property_part name.now) self.now }
        ensures known { IfSome result (λ k. k < length self.now) }
    {
        match place_of(self.entries(), property_part(name)) {
            Some(place) => Some(place as u32),
            None => None,
        }
    }

    /// Whether the property at a place may show something else where fields of a mask change; no
    /// property stands behind the last place. Where it isn't affected, it shows the same at facts
    /// that differ only in those fields. It takes no memory.
    pub fn affected(&self, entry: u32, mask: u32) -> bool
        ensures value { result ≡ share_field (mask_at self.now (Option.Some entry)) mask }
        ensures spared { result ≡ false → entry < length self.now
            → (f g : Facts) → AgreeOutside mask f g → (name : List ℕ) → (format : Format)
            → PresentsSame M.value (Option.Some entry) name format f g }
    {
        share_field(self.mask_at(entry), mask)
    }

    /// What an observer of a name has: the format, and the value in it; or no format and no value
    /// where the name is unknown, the property has no value or the path leads nowhere in it, or the
    /// value has no form in the format. Facts that agree on the entry's mask give the same. With
    /// the place that `find` gives, it is what the table has for the name itself.
    pub fn present(
        &self,
        entry: Option<u32>,
        name: &str,
        format: Format,
        facts: &Facts,
    ) -> Result<(Format, Value), NoMemory>
        requires known { IfSome entry (λ k. k < length self.now) }
        ensures value { IfOk result (λ p. p ≡ present_of M.value entry name.now format facts.now) }
        ensures agrees { (g : Facts) → Agree (mask_at self.now entry) facts.now g
            → PresentsSame M.value entry name.now format facts.now g }
        ensures presented { IsPresented M.value self.now entry name.now format facts.now }
    {
        let Some(place) = entry else {
            return Ok((Format::None, Value::None));
        };
        match self.get_at(place, name, facts, format) {
            Ok(value) => Ok((format, value)),
            Err(PropError::NoMemory) => Err(AllocError),
            Err(_) => Ok((Format::None, Value::None)),
        }
    }

    /// The entries, each at its place. The properties' stated values depend on the fields of their
    /// masks alone.
    pub fn entries(&self) -> &[PropEntry]
        ensures value { result.now ≡ self.now }
        ensures fit { AreEntries M.value self.now }
    {
        self.entries.as_slice()
    }

    fn mask_at(&self, entry: u32) -> u32
        ensures value { result ≡ mask_at self.now (Option.Some entry) }
        ensures fit { AreEntries M.value self.now }
    {
        match self.entries.get(entry as usize) {
            Some(found) => found.mask,
            None => 0,
        }
    }

    fn at(&self, place: u32, facts: &Facts) -> Result<Reading, NoMemory>
        requires { place < length self.now }
        ensures { IfOk result (λ r. r ≡ M.value place facts.now) }
    {
        self.reader.read(place, facts)
    }

    /// What is read at a place, cut by a name's path.
    fn read_at(&self, place: u32, name: &str, facts: &Facts) -> Result<Option<Value>, NoMemory>
        requires { place < length self.now }
        ensures { IfOk result (λ v. v ≡ read_at M.value place name.now facts.now) }
    {
        match self.at(place, facts)? {
            Reading::Is(value) => path(self.alloc, &value, path_part(name)),
            Reading::Unavailable => Ok(None),
        }
    }

    fn get_at(
        &self,
        place: u32,
        name: &str,
        facts: &Facts,
        format: Format,
    ) -> Result<Value, PropError>
        requires { place < length self.now }
        ensures value { Answers result
            (got_at M.value (Option.Some place) name.now facts.now format) }
        ensures fit { AreEntries M.value self.now }
    {
        let _entries = &self.entries;
        match self.read_at(place, name, facts)? {
            Some(value) => Ok(convert(self.alloc, &value, format)?),
            None => Err(PropError::Unavailable),
        }
    }
}
