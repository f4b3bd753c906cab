ghost use Rattle.std.specs.Prelude.{◌≡◌, [], Ok, IfOk, OnOk, OnErr, All, false, length, map};
ghost use Rattle.mc_playlist.specs.Watches.{AnswersIfDue, Current, CurrentBut, IsSure, KeepsCurrent, Watches as Watching, changes_of, is_due, is_watched, noted, told, watched};

use crate::facts::ListFacts;
use crate::meanings::ListMeaning;
use crate::news::{is_any_due, note, read_due};
use crate::reads::ListReads;
use crate::steps::ListError;
use crate::table::ListTable;
use crate::watched::{Changes, Watched};
use mc_props::{PropEntry, Reading};
use mc_value::{NoMemory, Text};
use sqlite_items::Items;
use std::alloc::Global;
use std::marker::Model;

/// The properties of a list that are watched, in order of watching, and what each was last given.
#[derive(Drop)]
pub struct Watches {
    // set by `new`, and then read alone
    alloc: Global,
    // `watch` adds one, `changes` notes what they are given
    items: Vec<Watched>,
}

impl Model for Watches {
    ghost use Rattle.std.specs.Prelude.{List};
    ghost use Rattle.std.specs.Coded.{codes};
    ghost use Rattle.mc_value.specs.contracts.value.Value as value;
    ghost use Rattle.mc_playlist.specs.declared.watched.Watched.{Watched};

    ghost Value = { List Watched };

    ghost coded = { Prim.hlevel (codes, value.the_row.coded) };

    ghost view = { λ w. w.items.items };
}

impl Watches {
    /// Nothing is watched.
    pub fn new(alloc: Global) -> Watches
        ensures { result ≡ [] }
    {
        Watches {
            alloc,
            items: Vec::new(alloc),
        }
    }

    /// The watched properties.
    pub fn as_slice(&self) -> &[Watched]
        ensures { result.now ≡ self.now }
    {
        self.items.as_slice()
    }

    /// Watches the property of a name from now on, behind the others. A name that is watched
    /// already keeps its place and what it was last given. `NotFound` exactly where the table has
    /// no such name. After a refusal nothing changed. What was current for facts stays so.
    pub fn watch<F: ListReads<M>, M: ListMeaning>(
        &mut self,
        table: &ListTable<F, M>,
        name: &str,
    ) -> Result<(), ListError>
        ensures value { Watching (watched table.now name.now self.old) self.old self.new result }
        ensures current { KeepsCurrent M.value table.now self.old self.new }
    {
        let Some(place) = table.find(name) else {
            return Err(ListError::NotFound);
        };
        if self.is_watched(name) {
            return Ok(());
        }
        let name = Text::new(self.alloc, name)?;
        self.items.push(Watched {
            name,
            place,
            given: None,
        })?;
        Ok(())
    }

    fn is_watched(&self, name: &str) -> bool
        ensures { result ≡ is_watched name.now self.now }
    {
        self.items
            .iter()
            .any(|watched| watched.name.as_str() == name)
    }

    /// What is new where the fields of a mask may have changed since the watches were current: in
    /// order of watching, the properties that show something else than they were last given, or
    /// that were never given. They are then given that, and are current for these facts. It reads
    /// only the properties that were never given or whose mask has a field in common with this one;
    /// where there is none, it takes no memory. Without memory nothing changes.
    pub fn changes<F: ListReads<M>, M: ListMeaning>(
        &mut self,
        table: &ListTable<F, M>,
        facts: &ListFacts,
        mask: u32,
    ) -> Result<Changes, NoMemory>
        requires { CurrentBut M.value table.now mask facts.now self.old }
        // What is told is what computing every value anew gives, and is then noted.
        ensures value { IfOk result (λ cs. cs ≡ changes_of M.value facts.now self.old) }
        ensures after { OnOk result (self.new ≡ map (told M.value facts.now) self.old) }
        ensures current { OnOk result (Current M.value table.now facts.now self.new) }
        ensures err { OnErr result (self.new ≡ self.old) }
        // Nothing is read where nothing is due.
        ensures unread { All (λ w. is_due table.now mask w ≡ false) self.old → result ≡ Ok [] }
    {
        let entries = table.entries();
        if !is_any_due(&self.items, entries, mask) {
            return Ok(Changes::new(self.alloc));
        }
        self.read(entries, table.reader(), facts, mask)
    }

    // It may call the reader for what is due, and for nothing else.
    fn read<F: ListReads<M>, M: ListMeaning>(
        &mut self,
        entries: &[PropEntry],
        reader: &F,
        facts: &ListFacts,
        mask: u32,
    ) -> Result<Changes, NoMemory>
        requires answers { All (AnswersIfDue (F.answers reader.now) entries.now mask) self.old }
        requires sure { All (IsSure M.value entries.now mask facts.now) self.old }
        ensures value { IfOk result (λ cs. cs ≡ changes_of M.value facts.now self.old) }
        ensures after { OnOk result (self.new ≡ map (told M.value facts.now) self.old) }
        ensures err { OnErr result (self.new ≡ self.old) }
    {
        let news = read_due(self.alloc, &self.items, entries, reader, facts, mask)?;
        self.note(news.readings);
        Ok(news.changes)
    }

    fn note(&mut self, readings: Items<Option<Reading>>)
        requires { length readings ≡ length self.old }
        ensures { self.new ≡ noted readings self.old }
    {
        note(&mut self.items, readings);
    }
}
