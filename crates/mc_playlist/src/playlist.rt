ghost use Rattle.std.specs.Prelude.{◌≡◌, ◌<◌, IfSome, Ok, Some};
ghost use Rattle.mc_playlist.specs.Fields.{AgreeOutside, act_fields, step_fields};
ghost use Rattle.mc_playlist.specs.Law.{KeepsEntry, KeepsLaw};
ghost use Rattle.mc_playlist.specs.Records.{Leaves, acted, first_played};
ghost use Rattle.mc_playlist.specs.Steps.{GoesTo, IsList, Steps, count, empty_list, played};
ghost use Rattle.mc_playlist.specs.declared.steps.ListError.TheVariants.{NoEntry};
ghost use Rattle.mc_playlist.specs.declared.steps.ListStep.TheVariants as steps;

use crate::acts::ListAct;
use crate::aside::Aside;
use crate::facts::ListFacts;
use crate::meanings::ListMeaning;
use crate::places::{kept_place, next_place, place_before, place_or_first, pos_moved, pos_without};
use crate::reads::ListReads;
use crate::steps::{ListError, ListStep};
use crate::table::ListTable;
use mc_value::Text;
use std::alloc::Global;
use std::marker::Model;

const MOST_ENTRIES: u32 = 10_000;

/// A list of at most 10,000 films by their names, the place of the one that is played next, and how
/// often one was played.
///
/// A `Clear` of more than 1,000 names keeps their memory, so that it takes no longer than to give
/// back 2,000. It is that of at most 10,000 names at any time: each name that is added gives four
/// back, and the end of the list all.
#[derive(Drop)]
pub struct Playlist {
    // written by `step` alone
    facts: ListFacts,
    // names that were cleared, and whose memory later steps give back
    aside: Aside,
}

impl Model for Playlist {
    ghost use Rattle.mc_playlist.specs.Aside.{MayBeAside};
    ghost use Rattle.mc_playlist.specs.Steps.{IsList, count};
    ghost use Rattle.mc_playlist.specs.declared.facts.ListFacts.{ListFacts};

    ghost Value = { ListFacts };

    ghost view = { λ p. p.facts };

    ghost invariant = { λ p. IsList p.facts × MayBeAside p.aside (count p.facts) };
}

impl Playlist {
    /// An empty list.
    ///
    /// Of all steps that follow, with their answers: the list is then what each in turn makes of
    /// the one before it, a refused one and one that found no memory nothing, and so it has at most
    /// 10,000 entries, and its place is that of one.
    pub fn new(alloc: Global) -> Playlist
        ensures empty { result ≡ empty_list }
        ensures law { KeepsLaw result }
    {
        Playlist {
            facts: ListFacts::new(alloc),
            aside: Aside::new(alloc),
        }
    }

    /// Its names, its place and how often an entry was played. It takes no memory.
    pub fn facts(&self) -> &ListFacts
        ensures value { result.now ≡ self.now }
        ensures list { IsList self.now }
    {
        &self.facts
    }

    /// Does a step, as `ListStep` says. `NoEntry` where no entry is at the place that is wanted: of
    /// `Move` the first place is looked at first, and it may be put before the number of entries,
    /// which is the end; `Prev` and `Played` want place 0 where the list has no place, and `Prev`
    /// at place 0 too. `TooMany` exactly at an `Add` to 10,000 entries. Only an `Add` wants memory.
    /// After a refusal nothing changed; else only the fields that `ListStep::fields` tells did. The
    /// list's place stays with its entry where other entries come, go or move.
    pub fn step(&mut self, step: ListStep) -> Result<(), ListError>
        ensures value { Steps step self.old self.new result }
        ensures fields { AgreeOutside (step_fields step) self.old self.new }
        ensures entry { KeepsEntry step self.old self.new }
    {
        // For the proof: the list's place is that of an entry.
        let _facts = self.facts();
        self.do_step(step)
    }

    fn do_step(&mut self, step: ListStep) -> Result<(), ListError>
        ensures { Steps step self.old self.new result }
    {
        match step {
            ListStep::Add(name) => self.add(name),
            ListStep::Remove(at) => self.remove(at),
            ListStep::Move(from, before) => self.put_before(from, before),
            ListStep::Clear => self.clear(),
            ListStep::Next => self.go_on(),
            ListStep::Prev => self.go_back(),
            ListStep::Jump(at) => self.jump(at),
            ListStep::Played => self.note_played(),
        }
    }

    /// Does what a line of a script asks of the list, where the table has the properties that may
    /// be watched. `Play` notes that the entry at the list's place was played, and `PlayAll` that
    /// one film was, from the first entry where the list has no place; both are refused as
    /// `Played`. `Watch` changes nothing, and is `NotFound` exactly where the table has no such
    /// name. After a refusal nothing changed.
    pub fn act<F: ListReads<M>, M: ListMeaning>(
        &mut self,
        table: &ListTable<F, M>,
        act: &ListAct,
    ) -> Result<(), ListError>
        ensures value { Leaves (acted table.now act.now self.old) self.old self.new result }
        ensures fields { AgreeOutside (act_fields act.now) self.old self.new }
    {
        self.perform(table, act)
    }

    fn perform<F: ListReads<M>, M: ListMeaning>(
        &mut self,
        table: &ListTable<F, M>,
        act: &ListAct,
    ) -> Result<(), ListError>
        ensures { Leaves (acted table.now act.now self.old) self.old self.new result }
    {
        match act {
            ListAct::Step(step) => self.step(step.copy()?),
            ListAct::Play => self.note_played(),
            ListAct::PlayAll => self.note_played_on(),
            ListAct::Watch(name) => match table.find(name.as_str()) {
                Some(_) => Ok(()),
                None => Err(ListError::NotFound),
            },
        }
    }

    fn count(&self) -> u32
        ensures value { result ≡ count self.now }
        ensures list { IsList self.now }
    {
        self.facts.names.as_slice().len() as u32
    }

    // No entry is at the place that is wanted.
    fn refusal(&self, wanted: u32) -> ListError
        ensures { result ≡ NoEntry wanted (count self.now) }
    {
        ListError::NoEntry {
            index: wanted,
            count: self.count(),
        }
    }

    fn add(&mut self, name: Text) -> Result<(), ListError>
        ensures { Steps (steps.Add name) self.old self.new result }
    {
        if self.count() >= MOST_ENTRIES {
            return Err(ListError::TooMany);
        }
        self.aside.give_back();
        self.facts.names.push(name)?;
        Ok(())
    }

    fn remove(&mut self, at: u32) -> Result<(), ListError>
        ensures { Steps (steps.Remove at) self.old self.new result }
    {
        let count = self.count();
        if at >= count {
            return Err(self.refusal(at));
        }
        self.facts.names.remove(at as usize);
        self.facts.pos = pos_without(at, count, self.facts.pos);
        Ok(())
    }

    fn put_before(&mut self, from: u32, before: u32) -> Result<(), ListError>
        ensures { Steps (steps.Move from before) self.old self.new result }
    {
        let count = self.count();
        if from >= count {
            return Err(self.refusal(from));
        }
        if before > count {
            return Err(self.refusal(before));
        }
        self.facts.names.put_before(from as usize, before as usize);
        self.facts.pos = pos_moved(from, before, self.facts.pos);
        Ok(())
    }

    fn clear(&mut self) -> Result<(), ListError>
        ensures { Steps steps.Clear self.old self.new result }
    {
        match self.facts.pos {
            Some(pos) => {
                self.facts.names.keep_alone(pos as usize, &mut self.aside);
                self.facts.pos = Some(0);
            }
            None => self.facts.names.clear(&mut self.aside),
        }
        Ok(())
    }

    #[tactic(auto, using(crate::proofs::Going::goes))]
    fn go_on(&mut self) -> Result<(), ListError>
        ensures { Steps steps.Next self.old self.new result }
    {
        let wanted = next_place(self.facts.pos);
        self.go_to(kept_place(self.count(), wanted), wanted)
    }

    #[tactic(auto, using(crate::proofs::Going::goes))]
    fn go_back(&mut self) -> Result<(), ListError>
        ensures { Steps steps.Prev self.old self.new result }
    {
        self.go_to(place_before(self.facts.pos), 0)
    }

    #[tactic(auto, using(crate::proofs::Going::goes))]
    fn jump(&mut self, at: u32) -> Result<(), ListError>
        ensures { Steps (steps.Jump at) self.old self.new result }
    {
        self.go_to(kept_place(self.count(), at), at)
    }

    // The list's place becomes this one, where there is one.
    fn go_to(&mut self, place: Option<u32>, wanted: u32) -> Result<(), ListError>
        requires { IfSome place (λ p. p < count self.old) }
        ensures { GoesTo place wanted self.old self.new result }
    {
        match place {
            Some(place) => {
                self.facts.pos = Some(place);
                Ok(())
            }
            None => Err(self.refusal(wanted)),
        }
    }

    fn note_played(&mut self) -> Result<(), ListError>
        ensures { Steps steps.Played self.old self.new result }
    {
        let Some(pos) = self.facts.pos else {
            return Err(self.refusal(0));
        };
        self.leave(pos);
        Ok(())
    }

    // From the list's place, or from the first entry where it has none.
    fn note_played_on(&mut self) -> Result<(), ListError>
        ensures { Leaves (played (first_played self.old) self.old) self.old self.new result }
    {
        let Some(pos) = place_or_first(self.facts.pos, self.count()) else {
            return Err(self.refusal(0));
        };
        self.leave(pos);
        Ok(())
    }

    // The entry at a place was played.
    fn leave(&mut self, pos: u32)
        requires { pos < count self.old }
        ensures { played (Some pos) self.old ≡ Ok self.new }
    {
        self.facts.pos = kept_place(self.count(), pos + 1);
        self.facts.plays = self.facts.plays.saturating_add(1);
    }
}
