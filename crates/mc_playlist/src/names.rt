ghost use Rattle.std.specs.Prelude.{◌≡◌, ◌<◌, ◌≤◌, ◌+◌, ◌-◌, ◌++◌, ◌∷◌, [], OnOk, OnErr, length, max, remove};
ghost use Rattle.mc_playlist.specs.Steps.{alone, moved};

use crate::aside::Aside;
use mc_value::{NoMemory, Text};
use std::alloc::Global;
use std::marker::Model;

/// The names of a list's films, each at its place, counted from 0. Contracts see them as a list of
/// their octets.
#[derive(Debug, Drop)]
pub struct Names {
    // written by the steps of a list
    items: Vec<Text>,
}

impl Model for Names {
    ghost use Rattle.std.specs.Prelude.{ℕ, List};

    ghost Value = { List (List ℕ) };

    ghost view = { λ n. n.items.items };
}

impl Names {
    /// No names.
    pub fn new(alloc: Global) -> Names
        ensures { result ≡ [] }
    {
        Names {
            items: Vec::new(alloc),
        }
    }

    /// The names, to read.
    pub fn as_slice(&self) -> &[Text]
        ensures { result.now ≡ self.now }
    {
        self.items.as_slice()
    }

    /// Puts a name behind the others. Without memory for it nothing changes.
    pub fn push(&mut self, name: Text) -> Result<(), NoMemory>
        ensures ok { OnOk result (self.new ≡ self.old ++ name ∷ []) }
        ensures err { OnErr result (self.new ≡ self.old) }
    {
        self.items.push(name)?;
        Ok(())
    }

    /// Takes the name at a place out.
    pub fn remove(&mut self, at: usize)
        requires { at < length self.old }
        ensures value { self.new ≡ remove self.old at }
        ensures count { length self.new + 1 ≡ length self.old }
    {
        self.items.remove(at);
    }

    /// Puts the name at a place in front of what stands at another, or last where the other is the
    /// number of names. It takes no memory.
    pub fn put_before(&mut self, from: usize, before: usize)
        requires from { from < length self.old }
        requires before { before ≤ length self.old }
        ensures value { self.new ≡ moved from before self.old }
        ensures count { length self.new ≡ length self.old }
    {
        let name = self.items.remove(from);
        let to = if from < before { before - 1 } else { before };
        self.items.insert(to, name).unwrap();
    }

    /// Takes all names out but the one at a place; those that are many are put aside.
    pub fn keep_alone(&mut self, at: usize, aside: &mut Aside)
        requires { at < length self.old }
        ensures value { self.new ≡ alone at self.old }
        ensures count { length self.new ≡ 1 }
        ensures aside { aside.new ≤ max aside.old (length self.old - 1) }
    {
        let name = self.items.remove(at);
        aside.empty(&mut self.items);
        self.items.push(name).unwrap();
    }

    /// Takes all names out; those that are many are put aside.
    pub fn clear(&mut self, aside: &mut Aside)
        ensures value { self.new ≡ [] }
        ensures aside { aside.new ≤ max aside.old (length self.old) }
    {
        aside.empty(&mut self.items);
    }
}
