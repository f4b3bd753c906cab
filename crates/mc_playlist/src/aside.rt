ghost use Rattle.std.specs.Prelude.{◌≡◌, ◌<◌, ◌≤◌, ◌-◌, [], max};
ghost use Rattle.std.specs.Vec.{vec_capacity, vec_len};

use mc_value::Text;
use std::alloc::Global;
use std::marker::Model;
use std::mem;

// So many names are given back at once.
const FEW: usize = 1_000;

// So many of those aside are given back each time.
const SOME: usize = 4;

/// Names that stand in no list any more, and whose memory is given back a few at a time. Contracts
/// see how many they are.
#[derive(Drop)]
pub struct Aside {
    // written by the steps of a list
    items: Vec<Text>,
}

impl Model for Aside {
    ghost use Rattle.std.specs.Prelude.{ℕ, length};

    ghost Value = { ℕ };

    ghost view = { λ a. length a.items.items };
}

impl Aside {
    /// No names.
    pub fn new(alloc: Global) -> Aside
        ensures { result ≡ 0 }
    {
        Aside {
            items: Vec::new(alloc),
        }
    }

    /// Empties a list. More than 1,000 names, and more than are aside, are put aside in constant
    /// time, and what was aside is given back instead; else the list's names are given back. The
    /// list has room for a name then, where it had. It may take memory once, and does without.
    pub fn empty(&mut self, names: &mut Vec<Text>)
        ensures emptied { names.new.items ≡ [] }
        ensures room { 0 < vec_capacity names.old → 0 < vec_capacity names.new }
        ensures count { self.new ≤ max self.old (vec_len names.old) }
    {
        let are_many = names.len() > self.items.len().max(FEW);
        if are_many && self.items.reserve(1).is_ok() {
            mem::swap(&mut self.items, names);
        }
        names.clear();
    }

    /// Gives the memory of four names back, or of all where they are fewer.
    pub fn give_back(&mut self)
        ensures { self.new ≡ self.old - 4 }
    {
        self.items.truncate(self.items.len().saturating_sub(SOME));
    }
}
