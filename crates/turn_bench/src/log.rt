ghost use Rattle.std.specs.Prelude.{◌≡◌, ◌++◌, List, length, true, []};
ghost use Rattle.mc_turn.specs.Workers.{Grew};
ghost use Rattle.turn_bench.specs.Work.{IsInOrder, added, caller_of};
ghost use Rattle.turn_bench.specs.declared.entry.Entry.{Entry};

use crate::entry::Entry;
use mc_turn::Kept;
use std::alloc::Global;
use std::marker::Model;

/// A list of items, each under the number of the caller that added it. A contract sees it as its
/// entries, the oldest first.
#[derive(Drop)]
pub struct Log {
    // written by `add`, and by nothing else
    entries: Vec<Entry>,
}

impl Model for Log {
    ghost Value = { List Entry };

    ghost view = { λ l. l.entries.items };
}

impl Kept for Log {
    type Entry = Entry;

    ghost kept = { λ l. l };

    ghost caller = { caller_of };

    fn length(&self) -> u64 {
        self.entries.len() as u64
    }
}

impl Log {
    /// A log with no entry.
    pub fn new(alloc: Global) -> Log
        ensures empty { result ≡ [] }
    {
        Log {
            entries: Vec::new(alloc),
        }
    }

    /// How many entries there are.
    pub fn len(&self) -> usize
        ensures count { result ≡ length self.now }
    {
        self.entries.len()
    }

    /// The entries, the oldest first.
    pub fn entries(&self) -> &[Entry]
        ensures entries { result.now ≡ self.now }
    {
        self.entries.as_slice()
    }

    /// Adds an item behind the others, and answers whether there was memory for it. Without memory
    /// the log is as it was.
    pub fn add(&mut self, caller: u32, item: u64) -> bool
        ensures added { self.new ≡ self.old ++ added result caller item }
        ensures grows { Grew caller_of caller self.old self.new }
    {
        self.entries.push(Entry { caller, item }).is_ok()
    }

    /// Whether the items of the caller are 0, 1, 2 and so on, in this order.
    pub fn is_in_order(&self, caller: u32) -> bool
        ensures ordered { result ≡ true → IsInOrder caller self.now }
    {
        let mut next = 0u64;
        for entry in self.entries.iter() {
            if entry.caller == caller {
                if entry.item != next {
                    return false;
                }
                next += 1;
            }
        }
        true
    }
}
