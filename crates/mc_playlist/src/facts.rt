ghost use Rattle.std.specs.Prelude.{◌≡◌};
ghost use Rattle.mc_playlist.specs.Steps.{empty_list};

use crate::names::Names;
use std::alloc::Global;

/// What is known of a list of films: all that a property of it may show.
#[derive(Debug, Drop)]
pub struct ListFacts {
    /// The names of its films, in order.
    pub names: Names,
    /// The place of the entry that is played next, counted from 0; none before the first and behind
    /// the last.
    pub pos: Option<u32>,
    /// How often an entry was played; it stops at its greatest value.
    pub plays: u32,
}

impl ListFacts {
    /// An empty list, of which nothing was played.
    pub fn new(alloc: Global) -> ListFacts
        ensures { result ≡ empty_list }
    {
        ListFacts {
            names: Names::new(alloc),
            pos: None,
            plays: 0,
        }
    }
}
