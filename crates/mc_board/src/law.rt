// The words of the board's cell, its rule, and what each step tells its pass.
ghost use Rattle.std.specs.Prelude.{[], ◌∷◌};

use atomic_table::{Join, Split};
use crossbeam_utils::atomic::seq_cell::Words;
use crossbeam_utils::rule::{Outcome, Protocol};
use mc_packet::Status;
use std::collections::LinkedList;

/// What the cell holds: a status, as four words.
#[derive(Clone, Copy)]
pub struct Posted(pub Status);

impl Words<4> for Posted {
    ghost words = { λ x. x.0.seq ∷ x.0.forward ∷ x.0.back ∷ x.0.flags ∷ [] };

    fn to_words(self) -> [u64; 4] {
        [self.0.seq, self.0.forward, self.0.back, self.0.flags]
    }

    fn from_words(bits: &[u64; 4]) -> Posted {
        let [seq, forward, back, flags] = *bits;
        Posted(Status {
            seq,
            forward,
            back,
            flags,
        })
    }
}

/// What a pass of the cell is for. The first one is fresh until the first status is posted.
pub enum Role {
    /// The first one of a board, before it posts.
    Fresh,
    /// The poster's.
    Posts,
    /// One that looks.
    Looks,
}

/// What a pass knows, in proofs alone, the newest status first. No value of it is ever made.
pub struct View {
    /// What the pass is for.
    pub role: Role,
    /// What it has posted; nothing but for the poster.
    pub posted: LinkedList<Status>,
    /// What it has seen; of the poster what it has just taken in.
    pub seen: LinkedList<Status>,
}

/// The rule of the board.
pub struct Law;

impl Protocol<Posted, View> for Law {
    ghost use Rattle.mc_board.specs.Rule.{Kept, fresh};

    ghost holds = { Kept };

    ghost first = { fresh };
}

/// The first status is posted.
pub struct Begin;

impl Outcome<Posted, View> for Begin {
    ghost use Rattle.mc_board.specs.Rule.{Begins};

    ghost then = { Begins };
}

/// A status is posted.
pub struct Add;

impl Outcome<Posted, View> for Add {
    ghost use Rattle.mc_board.specs.Rule.{Adds};

    ghost then = { Adds };
}

/// A status is seen.
pub struct See;

impl Outcome<Posted, View> for See {
    ghost use Rattle.mc_board.specs.Rule.{Sees};

    ghost then = { Sees };
}

/// The poster learns that all which it took in was posted.
pub struct Learn;

impl Outcome<Posted, View> for Learn {
    ghost use Rattle.mc_board.specs.Rule.{Learns};

    ghost then = { Learns };
}

/// A second pass that has seen as much.
pub struct Copied;

impl Split<View> for Copied {
    ghost use Rattle.mc_board.specs.Rule.{looker};

    ghost left = { λ v. v };

    ghost right = { λ v. looker v.seen };
}

/// The poster takes in what a pass has seen.
pub struct Told;

impl Join<View> for Told {
    ghost use Rattle.std.specs.Prelude.{[]};
    ghost use Rattle.mc_board.specs.Rule.{takes_in, looker};

    ghost both = { takes_in };

    ghost spent = { looker [] };
}
