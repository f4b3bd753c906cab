ghost use Rattle.std.specs.Prelude.{◌≡◌, length};
ghost use Rattle.mc_turn.specs.Passes.{Known};
ghost use Rattle.mc_turn.specs.Rule.{Stands, known_of};

use crate::kept::Kept;
use crate::view::View;
use atomic_table::Seat;
use std::marker::Model;

/// What lets a thread take turns at a lock, and the caller numbers under which it does so.
///
/// A pass is used only on the [`Turn`](crate::Turn) from whose `new` it came, by splits or
/// without. It is inside from `enter` to `leave`, and outside else. A contract sees it as a
/// `Known`: its lock, its numbers in rising order, the prefix of the journal that it has seen,
/// and whether it is inside.
#[derive(Drop)]
pub struct Pass<T: Kept> {
    // its place in the lock's table, with what it knows: written by each call on the lock
    pub(crate) seat: Seat<Option<T>, View<T::Entry>>,
    // how many caller numbers it has: written by `split` and `join`
    pub(crate) count: u32,
    // the ticket that it drew last: written by `enter`, and read by the `leave` of that turn
    pub(crate) ticket: u64,
}

impl<T: Kept> Model for Pass<T> {
    ghost Value = { Known T.Entry };

    ghost view = { λ p. known_of p.seat.table_id p.seat.me.0 };

    ghost invariant = { λ p. Stands p.count p.ticket p.seat.me };
}

impl<T: Kept> Pass<T> {
    /// How many caller numbers the pass has.
    pub fn numbers(&self) -> u32
        ensures count { result ≡ length self.now.numbers }
    {
        self.count
    }
}
