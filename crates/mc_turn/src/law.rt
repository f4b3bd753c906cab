// The rule of the lock's table, and what each step of it tells its pass.
use crate::kept::Kept;
use crate::view::View;
use atomic_table::{Join, Play, Split, TableRule};
use std::marker::{Brand, PhantomData};
use std::snapshot::Snapshot;

/// What a lock is made with: the value, and how many caller numbers its first pass has.
#[derive(Drop)]
pub struct Start<T> {
    /// The value as it was then.
    pub value: Snapshot<T>,
    /// How many caller numbers are handed out.
    pub numbers: u32,
}

/// The rule of a lock round a `T`.
pub struct Law<T> {
    of: PhantomData<T>,
}

impl<T: Kept> TableRule<Option<T>, View<T::Entry>, Start<T>> for Law<T> {
    ghost use Rattle.mc_turn.specs.Rule.{Ruled, opened};

    ghost holds = { λ _. Ruled T.kept T.caller };

    ghost first = { λ key. opened (T.kept key.value.value) key.numbers };
}

/// A load that changes nothing.
pub struct Look;

impl<S, V> Play<S, V> for Look {
    ghost use Rattle.std.specs.Prelude.{◌≡◌};

    ghost then = { λ st m r n. n ≡ m };
}

/// A ticket is drawn, unless the word was another than expected.
pub struct Draw;

impl<S, E> Play<S, View<E>> for Draw {
    ghost use Rattle.mc_turn.specs.Rule.{Draws};

    ghost then = { λ st m r n. Draws st.first m r n };
}

/// The number served is the pass's ticket, and it takes the value; or nothing changes.
pub struct Take<T> {
    of: PhantomData<T>,
}

impl<T: Kept> Play<Option<T>, View<T::Entry>> for Take<T> {
    ghost use Rattle.mc_turn.specs.Rule.{Takes};

    ghost then = { λ st m r n. Takes T.kept T.caller m r n };
}

/// The next ticket is served, and the value is at home again.
pub struct Advance<T> {
    of: PhantomData<T>,
}

impl<T: Kept> Play<Option<T>, View<T::Entry>> for Advance<T> {
    ghost use Rattle.mc_turn.specs.Rule.{Gives};

    ghost then = { λ st m r n. Gives T.kept m n };
}

/// A load that tells a joined pass how its parts and the journal go together.
pub struct Learn<T> {
    of: PhantomData<T>,
}

impl<T: Kept> Play<Option<T>, View<T::Entry>> for Learn<T> {
    ghost use Rattle.mc_turn.specs.Rule.{Learns};

    ghost then = { λ st m r n. Learns T.caller m n };
}

/// Two passes are made one.
pub struct Both;

impl<E> Join<View<E>> for Both {
    ghost use Rattle.mc_turn.specs.Rule.{joined, spent};

    ghost both = { joined };

    ghost spent = { spent };
}

// Each call that splits a pass picks the two parts, which depend on how many numbers it gives.
impl<E> Split<View<E>> for Brand {
    ghost left = { λ v. v };

    ghost right = { λ v. v };
}
