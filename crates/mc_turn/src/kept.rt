ghost use Rattle.std.specs.Prelude.{◌≡◌, ℕ, ◌-◌, ◌^◌, min, List, length};

/// A value that a [`Turn`](crate::Turn) can keep: it has a journal of what was done to it.
///
/// The ghost member `kept` is the journal, oldest entry first, and `caller` the number of the
/// caller that made an entry. A type that keeps facts about its journal, or about what its type
/// parameters name, has them each time that a pass enters.
pub trait Kept {
    /// One entry of the journal. It bears the number of the caller that made it.
    type Entry;

    ghost kept: { Self → List Self.Entry };

    ghost caller: { Self.Entry → ℕ };

    /// How many entries the journal has, or 2^64 - 1 where it has more.
    fn length(&self) -> u64
        ensures length { result ≡ min (length (kept self.now)) (2 ^ 64 - 1) };
}
