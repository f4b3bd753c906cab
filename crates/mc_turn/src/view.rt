// What a pass knows, in proofs alone: no value of these types is ever made.
use std::collections::LinkedList;

/// Where a pass is: outside, waiting with a ticket, or inside with one.
pub enum Stage {
    /// Between two turns.
    Out,
    /// With a ticket that is not yet served.
    Waiting(u64),
    /// With the value, and with the ticket that is served.
    Inside(u64),
}

/// What a pass knew when it was joined to another.
pub struct Part<E> {
    /// Its caller numbers, which rise.
    pub numbers: LinkedList<u32>,
    /// The part of the journal that it had seen.
    pub seen: LinkedList<E>,
}

/// What a pass knows of its lock.
pub struct View<E> {
    /// How many caller numbers were handed out with the lock: those below this one.
    pub callers: u64,
    /// The part of the journal that the pass has seen.
    pub seen: LinkedList<E>,
    /// Its caller numbers, which rise.
    pub numbers: LinkedList<u32>,
    /// Where it is.
    pub stage: Stage,
    /// What the passes knew from which it was just joined; else none.
    pub parts: LinkedList<Part<E>>,
}
