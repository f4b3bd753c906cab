ghost use Rattle.std.specs.Prelude.{◌≡◌, ◌<◌, ◌≤◌, ◌⊎◌, ◌↔◌, ◌+◌, ◌++◌, ◌∷◌, [], length, Err, Bool, true, false, IsTrue, IfOk, IfSome};
ghost use Rattle.std.specs.Option.{option_copied};
ghost use Rattle.mc_ring.specs.Event.{enters_ring};
ghost use Rattle.mc_ring.specs.Ring.{IsRing, IsSize, after_pop, after_push, after_reply, after_reserve, after_unreserve, full_of, is_full, new_ring, oldest, push_answer, reserve_answer, with_choked};
ghost use Rattle.mc_ring.specs.Law.{KeepsLaw};
ghost use Rattle.mc_ring.specs.declared.ring.RingError.TheVariants.{BadSize};

use crate::event::Event;
use circular_buffer::HeapCircularBuffer;
use std::alloc::{AllocError, Global};
use std::marker::Model;

/// Why a ring could not be made.
#[derive(Clone, Copy, Debug, PartialEq, Eq)]
pub enum RingError {
    /// The size is 0 or above 100,000.
    BadSize,
    /// There was no memory for the ring's places.
    NoMemory,
}

impl From<AllocError> for RingError {
    ghost use Rattle.std.specs.Prelude.{◌≡◌};
    ghost use Rattle.mc_ring.specs.declared.ring.RingError.TheVariants.{NoMemory};

    ghost from_gives = { λ _ e. e ≡ NoMemory };

    fn from(_error: AllocError) -> RingError {
        RingError::NoMemory
    }
}

/// Why no place was set aside: the events held, the places set aside, the size of the ring, and
/// whether an overflow is still to be told. A client's request is then answered -1.
#[derive(Clone, Copy, Debug, PartialEq, Eq)]
pub struct QueueFull {
    /// The events and replies that the ring holds.
    pub held: u32,
    /// The places set aside for replies.
    pub reserved: u32,
    /// The ring's size, which both together may have.
    pub max: u32,
    /// Whether an event was dropped of which no overflow has told yet.
    pub choked: bool,
}

/// What became of an event.
#[derive(Debug, Drop)]
pub enum Pushed {
    /// It stands in the ring.
    Kept,
    /// There was no place for it, and it is handed back.
    Dropped(Event),
}

/// A client's ring of events, of a size that is fixed when it is made. Only `new` takes memory.
#[derive(Drop)]
pub struct Ring {
    // what was taken in and not popped, the oldest first: written by both pushes and by `pop`
    events: HeapCircularBuffer<Event>,
    // one more by `reserve`, one less by `unreserve` and by `push_reply`
    reserved: u32,
    // from 1 to 100,000; set by `new` alone
    size: u32,
    // set where `push_event` drops its event, and false again at `take_overflow`
    choked: bool,
}

impl Model for Ring {
    ghost use Rattle.std.specs.Prelude.{◌≤◌};
    ghost use Rattle.std.specs.Coded.{codes};
    ghost use Rattle.mc_value.specs.contracts.value.Value as value;
    ghost use Rattle.mc_ring.specs.Ring.{RingState, IsRing};

    ghost Value = { RingState };

    ghost coded = { Prim.hlevel (codes, value.the_row.coded) };

    ghost view = { λ r. record {
      events = r.events.items;
      reserved = r.reserved;
      size = r.size;
      choked = r.choked;
    } };

    ghost invariant = { λ r. IsRing (record {
      events = r.events.items;
      reserved = r.reserved;
      size = r.size;
      choked = r.choked;
    }) × (r.size ≤ r.events.capacity) };
}

impl Ring {
    /// An empty ring that has room for `size` events and places set aside, from 1 to 100,000.
    ///
    /// Of every list of calls that follow, with their answers: what was popped is a prefix of what
    /// was kept, and the ring holds the rest in order; a reply that was pushed was popped or is
    /// held; each accepted request has its place until it is given back or its reply is pushed; and
    /// between an event that was dropped and the next that is kept, an overflow is told.
    pub fn new(alloc: Global, size: u32) -> Result<Ring, RingError>
        ensures bad_size { (result ≡ Err BadSize) ↔ ((size ≡ 0) ⊎ (100000 < size)) }
        ensures empty { IfOk result (λ r. r ≡ new_ring size) }
        ensures law { IfOk result (λ r. KeepsLaw size r) }
    {
        if size == 0 || size > 100_000 {
            return Err(RingError::BadSize);
        }
        Ok(Ring::empty(alloc, size)?)
    }

    fn empty(alloc: Global, size: u32) -> Result<Ring, AllocError>
        requires size { IsSize size }
        ensures { IfOk result (λ r. r ≡ new_ring size) }
    {
        let events = HeapCircularBuffer::with_capacity(alloc, size as usize)?;
        Ok(Ring {
            events,
            reserved: 0,
            size,
            choked: false,
        })
    }

    /// Sets a place aside for the reply to a request. It is refused exactly where the events and
    /// the places set aside make the size, or where an overflow is still to be told; the ring then
    /// stays as it was.
    pub fn reserve(&mut self) -> Result<(), QueueFull>
        ensures value { result ≡ reserve_answer self.old }
        ensures after { self.new ≡ after_reserve self.old }
    {
        if self.is_full() {
            return Err(self.refusal());
        }
        self.reserved += 1;
        Ok(())
    }

    /// Gives a place that was set aside back.
    pub fn unreserve(&mut self)
        requires has_place { 0 < self.old.reserved }
        ensures after { self.new ≡ after_unreserve self.old }
    {
        self.reserved -= 1;
    }

    /// Takes an event in, behind the others. It is dropped exactly where `reserve` would be
    /// refused: the event is handed back, and the ring is choked until `take_overflow`.
    pub fn push_event(&mut self, event: Event) -> Pushed
        requires kind { IsTrue (enters_ring event) }
        ensures value { result ≡ push_answer self.old event }
        ensures after { self.new ≡ after_push self.old event }
    {
        if self.is_full() {
            self.choked = true;
            return Pushed::Dropped(event);
        }
        append(&mut self.events, event);
        Pushed::Kept
    }

    /// Takes a reply in, behind the events, at a place that was set aside, which it uses up. It
    /// always finds its place, also in a choked ring.
    pub fn push_reply(&mut self, reply: Event)
        requires has_place { 0 < self.old.reserved }
        requires kind { IsTrue (enters_ring reply) }
        ensures after { self.new ≡ after_reply self.old reply }
    {
        self.reserved -= 1;
        append(&mut self.events, reply);
    }

    /// Takes the oldest event out. It leaves a choked ring choked.
    pub fn pop(&mut self) -> Option<Event>
        ensures value { result ≡ oldest self.old }
        ensures after { self.new ≡ after_pop self.old }
        ensures kind { IfSome result (λ e. IsTrue (enters_ring e)) }
    {
        self.events.pop_front()
    }

    /// The oldest event, which stays.
    pub fn first(&self) -> Option<&Event>
        ensures value { option_copied result ≡ oldest self.now }
        ensures ring { IsRing self.now }
    {
        self.events.front()
    }

    /// Whether an event was dropped of which no overflow has told yet.
    pub fn choked(&self) -> bool
        ensures value { result ≡ self.now.choked }
        ensures ring { IsRing self.now }
    {
        self.choked
    }

    /// Whether an overflow is to be told, which is then told: the ring isn't choked afterwards.
    pub fn take_overflow(&mut self) -> bool
        ensures value { result ≡ self.old.choked }
        ensures after { self.new ≡ with_choked self.old false }
    {
        let choked = self.choked;
        self.choked = false;
        choked
    }

    /// The places that are set aside for replies.
    pub fn reserved(&self) -> u32
        ensures { result ≡ self.now.reserved }
    {
        self.reserved
    }

    /// Whether no place is free, or an overflow is still to be told: where `reserve` is refused.
    pub fn is_full(&self) -> bool
        ensures value { result ≡ is_full self.now }
        ensures ring { IsRing self.now }
    {
        self.events.len() as u32 + self.reserved == self.size || self.choked
    }

    fn refusal(&self) -> QueueFull
        ensures { result ≡ full_of self.now }
    {
        QueueFull {
            held: self.events.len() as u32,
            reserved: self.reserved,
            max: self.size,
            choked: self.choked,
        }
    }
}

fn append(events: &mut HeapCircularBuffer<Event>, event: Event)
    requires { length events.old.items < events.old.capacity }
    ensures items { events.new.items ≡ events.old.items ++ event ∷ [] }
    ensures capacity { events.new.capacity ≡ events.old.capacity }
{
    events.push_back(event);
}
