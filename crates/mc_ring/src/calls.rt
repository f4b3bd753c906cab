ghost use Rattle.std.specs.Prelude.{◌≡◌, ◌↔◌, IsTrue};
ghost use Rattle.mc_ring.specs.Law.{IsAllowed, after, answer};

use crate::event::Event;
use crate::ring::{Pushed, QueueFull, Ring};

/// A call of a ring, as data.
#[derive(Debug, Drop)]
pub enum RingCall {
    /// A place is set aside.
    Reserve,
    /// A place is given back.
    Unreserve,
    /// An event is pushed.
    PushEvent(Event),
    /// A reply is pushed.
    PushReply(Event),
    /// The oldest event is taken.
    Pop,
    /// It is asked whether an overflow is to be told.
    TakeOverflow,
}

/// The answer to a `RingCall`.
#[derive(Debug, Drop)]
pub enum RingAnswer {
    /// A place was set aside.
    Reserved,
    /// No place was set aside.
    Refused(QueueFull),
    /// A place was given back.
    Unreserved,
    /// What became of the event.
    PushedEvent(Pushed),
    /// The reply is kept.
    PushedReply,
    /// The oldest event, if there was one.
    Popped(Option<Event>),
    /// Whether an overflow was to be told.
    TookOverflow(bool),
}

impl Ring {
    /// Whether `apply` may make the call: a place to be given back or used up is set aside, and
    /// what is pushed is an event that rings hold.
    pub fn is_allowed(&self, call: &RingCall) -> bool
        ensures { IsTrue result ↔ IsAllowed self.now call.now }
    {
        match call {
            RingCall::Unreserve => self.reserved() > 0,
            RingCall::PushEvent(event) => event.enters_ring(),
            RingCall::PushReply(reply) => self.reserved() > 0 && reply.enters_ring(),
            RingCall::Reserve | RingCall::Pop | RingCall::TakeOverflow => true,
        }
    }

    /// Makes the call, and gives its answer: `answer` and `after` of `specs/Law.antt`, over which
    /// the law of a ring's calls is stated at `Ring::new`.
    pub fn apply(&mut self, call: RingCall) -> RingAnswer
        requires allowed { IsAllowed self.old call }
        ensures value { result ≡ answer self.old call }
        ensures after { self.new ≡ after self.old call }
    {
        match call {
            RingCall::Reserve => match self.reserve() {
                Ok(()) => RingAnswer::Reserved,
                Err(full) => RingAnswer::Refused(full),
            },
            RingCall::Unreserve => {
                self.unreserve();
                RingAnswer::Unreserved
            }
            RingCall::PushEvent(event) => RingAnswer::PushedEvent(self.push_event(event)),
            RingCall::PushReply(reply) => {
                self.push_reply(reply);
                RingAnswer::PushedReply
            }
            RingCall::Pop => RingAnswer::Popped(self.pop()),
            RingCall::TakeOverflow => RingAnswer::TookOverflow(self.take_overflow()),
        }
    }
}
