ghost use Rattle.std.specs.Prelude.{◌≡◌, ◌<◌, ◌≤◌, ◌+◌, ◌^◌, ◌++◌, [], length, filter, take, slice_get, IfErr, IfOk, OnErr, OnOk, true, false};
ghost use Rattle.std.specs.List.{list_any};
ghost use Rattle.std.specs.Option.{option_copied};
ghost use Rattle.std.specs.VecDeque.{deque_capacity, deque_len};
ghost use Rattle.mc_dispatch.specs.Queue.{after_enqueue, after_removal, after_take, has_ticket, is_named, is_of, new_queue, with_room, without};
ghost use Rattle.mc_dispatch.specs.Turning.{turn};

use crate::request::{ClientNo, Request, Requests};
use mc_value::NoMemory;
use std::alloc::{AllocError, Global};
use std::collections::VecDeque;
use std::marker::Model;

/// The requests that wait, the oldest first. Only `reserve`, `enqueue` and `abort` take memory.
#[derive(Drop)]
pub struct Dispatch {
    // written by each call that puts a request in or takes some out
    requests: VecDeque<Request>,
    // set by `reserve`, and false again when a request was put in
    reserved: bool,
}

impl Model for Dispatch {
    ghost use Rattle.std.specs.Prelude.{◌≡◌, ◌<◌, ◌+◌, ◌^◌, true, length};
    ghost use Rattle.std.specs.Coded.{codes};
    ghost use Rattle.std.specs.VecDeque.{deque_capacity, deque_len};
    ghost use Rattle.mc_dispatch.specs.contracts.request.Request as request;
    ghost use Rattle.mc_dispatch.specs.Queue.{QueueState};

    ghost Value = { QueueState };

    ghost coded = { Prim.hlevel (codes, request.the_row.coded) };

    ghost view = { λ d. record { requests = d.requests.items; reserved = d.reserved } };

    ghost invariant = { λ d. (length d.requests.items < 2 ^ 32)
        × (d.reserved ≡ true → (deque_len d.requests < deque_capacity d.requests)
        × (length d.requests.items + 1 < 2 ^ 32)) };
}

impl Dispatch {
    /// An empty queue, with no room reserved.
    pub fn new(alloc: Global) -> Dispatch
        ensures { result ≡ new_queue }
    {
        Dispatch {
            requests: VecDeque::new(alloc),
            reserved: false,
        }
    }

    /// How many requests wait.
    pub fn len(&self) -> usize
        ensures value { result ≡ length self.now.requests }
        ensures within { result < 2 ^ 32 }
    {
        self.requests.len()
    }

    /// How many of a client's requests with the number wait: those that `abort` would take out.
    pub fn count(&self, client: ClientNo, id: u64) -> usize
        ensures value { result ≡ length (filter (is_named client id) self.now.requests) }
        ensures within { result ≤ length self.now.requests }
    {
        count_named(&self.requests, client, id)
    }

    /// Reserves room for one more request, for `enqueue_reserved`; the room stays until a request
    /// was put in. A queue of 2^32 - 1 requests has no memory for another. After `NoMemory` the
    /// queue is as it was.
    pub fn reserve(&mut self) -> Result<(), NoMemory>
        ensures after { OnOk result (self.new ≡ with_room self.old) }
        ensures err { OnErr result (self.new ≡ self.old) }
    {
        if self.requests.len() >= u32::MAX as usize {
            return Err(AllocError);
        }
        self.requests.reserve(1)?;
        self.reserved = true;
        Ok(())
    }

    /// Puts a request behind the others, in the room that `reserve` made.
    pub fn enqueue_reserved(&mut self, request: Request)
        requires room { self.old.reserved ≡ true }
        ensures after { self.new ≡ after_enqueue self.old request }
    {
        self.reserved = false;
        self.requests.push_back_reserved(request);
    }

    /// Puts a request behind the others. It is refused exactly where `reserve` would be, for want
    /// of memory, and handed back; the queue is then as it was.
    pub fn enqueue(&mut self, request: Request) -> Result<(), Request>
        ensures taken { OnOk result (self.new ≡ after_enqueue self.old request) }
        ensures refused { IfErr result (λ r. r ≡ request) }
        ensures err { OnErr result (self.new ≡ self.old) }
    {
        if self.reserve().is_err() {
            return Err(request);
        }
        self.enqueue_reserved(request);
        Ok(())
    }

    /// Takes the oldest request out.
    pub fn take(&mut self) -> Option<Request>
        ensures value { result ≡ slice_get self.old.requests 0 }
        ensures after { self.new ≡ after_take self.old }
    {
        self.requests.pop_front()
    }

    /// The oldest request, which stays.
    pub fn first(&self) -> Option<&Request>
        ensures { option_copied result ≡ slice_get self.now.requests 0 }
    {
        self.requests.front()
    }

    /// Takes the request with the ticket out, and answers whether there was one. The others keep
    /// their order. Tickets are told apart by the caller: where several requests have this one, all
    /// of them go.
    pub fn cancel(&mut self, ticket: u64) -> bool
        ensures found { result ≡ list_any (has_ticket ticket) self.old.requests }
        ensures after { self.new ≡ after_removal self.old (has_ticket ticket) }
    {
        let found = self.requests.iter().any(|r| r.has_ticket(ticket));
        self.requests.retain(|r| !r.has_ticket(ticket));
        found
    }

    /// Takes all requests of a client out, and answers how many there were. The others keep their
    /// order.
    pub fn drop_client(&mut self, client: ClientNo) -> u32
        ensures count { result ≡ length (filter (is_of client) self.old.requests) }
        ensures after { self.new ≡ after_removal self.old (is_of client) }
    {
        let before = self.requests.len();
        self.requests.retain(|r| !r.is_of(client));
        (before - self.requests.len()) as u32
    }

    /// Takes a client's requests with the number out, and gives them, the oldest first. The others
    /// keep their order. After `NoMemory` the queue is as it was.
    pub fn abort(&mut self, client: ClientNo, id: u64) -> Result<Requests, NoMemory>
        ensures removed { IfOk result (λ rs. rs ≡ filter (is_named client id) self.old.requests) }
        ensures after { OnOk result (self.new ≡ after_removal self.old (is_named client id)) }
        ensures err { OnErr result (self.new ≡ self.old) }
        ensures within { IfOk result (λ rs. length rs < 2 ^ 32) }
    {
        let count = self.count(client, id);
        let mut removed = VecDeque::with_capacity(*self.requests.allocator(), count)?;
        // What leaves the queue at the front finds its room again behind the others.
        self.requests.reserve(0)?;
        part(&mut self.requests, &mut removed, client, id);
        Ok(Requests::from_vec(removed.into_vec()))
    }
}

fn count_named(requests: &VecDeque<Request>, client: ClientNo, id: u64) -> usize
    ensures { result ≡ length (filter (is_named client id) requests.now.items) }
{
    requests.iter().filter(|r| r.is_named(client, id)).count()
}

/// Moves a client's requests with the number from the queue behind the removed ones.
fn part(queue: &mut VecDeque<Request>, removed: &mut VecDeque<Request>, client: ClientNo, id: u64)
    requires room { deque_len queue.old ≤ deque_capacity queue.old }
    requires space { length removed.old.items
        + length (filter (is_named client id) queue.old.items) ≤ deque_capacity removed.old }
    ensures kept { queue.new.items ≡ without (is_named client id) queue.old.items }
    ensures removed { removed.new.items ≡
        removed.old.items ++ filter (is_named client id) queue.old.items }
    ensures parted { length queue.new.items + length removed.new.items ≡
        length queue.old.items + length removed.old.items }
    ensures capacity { deque_capacity queue.new ≡ deque_capacity queue.old }
{
    let budget = queue.len();
    for _ in 0..budget {
        turn_one(queue, removed, client, id);
    }
}

/// Moves the oldest request behind the removed ones, or behind the others.
fn turn_one(
    queue: &mut VecDeque<Request>,
    removed: &mut VecDeque<Request>,
    client: ClientNo,
    id: u64,
)
    requires some { 0 < length queue.old.items }
    requires room { deque_len queue.old ≤ deque_capacity queue.old }
    requires space { length removed.old.items
        + length (filter (is_named client id) (take 1 queue.old.items))
        ≤ deque_capacity removed.old }
    ensures turned { (queue.new.items, removed.new.items) ≡
        turn (is_named client id) 1 (queue.old.items, removed.old.items) }
    ensures room { deque_len queue.new ≤ deque_capacity queue.new }
    ensures space { deque_capacity removed.new ≡ deque_capacity removed.old }
    ensures capacity { deque_capacity queue.new ≡ deque_capacity queue.old }
{
    let Some(request) = queue.pop_front() else {
        return;
    };
    if request.is_named(client, id) {
        removed.push_back_reserved(request);
    } else {
        queue.push_back_reserved(request);
    }
}
