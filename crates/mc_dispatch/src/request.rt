ghost use Rattle.std.specs.Prelude.{◌≡◌, IfOk};
ghost use Rattle.mc_dispatch.specs.Queue.{has_ticket, is_named, is_of};

use crate::call::Call;
use mc_value::NoMemory;
use sqlite_items::Items;
use std::alloc::Global;

/// A client's number.
#[derive(Clone, Copy, Debug, PartialEq, Eq)]
pub struct ClientNo(pub u32);

/// A call that waits: the client that made it, the ticket by which it is known, the number that its
/// reply bears, and the call.
#[derive(Debug, Drop)]
pub struct Request {
    /// The client that made the call.
    pub client: ClientNo,
    /// The number by which the player knows the call; no other request has it.
    pub ticket: u64,
    /// The number that the client gave: its reply bears it, and `abort` names it.
    pub id: u64,
    /// The call itself.
    pub call: Call,
}

/// Requests in order, the oldest first.
pub type Requests = Items<Request>;

impl Request {
    /// An equal request.
    pub fn copy(&self, alloc: Global) -> Result<Request, NoMemory>
        ensures { IfOk result (λ r. r ≡ self.now) }
    {
        Ok(Request {
            client: self.client,
            ticket: self.ticket,
            id: self.id,
            call: self.call.copy(alloc)?,
        })
    }

    pub(crate) fn has_ticket(&self, ticket: u64) -> bool
        ensures { result ≡ has_ticket ticket self.now }
    {
        self.ticket == ticket
    }

    pub(crate) fn is_of(&self, client: ClientNo) -> bool
        ensures { result ≡ is_of client self.now }
    {
        self.client.0 == client.0
    }

    pub(crate) fn is_named(&self, client: ClientNo, id: u64) -> bool
        ensures { result ≡ is_named client id self.now }
    {
        self.is_of(client) && self.id == id
    }
}
