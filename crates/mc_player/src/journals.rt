//! Journals of a player, worked out by hand, on which the rule of what may come next is seen to say
//! what it should.
ghost use Rattle.mc_player.specs.Rules.{IsAllowed};
ghost use Rattle.mc_player.specs.Worked.{ends, table};
ghost use Rattle.mc_player.specs.Wrong.{aborts_other, changes_twice, fills_over, learns_between, loads_twice, other_outcome, replies_early, replies_twice, same_name, same_number, same_ticket, skips_write, takes_late, writes_other};

/// A journal of two lives of one number is allowed: a client observes a property, the file is
/// loaded, a ring of two is full, so that a request is refused, two requests are aborted, one
/// pauses the player, and one's seek is out when the client goes; the client after it gets the
/// seek's event and no reply, ends the player, and is told of an overflow.
pub fn worked_journals()
    ensures { IsAllowed table ends }
{}

/// Wrong journals are not.
pub fn wrong_journals()
    // Clients: a name or a number that a living one has.
    ensures name { IsAllowed table same_name → ⊥ }
    ensures number { IsAllowed table same_number → ⊥ }
    // Requests: a ticket that was used, a reply before its request was taken, a second one, one
    // without the writing that is due before it; an abort of another client's request; a request
    // that is taken though the player ends.
    ensures ticket { IsAllowed table same_ticket → ⊥ }
    ensures early { IsAllowed table replies_early → ⊥ }
    ensures twice { IsAllowed table replies_twice → ⊥ }
    ensures unwritten { IsAllowed table skips_write → ⊥ }
    ensures abort { IsAllowed table aborts_other → ⊥ }
    ensures late { IsAllowed table takes_late → ⊥ }
    // Events: one that a full ring takes, a change that is given twice.
    ensures full { IsAllowed table fills_over → ⊥ }
    ensures change { IsAllowed table changes_twice → ⊥ }
    // Views and orders: a view that was not learned, or in the midst of a call; a file that is
    // ordered twice, an outcome of another order.
    ensures view { IsAllowed table writes_other → ⊥ }
    ensures between { IsAllowed table learns_between → ⊥ }
    ensures load { IsAllowed table loads_twice → ⊥ }
    ensures outcome { IsAllowed table other_outcome → ⊥ }
{}
