//! What holds of every journal of a player whose records were allowed: laws on lists, of which the
//! calls of a player's core owe no more than that each record that they write may come next.
ghost use Rattle.std.specs.Prelude.{ℕ, List};
ghost use Rattle.mc_player.specs.declared.record.CoreRecord.{CoreRecord};
ghost use Rattle.mc_player.specs.Knowing.{KnowsTracks};
ghost use Rattle.mc_player.specs.Laws.{AbortCounts, AbortEnds, Always, AreListed, AtEach, CallStands, ChangeStands, Each, FullTold, HasFate, IsFifo, IsInOrder, IsUnderWay, PollStands, Replies, ReplyAnswers, WholeBefore, WriteStands};
ghost use Rattle.mc_player.specs.Lives.{Table};
ghost use Rattle.mc_player.specs.Orders.{LoadsOnce};
ghost use Rattle.mc_player.specs.Waiting.{Waits};

/// No event leaves out of order, a full ring and an overflow are told, and a client that finds no
/// event was given what each of its observers has. No request loses its reply or gets two, and
/// requests are taken in their order. What a request, an outcome or a view brings with it comes
/// whole, before anything else.
pub fn allowed_journals()
    // Events: what polls answered begins what a ring took, and all of it fits; a request is refused
    // and an event is dropped just where a ring is full; each poll answers what it has to, and one
    // that answers a change settles an observer.
    ensures fifo { Always (λ t h. (c : ℕ) → AtEach (IsFifo c) h) }
    ensures full { Always (λ t h. Each FullTold h) }
    ensures settled { Always (λ t h. Each (PollStands t) h) }
    ensures changes { Always (λ t h. Each (ChangeStands t) h) }
    // Calls that are no requests: each is answered at once.
    ensures calls { Always (λ t h. Each (CallStands t) h) }
    // Requests: a reply is the first of its ticket; each request waits, is worked, replied to or
    // gone; its reply has its number and kind; an abort is followed by its replies.
    ensures replies { Always (λ t h. Each Replies h) }
    ensures fate { Always (λ t h. HasFate h) }
    ensures answered { Always (λ t h. Each ReplyAnswers h) }
    ensures counted { Always (λ t h. AtEach AbortCounts h) }
    ensures aborted { Always (λ t h. Each AbortEnds h) }
    ensures order { Always (λ t h. IsInOrder h) }
    // Effects: what stands of a plan begins it, and is all of it where anything else comes; a
    // writing tells of each field that changed.
    ensures begun { Always (λ t h. AtEach (IsUnderWay t) h) }
    ensures worked { Always (λ t h. Each (WholeBefore t) h) }
    ensures masked { Always (λ t h. Each (WriteStands t) h) }
{}

/// The tracks that a player selects, orders or is about to order are tracks that its file lists,
/// each under its kind, and none of them encoded. The file is loaded at most once, and where it is
/// the one that was to be loaded, each outcome is of the order that was out.
pub fn known_tracks()
    ensures known { Always KnowsTracks }
    ensures loaded { Always (λ t h. LoadsOnce h) }
{}

/// Of any journal at all: the clients in order of creation are those that live, each under the name
/// that it came with.
pub fn listed_clients()
    ensures { (t : Table) (h : List CoreRecord) → AreListed t h }
{}

/// Each place that a client has set aside for a reply is that of a request that waits.
pub fn waiting_requests()
    ensures { Always Waits }
{}
