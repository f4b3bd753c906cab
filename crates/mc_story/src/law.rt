//! Whatever a world of a demuxer and a player does, its two journals tell one story: laws on lists.
ghost use Rattle.std.specs.Prelude.{◌≡◌, ℕ, ◌+◌, List, None, Some, true, ℤ};
ghost use Rattle.std.specs.List.{AllByRecursion};
ghost use Rattle.mc_packet.specs.Choices.{is_known};
ghost use Rattle.mc_packet.specs.declared.choice.Choice.{Choice};
ghost use Rattle.mc_tracks.specs.Selection.{choice_of, knows, numbers_of, refusal_of};
ghost use Rattle.mc_journal.specs.Films.{Film};
ghost use Rattle.mc_journal.specs.Used.{is_still};
ghost use Rattle.mc_player.specs.declared.record.Order.TheVariants as order;
ghost use Rattle.mc_player.specs.Lives.{Table};
ghost use Rattle.mc_player.specs.Orders.{Opening};
ghost use Rattle.mc_player.specs.Rules.{IsAllowed};
ghost use Rattle.mc_story.specs.Runs.{IsUnder, Runs, Step, Stepped};
ghost use Rattle.mc_story.specs.Steps.{Both};
ghost use Rattle.mc_story.specs.Story.{OneStory};
ghost use Rattle.mc_story.specs.Tie.{IsTied, fresh_world};
ghost use Rattle.mc_story.specs.Turns.{CoreTurn, CoreTurns, TurnInPart, views_learned};

/// The tie that every step keeps holds of a new world, and where it holds and each of the player's
/// records was allowed, the two journals tell one story.
pub fn tied_worlds()
    // A new world is tied.
    ensures fresh { (n by : ℕ) (film : Film) (w : Opening) (set : Choice)
        → IsTied n film w (fresh_world by set) }
    // A step keeps the tie, where each order is carried under n and nothing else of the driver is.
    ensures step { (n : ℕ) (film : Film) (w : Opening) (t : Table) (step : Step) (s e : Both)
        → IsUnder n step → Stepped film w t step s e
        → IsTied n film w s → IsTied n film w e }
    // A tied world's journals tell one story.
    ensures story { (n : ℕ) (film : Film) (w : Opening) (t : Table) (s : Both)
        → IsAllowed t s.hc → IsTied n film w s → OneStory n film w s.hd s.hc }
{}

/// After every list of steps from a new world, in which each order is carried under the number `n`
/// and the driver seeks and selects under others, the orders are what the demuxer was asked under
/// `n`, each learned view is that of a front of its journal, and the file is loaded at most once.
pub fn every_run()
    ensures { (n by : ℕ) (film : Film) (w : Opening) (t : Table) (set : Choice) (steps : List Step)
        (s : Both) → AllByRecursion (IsUnder n) steps
        → Runs film w t steps (fresh_world by set) s → OneStory n film w s.hd s.hc }
{}

/// A turn of the player's core, in which its order is carried under its number, keeps the tie, and
/// so does a turn in part.
pub fn every_turn()
    ensures whole { (n : ℕ) (film : Film) (w : Opening) (t : Table) (s e : Both)
        → is_still film.packets s.hd ≡ true → CoreTurn film w t n s e
        → IsTied n film w s → IsTied n film w e }
    ensures part { (n : ℕ) (film : Film) (w : Opening) (t : Table) (s e : Both)
        → is_still film.packets s.hd ≡ true → TurnInPart film w t n s e
        → IsTied n film w s → IsTied n film w e }
{}

/// So many turns learn just as many views.
pub fn counted_turns()
    ensures { (film : Film) (w : Opening) (t : Table) (by n : ℕ) (s e : Both)
        → CoreTurns film w t by n s e → views_learned e.hc ≡ views_learned s.hc + n }
{}

/// The tracks of a selection that is out are known ones of the file that was opened, and the
/// demuxer does not refuse to select them by their numbers, and selects just these.
pub fn known_orders()
    ensures known { (n : ℕ) (film : Film) (w : Opening) (t : Table) (s : Both) (set : Choice)
        (at : ℤ)
        → IsAllowed t s.hc → IsTied n film w s → s.order ≡ Some (order.Select set at)
        → is_known (knows w.tracks) set ≡ true }
    ensures selected { (n : ℕ) (film : Film) (w : Opening) (t : Table) (s : Both) (set : Choice)
        (at : ℤ)
        → IsAllowed t s.hc → IsTied n film w s → s.order ≡ Some (order.Select set at)
        → (refusal_of w.tracks (numbers_of set) ≡ None)
        × (choice_of w.tracks (numbers_of set) ≡ set) }
{}
