//! Journals of a demuxer and a player, worked out by hand, on which it is seen what tells one
//! story.
ghost use Rattle.std.specs.Prelude.{◌≡◌, false};
ghost use Rattle.mc_journal.specs.Worked.{both, start};
ghost use Rattle.mc_journal.specs.WorkedFilms.{one};
ghost use Rattle.mc_player.specs.Lives.{Table};
ghost use Rattle.mc_player.specs.Orders.{Loads};
ghost use Rattle.mc_player.specs.Rules.{IsAllowed};
ghost use Rattle.mc_story.specs.Runs.{Runs};
ghost use Rattle.mc_story.specs.Same.{same_story};
ghost use Rattle.mc_story.specs.Story.{OneStory, Views};
ghost use Rattle.mc_story.specs.Tie.{fresh_world};
ghost use Rattle.mc_story.specs.Worked.{film_one, hc, hc_back, hc_invented, hc_left_out, hc_lied, hc_none, hc_nothing, hc_other, hc_sought, hc_twice, hd, hd_carried_twice, hd_drivers, hd_given, hd_other_set, hd_refused, hd_sought};
ghost use Rattle.mc_story.specs.WorkedRun.{after_seek, steps};
ghost use Rattle.mc_story.specs.WorkedSelect.{done_again, switched, table};

/// A run of ten steps, of a load and of a client's seek, each of which meets its condition where it
/// is made, with 16 records of the player, each allowed.
pub fn worked_run()
    ensures { (t : Table) → Runs one film_one t steps (fresh_world 0 both) (after_seek t) }
{}

/// A client selects the same tracks twice: each of 21 records of the player is allowed, and the
/// demuxer's journal has one record of the two orders.
pub fn worked_selections()
    ensures allowed { IsAllowed table done_again }
    ensures story { OneStory 1 one film_one switched done_again }
{}

/// Two journals with seeks and selections of both callers, one that left no record and one that is
/// out, tell one story.
pub fn worked_story()
    ensures { OneStory 1 one film_one hd hc }
{}

/// Wrong ones don't.
pub fn wrong_stories()
    // Seeks: one that is answered as a selection, a refused one that is told as done, one that was
    // not ordered, one that was not carried, one that was carried twice or as the driver's.
    ensures other { same_story 1 hd_sought hc_other ≡ false }
    ensures lied { same_story 1 hd_refused hc_lied ≡ false }
    ensures none { same_story 1 hd_sought hc_none ≡ false }
    ensures uncarried { same_story 1 start hc_lied ≡ false }
    ensures again { same_story 1 hd_carried_twice hc_sought ≡ false }
    ensures drivers { same_story 1 hd_drivers hc_sought ≡ false }
    // Selections: one that was left out though another set was selected, or nothing before the film
    // was opened; other tracks than the order's.
    ensures left_out { same_story 1 start hc_left_out ≡ false }
    ensures nothing { same_story 1 start hc_nothing ≡ false }
    ensures set { same_story 1 hd_other_set hc_left_out ≡ false }
    // Views that skip back, and one that the cache never had; a file that is loaded twice.
    ensures back { Views 1 one hd_given hc_back → ⊥ }
    ensures view { Views 1 one hd_given hc_invented → ⊥ }
    ensures twice { Loads film_one hc_twice → ⊥ }
{}
