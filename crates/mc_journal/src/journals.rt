//! Journals of two films, worked out by hand, on which the definitions are seen to say what the
//! rules say.
ghost use Rattle.std.specs.Prelude.{◌≡◌, ◌∷◌, true, false};
ghost use Rattle.mc_journal.specs.Views.{is_idle};
ghost use Rattle.mc_journal.specs.Used.{IsUsed};
ghost use Rattle.mc_packet.specs.declared.walk.Ending.TheVariants.{Clean};
ghost use Rattle.mc_journal.specs.Films.{IsFilm, IsRegular};
ghost use Rattle.mc_journal.specs.Legal.{IsLegal};
ghost use Rattle.mc_journal.specs.WorkedFilms.{one, two, one_packets, one_known, opening, c0};
ghost use Rattle.mc_journal.specs.Crowded.{many, crowded, newest_dropped};
ghost use Rattle.mc_journal.specs.Worked.{usual, none_behind, one_ahead, drained, sent, joined, drained_twice, before_the_start, two_ranges, dropped, overfull, switched, failed_read, refused, waited, repeated, start, read, drained_forward, forward_to_last, forward_sent, forward_at, too_early, too_late, skips, ends_early, unjoined, switched_to_same};

/// The first worked film is one and is regular, so that its whole reading is legal.
pub fn worked_films()
    ensures film { IsFilm one_packets }
    ensures regular { IsRegular one_packets one_known }
    ensures legal { IsLegal one_packets Clean drained }
{}

/// Each worked journal is used: reading to the end, seeks that are sent and seeks that are served,
/// joins, drops and full caches, a read that fails, refusals, and switches: while a track is read,
/// while one waits, and while a seek is pending.
pub fn worked_journals()
    ensures drained { IsUsed one usual drained }
    ensures sent { IsUsed one usual sent }
    ensures joined { IsUsed one usual joined }
    ensures drained_twice { IsUsed one usual drained_twice }
    ensures before_the_start { IsUsed one usual before_the_start }
    ensures two_ranges { IsUsed one usual two_ranges }
    ensures dropped { IsUsed one none_behind dropped }
    ensures overfull { IsUsed one one_ahead overfull }
    ensures switched { IsUsed two usual switched }
    ensures failed_read { IsUsed one usual failed_read }
    ensures refused { IsUsed one usual refused }
    ensures waited { IsUsed two usual waited }
    ensures repeated { IsUsed one usual repeated }
    ensures idle { is_idle one_packets usual two_ranges ≡ true }
    ensures full { is_idle one_packets one_ahead (read opening (c0 93) 1 ∷ start) ≡ true }
    ensures busy { is_idle one_packets usual joined ≡ false }
{}

/// So are those with a seek forward.
pub fn forward_journals()
    ensures past { IsUsed one usual drained_forward }
    ensures to_last { IsUsed one usual forward_to_last }
    ensures sent { IsUsed one usual forward_sent }
    ensures at { IsUsed one usual forward_at }
{}

/// Wrong journals are not: a seek back served though a later keyframe may be unread, one forward
/// served though an earlier one may be, a packet left out, an end before the last packet, a join
/// left out, a switch to what is selected.
pub fn wrong_journals()
    ensures early { IsUsed one usual too_early → ⊥ }
    ensures late { IsUsed one usual too_late → ⊥ }
    ensures skips { IsUsed one usual skips → ⊥ }
    ensures ends { IsUsed one usual ends_early → ⊥ }
    ensures unjoined { IsUsed one usual unjoined → ⊥ }
    ensures same { IsUsed one usual switched_to_same → ⊥ }
{}

/// So is one by whose seeks an eleventh range comes to stand: the one that was used longest ago goes.
/// One in which the newest goes is not.
pub fn crowded_journals()
    ensures used { IsUsed many usual crowded }
    ensures newest { IsUsed many usual newest_dropped → ⊥ }
{}
