//! What holds of every range that serves a seek, and of every journal whose records stand in
//! their places: laws on lists, of which the calls of a demuxer owe no more than that each record
//! that they write may come next.
ghost use Rattle.std.specs.Prelude.{◌≡◌, ℕ, ◌≤◌, ℤ, Bool, true, List, ◌++◌, reverse, IfSome};
ghost use Rattle.mc_packet.specs.declared.choice.Choice.{Choice};
ghost use Rattle.mc_packet.specs.declared.choice.Kind.{Kind};
ghost use Rattle.mc_packet.specs.declared.choice.Dir.{Dir};
ghost use Rattle.mc_packet.specs.declared.cache.Limits.{Limits};
ghost use Rattle.mc_journal.specs.declared.record.DemuxRecord.{DemuxRecord};
ghost use Rattle.mc_packet.specs.declared.packet.Packet.{Packet};
ghost use Rattle.mc_packet.specs.Choices.{has, is_known};
ghost use Rattle.mc_journal.specs.Films.{Film, IsRising, IsFilm, IsRegular, first_lane, start_of};
ghost use Rattle.mc_journal.specs.Ranges.{Range, within, serves, served_head, IsWhole};
ghost use Rattle.mc_journal.specs.Views.{from_place};
ghost use Rattle.mc_journal.specs.Legal.{IsLegal, IsGapless};
ghost use Rattle.mc_journal.specs.Allowed.{IsAllowed};
ghost use Rattle.mc_journal.specs.Used.{IsUsed, AreNext};

/// The heads of a range that serves a seek, back or forward, are the starts that the rule over
/// the whole film gives, where the film is regular and the range has its ending only once it was
/// read to it. They lie at or behind the begins of its spans, on any film.
pub fn serving_ranges()
    ensures starts { (ps : List Packet) (known : Kind → ℕ → Bool) (r : Range)
        (set : Choice) (dir : Dir) (t : ℤ)
        → IsFilm ps → IsRegular ps known → IsWhole ps r
        → is_known known set ≡ true → serves ps set dir t r ≡ true
        → (track : ℕ)
        → served_head ps set dir t r track ≡ first_lane (start_of ps set dir t track) }
    ensures ahead { (ps : List Packet) (r : Range) (set : Choice) (dir : Dir) (t : ℤ)
        → IsFilm ps → serves ps set dir t r ≡ true → (track : ℕ) → has set track ≡ true
        → IfSome (r.spans track) (λ s. s.from ≤ served_head ps set dir t r track) }
{}

/// A journal whose every record is allowed is legal on a regular film, and gapless on any. A used
/// journal is one, and goes on being used where records come behind it that stand in their places.
pub fn allowed_journals()
    ensures legal { (film : Film) (h : List DemuxRecord)
        → IsFilm film.packets → IsRegular film.packets film.known → IsAllowed film h
        → IsLegal film.packets film.ending h }
    ensures gapless { (film : Film) (h : List DemuxRecord)
        → IsFilm film.packets → IsAllowed film h → IsGapless film.packets film.ending h }
    ensures used { (film : Film) (limits : Limits) (h : List DemuxRecord)
        → IsUsed film limits h → IsAllowed film h }
    ensures onward { (film : Film) (limits : Limits) (hd rs : List DemuxRecord)
        → IsUsed film limits (reverse hd) → AreNext film limits (reverse hd) rs
        → IsUsed film limits (reverse (hd ++ rs)) }
{}

/// What a queue holds is what lies between its ends: up to a place and from there on it is all of
/// it, which is how a queue grows and how two that meet become one; a cut leaves what lies behind.
pub fn queues()
    ensures split { (ps : List Packet) (from mid to : ℕ) → IsRising ps → from ≤ mid → mid ≤ to
        → within from to ps ≡ within from mid ps ++ within mid to ps }
    ensures cut { (ps : List Packet) (from place to : ℕ) → from ≤ place
        → from_place place (within from to ps) ≡ within place to ps }
{}
