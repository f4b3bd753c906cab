//! What the calls of a cache mean for the film: over every list of a film's packets of which each
//! range holds, of each track, exactly those in its span, the ranges after a call are those that the
//! record of it leaves by the rules of `mc_journal`, and they hold the film's packets again.
ghost use Rattle.std.specs.Prelude.{◌≡◌, ◌<◌, ℕ, None, true, false, [], List, ℤ, IsSomeAnd, option_map, IfSome, is_some, drop, map, ◌∷◌, ◌-◌, sum_by};
ghost use Rattle.std.specs.List.{AllByRecursion};
ghost use Rattle.mc_packet.specs.declared.choice.Choice.{Choice};
ghost use Rattle.mc_packet.specs.declared.choice.Dir.{Dir};
ghost use Rattle.mc_packet.specs.declared.choice.Starts.{Starts};
ghost use Rattle.mc_packet.specs.declared.walk.Chunk.{Chunk};
ghost use Rattle.mc_packet.specs.declared.cache.Heads.{Heads};
ghost use Rattle.mc_packet.specs.declared.choice.Kind.{Kind};
ghost use Rattle.mc_packet.specs.declared.walk.Mark.{Mark};
ghost use Rattle.mc_journal.specs.declared.record.Removal.{Removal};
ghost use Rattle.mc_packet.specs.declared.packet.Packet.{Packet};
ghost use Rattle.mc_packet.specs.Choices.{is_distinct, or_else};
ghost use Rattle.mc_journal.specs.Films.{IsRising, rank};
ghost use Rattle.mc_journal.specs.Ranges.{serves};
ghost use Rattle.mc_journal.specs.Stands.{chosen, fed, first_that, found_with, left, ranges_of, switched, tidied, found, dropped};
ghost use Rattle.mc_journal.specs.Used.{Due, IsDue, due_found, due_switch, CutsIn};
ghost use Rattle.mc_journal.specs.Views.{chosen_head, forward_in, range_shown, range_weight};
ghost use Rattle.mc_journal.specs.Allowed.{MayCut, touched};
ghost use Rattle.mc_range.specs.Range.{IsRange, RangeState, as_range};
ghost use Rattle.mc_range.specs.Filmed.{IsPart, same_kinds, start_only};
ghost use Rattle.mc_range.specs.Serving.{AreHeads};
ghost use Rattle.mc_cache.specs.Cache.{CacheState, IsCache, IsOther, stand_of};
ghost use Rattle.mc_cache.specs.Changing.{AddsTrack, Feeds, IsChosen, IsLeft, IsOnlyRoomier, IsRetracked, IsSameButRoom, IsStarted, MayAdd, heads_in, server};
ghost use Rattle.mc_cache.specs.Joining.{IsJoinedUp, Joins};
ghost use Rattle.mc_cache.specs.Filmed.{AreTouched, HoldsAll, server_in, HoldsIn, JoinsFilm, joined_times};
ghost use Rattle.mc_cache.specs.Placed.{AddsStarts, AllFramed, HeadsAt, due_of};
ghost use Rattle.mc_cache.specs.Shown.{view_of};
ghost use Rattle.mc_cache.specs.Pruning.{Drops, ahead_in, back_of};
ghost use Rattle.mc_journal.specs.Views as views;

/// The range that a seek makes current is the first that serves it, as the rule over the film's list
/// says, and the others stay in their order.
#[tactic(auto, using(crate::proofs::Standing::server_film, crate::proofs::Standing::chosen_stand, crate::proofs::Standing::chosen_holds))]
pub fn chosen_films()
    ensures server { (ps : List Packet) (set : Choice) (t : ℤ) (dir : Dir) (st : CacheState)
        → IsCache st → HoldsAll ps set st
        → first_that (serves ps set dir t) (ranges_of (stand_of st))
        ≡ option_map as_range (server set t dir st) }
    ensures stand { (ps : List Packet) (set : Choice) (t : ℤ) (dir : Dir) (old new : CacheState)
        → IsCache old → HoldsAll ps set old → IsChosen set t dir old new
        → stand_of new ≡ tidied ps set (chosen (serves ps set dir t) (stand_of old)) }
    ensures film { (ps : List Packet) (set : Choice) (t : ℤ) (dir : Dir) (old new : CacheState)
        → HoldsAll ps set old → IsChosen set t dir old new → HoldsAll ps set new }
{}

/// A seek is answered exactly where the rule serves it from a range, with the heads of the rule; and
/// heads of all selected tracks that stand at their places are those of each queue of a range.
pub fn sought_films()
    ensures served { (ps : List Packet) (set : Choice) (t : ℤ) (dir : Dir) (st : CacheState)
        → IsCache st → HoldsAll ps set st
        → is_some (heads_in set t dir (server set t dir st))
        ≡ is_some (server_in ps set dir t st) }
    ensures heads { (ps : List Packet) (set : Choice) (t : ℤ) (dir : Dir) (st : CacheState)
        → IsCache st → HoldsAll ps set st → is_distinct set ≡ true
        → IfSome (heads_in set t dir (server set t dir st))
        (AreHeads set (λ track. chosen_head ps set dir t track (server_in ps set dir t st))) }
    ensures placed { (set : Choice) (heads : Heads) (place : ℕ → ℕ) (r : RangeState) → IsRange r
        → r.set ≡ set → AreHeads set place heads → HeadsAt set heads place r }
{}

/// A range that is left stands in front of the others, unless it holds nothing.
#[tactic(auto, using(crate::proofs::Standing::left_stand, crate::proofs::Standing::left_holds))]
pub fn left_films()
    ensures stand { (ps : List Packet) (set : Choice) (old new : CacheState) → IsCache old
        → HoldsAll ps set old → IsLeft old new
        → stand_of new ≡ tidied ps set (left (stand_of old)) }
    ensures film { (ps : List Packet) (set : Choice) (old new : CacheState) → IsCache old
        → HoldsAll ps set old → IsLeft old new → HoldsAll ps set new }
{}

/// A range that starts where none was current stands in front of nine others at most.
#[tactic(auto, using(crate::proofs::Standing::started_stand, crate::proofs::Standing::started_holds))]
pub fn started_films()
    ensures stand { (set : Choice) (starts : Starts) (drops : List Removal) (old new : CacheState)
        → is_distinct set ≡ true → old.current ≡ None → IsStarted set starts drops old new
        → stand_of new ≡ found_with set starts (stand_of old).others None }
    ensures film { (ps : List Packet) (set : Choice) (starts : Starts) (drops : List Removal)
        (old new : CacheState) → old.current ≡ None → HoldsAll ps set old
        → IsStarted set starts drops old new → HoldsAll ps set new }
{}

/// The current range grows by the part that it is fed.
#[tactic(auto, using(crate::proofs::Standing::fed_stand, crate::proofs::Standing::fed_holds))]
pub fn fed_films()
    ensures stand { (chunk : Chunk) (old new : CacheState) → Feeds chunk old new
        → stand_of new ≡ fed chunk.to.pos chunk.ending (stand_of old) }
    ensures film { (ps : List Packet) (set : Choice) (chunk : Chunk) (old new : CacheState)
        → IsRising ps → IsPart ps chunk → IsCache old
        → IsSomeAnd old.current (λ r. chunk.from ≡ r.mark) → HoldsAll ps set old
        → Feeds chunk old new → HoldsAll ps set new }
{}

/// Where no track changes its kind, the current range keeps its spans of the tracks that stay, and no
/// other range stands.
#[tactic(auto, using(crate::proofs::Standing::switched_stand, crate::proofs::Standing::switched_holds))]
pub fn switched_films()
    ensures stand { (ps : List Packet) (set next : Choice) (drops : List Removal)
        (old new : CacheState) → IsCache old → HoldsAll ps set old → same_kinds set next ≡ true
        → IsRetracked next drops old new → stand_of new ≡ switched next (stand_of old) }
    ensures film { (ps : List Packet) (set next : Choice) (drops : List Removal)
        (old new : CacheState) → IsCache old → HoldsAll ps set old → same_kinds set next ≡ true
        → IsRetracked next drops old new → HoldsAll ps next new }
{}

/// Ranges of one film don't differ, so that each join is one of the rule: the ranges are those that as
/// many joins leave, each where another range touches the current one.
pub fn joined_films()
    ensures { (ps : List Packet) (set : Choice) (first : RangeState) (beside : List RangeState)
        (r : RangeState) (rs : List RangeState) (n : ℕ) (drops : List Removal) → IsRising ps
        → IsRange first → HoldsIn ps set first → AllByRecursion IsOther beside
        → AllByRecursion (HoldsIn ps set) beside → Joins first beside r rs n drops
        → JoinsFilm ps set first beside r rs n drops }
{}

/// The joins that a call makes are the rule's, each where another range touches the current one, and
/// then none touches it; so none is left to be made, and nothing is told of them.
pub fn joined_up_films()
    ensures none_told { (ps : List Packet) (set : Choice) (n : ℕ) (drops : List Removal)
        (old new : CacheState) → IsRising ps → IsCache old → HoldsAll ps set old
        → IsJoinedUp n drops old new → drops ≡ [] }
    ensures stand { (ps : List Packet) (set : Choice) (n : ℕ) (drops : List Removal)
        (old new : CacheState) → IsRising ps → IsCache old → HoldsAll ps set old
        → IsJoinedUp n drops old new → joined_times n set (stand_of old) ≡ stand_of new }
    ensures touching { (ps : List Packet) (set : Choice) (n : ℕ) (drops : List Removal)
        (old new : CacheState) → IsRising ps → IsCache old → HoldsAll ps set old
        → IsJoinedUp n drops old new → AreTouched n set (stand_of old) }
    ensures done { (ps : List Packet) (set : Choice) (n : ℕ) (drops : List Removal)
        (old new : CacheState) → IsRising ps → IsCache old → HoldsAll ps set old
        → IsJoinedUp n drops old new
        → touched set (stand_of new).others (stand_of new).current ≡ false }
    ensures film { (ps : List Packet) (set : Choice) (n : ℕ) (drops : List Removal)
        (old new : CacheState) → IsRising ps → IsCache old → HoldsAll ps set old
        → IsJoinedUp n drops old new → HoldsAll ps set new }
{}

/// Making room changes nothing of the ranges, and each head stays where it was.
#[tactic(auto, using(crate::proofs::Roomy::room_stand, crate::proofs::Roomy::room_film, crate::proofs::Roomy::room_heads, crate::proofs::Roomy::roomier_stand, crate::proofs::Roomy::roomier_film))]
pub fn roomy_films()
    ensures stand { (old new : CacheState) → IsSameButRoom old new → stand_of new ≡ stand_of old }
    ensures film { (ps : List Packet) (set : Choice) (old new : CacheState) → IsSameButRoom old new
        → HoldsAll ps set old → HoldsAll ps set new }
    ensures heads { (set : Choice) (heads : Heads) (place : ℕ → ℕ) (old new : CacheState)
        → IsSameButRoom old new → IfSome old.current (HeadsAt set heads place)
        → IfSome new.current (HeadsAt set heads place) }
    ensures only_stand { (old new : CacheState) → IsOnlyRoomier old new
        → stand_of new ≡ stand_of old }
    ensures only_film { (ps : List Packet) (set : Choice) (old new : CacheState)
        → IsOnlyRoomier old new → HoldsAll ps set old → HoldsAll ps set new }
{}

/// A track that is added to the current range has the empty span of its start there, and the tracks
/// that are added one kind behind the other are those of the starts that were found.
#[tactic(auto, using(crate::proofs::Added::added_stand, crate::proofs::Added::added_holds, crate::proofs::Added::starts_stand, crate::proofs::Added::starts_holds))]
pub fn added_films()
    ensures stand { (ps : List Packet) (set : Choice) (kind : Kind) (track start : ℕ) (mark : Mark)
        (old new : CacheState) → IsCache old → IsCache new → HoldsAll ps set old
        → MayAdd kind track old → AddsTrack kind track start mark old new
        → stand_of new ≡ found set (start_only kind start mark) (stand_of old) }
    ensures film { (ps : List Packet) (set : Choice) (kind : Kind) (track start : ℕ) (mark : Mark)
        (old new : CacheState) → IsCache new → HoldsAll ps set old → MayAdd kind track old
        → AddsTrack kind track start mark old new → HoldsAll ps set new }
    ensures all_stand { (ps : List Packet) (set : Choice) (starts : Starts) (old new : CacheState)
        → IsCache old → HoldsAll ps set old
        → is_some (or_else starts.video (or_else starts.audio starts.sub)) ≡ true
        → AddsStarts set starts old new → stand_of new ≡ found set starts (stand_of old) }
    ensures all_film { (ps : List Packet) (set : Choice) (starts : Starts) (old new : CacheState)
        → IsCache old → HoldsAll ps set old → AddsStarts set starts old new → HoldsAll ps set new }
{}

/// What a start and a selection tell are the drops that are then due, in their order: the first of
/// them is the next that is due, and the others stand behind it.
#[tactic(auto, using(crate::proofs::FilmTold::started_told, crate::proofs::FilmTold::retracked_told, crate::proofs::FilmTold::told_next))]
pub fn told_films()
    ensures start { (ps : List Packet) (set : Choice) (starts : Starts) (drops : List Removal)
        (old new : CacheState) → IsCache old → HoldsAll ps set old → old.current ≡ None
        → IsStarted set starts drops old new → map due_of drops ≡ due_found ps set (stand_of old) }
    ensures switch { (ps : List Packet) (set next : Choice) (drops : List Removal)
        (old new : CacheState) → IsCache old → HoldsAll ps set old → same_kinds set next ≡ true
        → IsRetracked next drops old new
        → map due_of drops ≡ due_switch ps set next (stand_of old) }
    ensures next { (m : Removal) (ms : List Removal) (ds : List Due) → map due_of (m ∷ ms) ≡ ds
        → IsDue ds m.track (rank m.from) (rank m.to) m.cause × (map due_of ms ≡ drop 1 ds) }
{}

/// What a look at the cache shows is what the rules show of its ranges: each range's bounds and
/// spans, the octets ahead of the heads and behind them, and the current range's beginning and ending.
#[tactic(auto, using(crate::proofs::Viewed::ranges_shown, crate::proofs::Viewed::forward_shown, crate::proofs::Viewed::back_shown, crate::proofs::Viewed::bof_shown, crate::proofs::Viewed::ending_shown))]
pub fn viewed_films()
    ensures ranges { (ps : List Packet) (set : Choice) (heads : Heads) (st : CacheState)
        → IsCache st → HoldsAll ps set st → AllFramed st
        → (view_of heads st).ranges ≡ map (range_shown ps set) (ranges_of (stand_of st)) }
    ensures forward { (ps : List Packet) (set : Choice) (heads : Heads) (place : ℕ → ℕ)
        (st : CacheState) → IsCache st → HoldsAll ps set st
        → IfSome st.current (HeadsAt set heads place)
        → (view_of heads st).forward ≡ forward_in ps set place (stand_of st).current }
    ensures back { (ps : List Packet) (set : Choice) (heads : Heads) (place : ℕ → ℕ)
        (st : CacheState) → IsCache st → HoldsAll ps set st
        → IfSome st.current (HeadsAt set heads place)
        → (view_of heads st).back
        ≡ sum_by (range_weight ps set) (ranges_of (stand_of st))
        - forward_in ps set place (stand_of st).current }
    ensures bof { (ps : List Packet) (set : Choice) (heads : Heads) (st : CacheState) → IsCache st
        → HoldsAll ps set st → (view_of heads st).bof ≡ views.begins_in set (stand_of st).current }
    ensures ending { (heads : Heads) (st : CacheState)
        → (view_of heads st).ending ≡ views.ending_in (stand_of st).current }
{}

/// No other range is without a packet, so that none goes for that.
#[tactic(auto, using(crate::proofs::Viewed::tidy))]
pub fn tidy_films()
    ensures { (ps : List Packet) (set : Choice) (st : CacheState) → IsCache st → HoldsAll ps set st
        → tidied ps set (stand_of st) ≡ stand_of st }
{}

/// A drop that the limit asks for is the cut of the rule, of no packet at a head or behind it; the
/// ranges are those that its record leaves, and each head stays where it was. What lies at the heads
/// or behind them stays, and what lies in front of them gets less, so that dropping comes to an end.
pub fn pruned_films()
    ensures stand { (ps : List Packet) (set : Choice) (heads : Heads) (m : Removal)
        (old new : CacheState) → IsCache old → HoldsAll ps set old → Drops heads m old new
        → stand_of new ≡ tidied ps set (dropped m.track (rank m.to) m.cause (stand_of old)) }
    ensures film { (ps : List Packet) (set : Choice) (heads : Heads) (m : Removal)
        (old new : CacheState) → IsCache old → HoldsAll ps set old → Drops heads m old new
        → HoldsAll ps set new }
    ensures cut { (ps : List Packet) (set : Choice) (heads : Heads) (place : ℕ → ℕ) (m : Removal)
        (old new : CacheState) → IsCache old → HoldsAll ps set old
        → IfSome old.current (HeadsAt set heads place) → Drops heads m old new
        → CutsIn ps set place m.track (rank m.from) (rank m.to)
        (stand_of old).current (stand_of old).others }
    ensures may { (ps : List Packet) (set : Choice) (heads : Heads) (place : ℕ → ℕ) (m : Removal)
        (old new : CacheState) → IsCache old → HoldsAll ps set old
        → IfSome old.current (HeadsAt set heads place) → Drops heads m old new
        → MayCut m.track (rank m.from) (rank m.to) (place m.track)
        (stand_of old).current (stand_of old).others }
    ensures heads { (ps : List Packet) (set : Choice) (heads : Heads) (place : ℕ → ℕ) (m : Removal)
        (old new : CacheState) → IsCache old → HoldsAll ps set old
        → IfSome old.current (HeadsAt set heads place) → Drops heads m old new
        → IfSome new.current (HeadsAt set heads place) }
    ensures spares { (heads : Heads) (m : Removal) (old new : CacheState) → Drops heads m old new
        → ahead_in heads new.current ≡ ahead_in heads old.current }
    ensures less { (heads : Heads) (m : Removal) (old new : CacheState) → IsCache old
        → Drops heads m old new → back_of heads new < back_of heads old }
{}
