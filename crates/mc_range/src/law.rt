//! What a range's answers mean for the film: a law over every list of a film's packets of which the
//! range holds, of each track, exactly those in its span.
ghost use Rattle.std.specs.Prelude.{◌≡◌, ℕ, ◌<◌, ◌&&◌, true, Some, None, List, ℤ, IfSome, Option, is_some};
ghost use Rattle.mc_packet.specs.declared.choice.Choice.{Choice};
ghost use Rattle.mc_packet.specs.declared.choice.Dir.{Dir};
ghost use Rattle.mc_packet.specs.declared.choice.Kind.{Kind};
ghost use Rattle.mc_packet.specs.declared.choice.Starts.{Starts};
ghost use Rattle.mc_packet.specs.declared.walk.Chunk.{Chunk};
ghost use Rattle.mc_packet.specs.declared.walk.Mark.{Mark};
ghost use Rattle.mc_packet.specs.declared.packet.Packet.{Packet};
ghost use Rattle.mc_packet.specs.Choices.{is_distinct};
ghost use Rattle.mc_journal.specs.Ranges.{serves, served_head, bounds};
ghost use Rattle.mc_journal.specs.Films.{IsRising, rank};
ghost use Rattle.mc_journal.specs.Stands.{add_spans, fed_range, keep_tracks, new_range, union_range, cut_range};
ghost use Rattle.mc_queue.specs.declared.differences.Difference.{Difference};
ghost use Rattle.mc_queue.specs.declared.queue.UnionError.{UnionError};
ghost use Rattle.mc_queue.specs.declared.queue.UnionError.TheVariants.{NoMemory};
ghost use Rattle.mc_range.specs.Range.{IsBegun, IsRange, RangeState, as_range, is_same_set, meets_range, weight_of_all};
ghost use Rattle.mc_range.specs.Growing.{IsFed};
ghost use Rattle.mc_range.specs.Joining.{FirstDifference, IsJoined, JoinRefused};
ghost use Rattle.mc_range.specs.Serving.{AreHeads, HoldsFilm, heads_of};
ghost use Rattle.mc_range.specs.Tracks.{IsAdded, intervals, queue_under, retracked, selected_under, spans_touch};
ghost use Rattle.mc_range.specs.Filmed.{AreBounds, HaveFrames, IsPart, same_kinds, start_only};
ghost use Rattle.mc_range.specs.Cutting.{IsCut, weight_from};
ghost use Rattle.mc_range.specs.Bounds.{bounds_of};
ghost use Rattle.mc_range.specs.declared.cutting.Cut.{Cut};
ghost use Rattle.mc_journal.specs.Used as used;
ghost use Rattle.mc_journal.specs.Views.{forward_in, range_weight, spans_shown};
ghost use Rattle.mc_packet.specs.declared.cache.Heads.{Heads};

/// A range serves a seek exactly where the definition over the film's list says so, and its heads
/// are the places that the definition gives. So what is proved of serving ranges over lists holds of
/// these heads: on a regular film they are the starts over the whole film.
#[tactic(auto, using(crate::proofs::Films::film_served, crate::proofs::Films::film_heads))]
pub fn served_films()
    ensures served { (ps : List Packet) (r : RangeState) (set : Choice) (t : ℤ) (dir : Dir)
        → HoldsFilm ps r → is_some (heads_of r set t dir) ≡ serves ps set dir t (as_range r) }
    ensures heads { (ps : List Packet) (r : RangeState) (set : Choice) (t : ℤ) (dir : Dir)
        → HoldsFilm ps r → is_distinct set ≡ true
        → IfSome (heads_of r set t dir)
        (λ h. AreHeads set (served_head ps set dir t (as_range r)) h) }
{}

/// A range that begins is the new range of the definitions, and holds what the film has there.
#[tactic(auto, using(crate::proofs::Chosen::begun_ranges, crate::proofs::Chosen::begun_film))]
pub fn begun_ranges()
    ensures range { (set : Choice) (starts : Starts) (r : RangeState) → is_distinct set ≡ true
        → IsBegun set starts r → as_range r ≡ new_range set starts }
    ensures film { (ps : List Packet) (set : Choice) (starts : Starts) (r : RangeState)
        → IsBegun set starts r → HoldsFilm ps r }
{}

/// A range that is fed reaches as far as the definitions say, and where it is fed the film's next
/// part it goes on holding exactly the film's packets.
#[tactic(auto, using(crate::proofs::Fed::fed_ranges, crate::proofs::Fed::fed_film))]
pub fn fed_ranges()
    ensures range { (c : Chunk) (old new : RangeState) → IsFed c old new
        → as_range new ≡ fed_range c.to.pos c.ending (as_range old) }
    ensures film { (ps : List Packet) (c : Chunk) (old new : RangeState) → IsRising ps → IsPart ps c
        → c.from ≡ old.mark → IsRange old → IsFed c old new → HoldsFilm ps old → HoldsFilm ps new }
{}

/// Ranges touch where the intervals of their queues do.
#[tactic(auto, using(crate::proofs::Touching::meets_same))]
pub fn touching_spans()
    ensures spans { (r o : RangeState) → IsRange r → IsRange o
        → meets_range r o ≡ (is_same_set r.set o.set
        && spans_touch r.set (intervals r.queues) (intervals o.queues)) }
{}

/// Two ranges of one film that touch have no difference, so that only want of memory can refuse
/// their join; joined they are the union of the definitions, and hold exactly the film's packets.
pub fn joined_ranges()
    ensures range { (r o r' o' : RangeState) → IsRange r → IsRange o → meets_range r o ≡ true
        → IsJoined r o r' o' → as_range r' ≡ union_range (as_range r) (as_range o) }
    ensures film { (ps : List Packet) (r o r' o' : RangeState) → IsRising ps → IsRange r → IsRange o
        → meets_range r o ≡ true → IsJoined r o r' o' → HoldsFilm ps r → HoldsFilm ps o
        → HoldsFilm ps r' }
    ensures agree { (ps : List Packet) (r o : RangeState) (d : Option Difference) → IsRange r
        → IsRange o → meets_range r o ≡ true → HoldsFilm ps r → HoldsFilm ps o
        → FirstDifference r.queues o.queues d → d ≡ None }
    ensures memory { (ps : List Packet) (r o : RangeState) (e : UnionError) → IsRange r → IsRange o
        → meets_range r o ≡ true → HoldsFilm ps r → HoldsFilm ps o → JoinRefused r o e
        → e ≡ NoMemory }
{}

/// A range of other tracks keeps the spans of those that it has still, where no track changes its
/// kind, and holds exactly the film's packets in them.
#[tactic(auto, using(crate::proofs::Retracked::kept_ranges, crate::proofs::Retracked::kept_film))]
pub fn retracked_ranges()
    ensures range { (set : Choice) (r : RangeState) → IsRange r → same_kinds r.set set ≡ true
        → as_range (retracked set r) ≡ keep_tracks set (as_range r) }
    ensures film { (ps : List Packet) (set : Choice) (r : RangeState) → IsRange r
        → same_kinds r.set set ≡ true → HoldsFilm ps r → HoldsFilm ps (retracked set r) }
{}

/// A range to which a track is added has the empty span of its start besides its own, and holds
/// exactly the film's packets in them.
#[tactic(auto, using(crate::proofs::Retracked::added_ranges, crate::proofs::Retracked::added_film))]
pub fn added_ranges()
    ensures range { (kind : Kind) (track start : ℕ) (mark : Mark) (old new : RangeState)
        → IsRange old → IsRange new → selected_under kind old.set ≡ Some track
        → queue_under kind old.queues ≡ None → IsAdded kind track start mark old new
        → as_range new ≡ add_spans old.set (start_only kind start mark) (as_range old) }
    ensures film { (ps : List Packet) (kind : Kind) (track start : ℕ) (mark : Mark)
        (old new : RangeState) → IsRange new → queue_under kind old.queues ≡ None
        → IsAdded kind track start mark old new → HoldsFilm ps old → HoldsFilm ps new }
{}

/// What a range shows of itself is what the definitions show over the film's list: its spans, its
/// weight, the weight from the readers' places on, and its bounds.
pub fn shown_ranges()
    ensures spans { (r : RangeState) → IsRange r → HaveFrames (intervals r.queues)
        → spans_shown r.set (as_range r) ≡ intervals r.queues }
    ensures weight { (ps : List Packet) (r : RangeState) → IsRange r → HoldsFilm ps r
        → range_weight ps r.set (as_range r) ≡ weight_of_all r.queues }
    ensures ahead { (ps : List Packet) (r : RangeState) (place : ℕ → ℕ) (heads : Heads) → IsRange r
        → HoldsFilm ps r → AreHeads r.set place heads
        → forward_in ps r.set place (Some (as_range r)) ≡ weight_from heads r.queues }
    ensures bounds { (ps : List Packet) (r : RangeState) → HoldsFilm ps r
        → bounds_of r ≡ bounds ps r.set (as_range r) }
{}

/// A drop is the one of the definitions over the film's list, and what is left holds exactly the
/// film's packets still. Nothing is dropped only where the definitions have no drop. Each drop
/// makes the range lighter, and no packet at a head or behind it goes.
pub fn cut_ranges()
    ensures cut { (ps : List Packet) (old new : RangeState) (upto : ℕ → Option ℕ)
        (heads : Option Heads) (c : Cut) → IsRange old → IsRange new → HoldsFilm ps old
        → AreBounds old.set upto heads → IsCut heads old new (Some c)
        → used.IsCut ps old.set upto c.track (rank c.from) (rank c.to) (as_range old) }
    ensures range { (ps : List Packet) (old new : RangeState) (upto : ℕ → Option ℕ)
        (heads : Option Heads) (c : Cut) → IsRange old → IsRange new → HoldsFilm ps old
        → AreBounds old.set upto heads → IsCut heads old new (Some c)
        → as_range new ≡ cut_range c.track (rank c.to) (as_range old) }
    ensures film { (ps : List Packet) (old new : RangeState) (upto : ℕ → Option ℕ)
        (heads : Option Heads) (c : Cut) → IsRange old → IsRange new → HoldsFilm ps old
        → AreBounds old.set upto heads → IsCut heads old new (Some c) → HoldsFilm ps new }
    ensures without { (ps : List Packet) (old new : RangeState) (upto : ℕ → Option ℕ)
        (heads : Option Heads) → IsRange old → HoldsFilm ps old → AreBounds old.set upto heads
        → IsCut heads old new None → used.victim ps old.set upto (as_range old) ≡ None }
    ensures lighter { (heads : Option Heads) (old new : RangeState) (c : Cut) → IsRange old
        → IsCut heads old new (Some c) → weight_of_all new.queues < weight_of_all old.queues }
    ensures spares { (heads : Heads) (old new : RangeState) (c : Option Cut)
        → IsCut (Some heads) old new c
        → weight_from heads new.queues ≡ weight_from heads old.queues }
{}
