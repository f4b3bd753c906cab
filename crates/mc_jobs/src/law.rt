//! What a file's octets are to a demuxer: laws over every film.
ghost use Rattle.std.specs.Prelude.{◌≡◌, ℕ, List, true, ℤ, Option};
ghost use Rattle.mc_packet.specs.declared.choice.Choice.{Choice};
ghost use Rattle.mc_packet.specs.declared.choice.Dir.{Dir};
ghost use Rattle.mc_packet.specs.declared.choice.Starts.{Starts};
ghost use Rattle.mc_packet.specs.declared.walk.Mark.{Mark};
ghost use Rattle.mc_walk.specs.declared.plan.Plan.{Plan};
ghost use Rattle.mc_walk.specs.Parts.{chunk_at, IsMark};
ghost use Rattle.mc_packet.specs.Choices.{is_known};
ghost use Rattle.mc_journal.specs.Films.{IsFilm, start_of, switch_start};
ghost use Rattle.mc_index.specs.Answers.{AreOfBlocks, SeekStarts, SwitchStarts, is_lead};
ghost use Rattle.mc_filmed.specs.Films.{plan_packets, film_for};
ghost use Rattle.mc_tracks.specs.Selection.{knows};
ghost use Rattle.mc_index.specs.Scans.{IsPlan};
ghost use Rattle.mc_calls.specs.Film.{AreFilmStarts, IsPartOf};

/// The chunk that stands at a mark of a film is a part of the film that a demuxer tells of, and its
/// end is a mark again.
pub fn film_parts()
    ensures part { (plan : Plan) (m : Mark) → IsPlan plan → IsFilm (plan_packets plan)
        → IsMark plan m
        → IsPartOf (film_for plan) (chunk_at plan m) }
    ensures mark { (plan : Plan) (m : Mark) → IsMark plan m → IsMark plan (chunk_at plan m).to }
{}

/// The starts that an index finds for tracks that the film lists are those of the film that a demuxer
/// tells of, and their mark is one from which the film can be read on.
pub fn film_starts()
    ensures seek { (plan : Plan) (set : Choice) (dir : Dir) (t : ℤ) (s : Starts)
        → is_known (knows plan.tracks) set ≡ true → AreOfBlocks plan s
        → SeekStarts plan set dir t s
        → AreFilmStarts (film_for plan) s set (start_of (plan_packets plan) set dir t) }
    ensures switch { (plan : Plan) (added : Choice) (lead : Option ℕ) (at : ℤ) (s : Starts)
        → is_known (knows plan.tracks) added ≡ true → is_lead plan lead ≡ true
        → AreOfBlocks plan s → SwitchStarts plan added lead at s
        → AreFilmStarts (film_for plan) s added (switch_start (plan_packets plan) lead added at) }
    ensures mark { (plan : Plan) (s : Starts) → IsPlan plan → AreOfBlocks plan s
        → IsMark plan s.mark }
{}
