//! What it means for readers that a demuxer stands for a film: laws over every film and every
//! state of a demuxer.
ghost use Rattle.std.specs.Prelude.{◌≡◌, ℕ, true, None, reverse};
ghost use Rattle.mc_packet.specs.Choices.{has};
ghost use Rattle.mc_journal.specs.Films.{Film, IsRegular};
ghost use Rattle.mc_journal.specs.Legal.{IsLegal, IsGapless};
ghost use Rattle.mc_journal.specs.Used.{IsUsed, is_still};
ghost use Rattle.mc_calls.specs.declared.answer.Peek.TheVariants.{Finish};
ghost use Rattle.mc_calls.specs.declared.job.Job.TheVariants.{Idle};
ghost use Rattle.mc_calls.specs.State.{DemuxState, next_in};
ghost use Rattle.mc_calls.specs.Jobs.{job_of};
ghost use Rattle.mc_calls.specs.Demuxers.{IsDemux};
ghost use Rattle.mc_calls.specs.Readings.{peek_at, reading_of};
ghost use Rattle.mc_calls.specs.Film.{StandsFor};

/// Each record of a demuxer that stands for a film stands in its place, and behind the last one
/// nothing is left to be told: no drop is due, no join has to come, and no seek has to be sent
/// again. So what its readers were given is, of each track, a front of a fresh reading on a regular
/// film, and a run of the track's packets on any, and an end is told only where there is none left.
pub fn standing_journals()
    ensures used { (film : Film) (d : DemuxState) → StandsFor film d
        → IsUsed film d.cache.limits (reverse d.journal) }
    ensures still { (film : Film) (d : DemuxState) → StandsFor film d
        → is_still film.packets (reverse d.journal) ≡ true }
    ensures legal { (film : Film) (d : DemuxState) → StandsFor film d
        → IsRegular film.packets film.known → IsLegal film.packets film.ending (reverse d.journal) }
    ensures gapless { (film : Film) (d : DemuxState) → StandsFor film d
        → IsGapless film.packets film.ending (reverse d.journal) }
{}

/// A track whose reader was told the end has no packet at its head, until the next seek or
/// selection. Where nothing is to be done and no selected track has a packet at its head, a read
/// of each of them answers an end, a failure or want of memory.
pub fn resting_readers()
    ensures ended { (film : Film) (d : DemuxState) (track : ℕ) → StandsFor film d
        → has d.ended track ≡ true → next_in d.set d.heads track d.cache.current ≡ None }
    ensures told { (d : DemuxState) (track : ℕ) → IsDemux d → job_of d ≡ Idle
        → ((k : ℕ) → has d.set k ≡ true → next_in d.set d.heads k d.cache.current ≡ None)
        → has d.set track ≡ true → peek_at (reading_of track d) ≡ Finish }
{}
