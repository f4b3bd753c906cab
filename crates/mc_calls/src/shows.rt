//! What a demuxer that stands for a film shows of itself, told by its journal: laws over every film
//! and every state of a demuxer.
ghost use Rattle.std.specs.Prelude.{◌≡◌, ℕ, ◌+◌, ◌≤◌, None, ◌&&◌, IfSome, reverse};
ghost use Rattle.std.specs.Option.{option_map};
ghost use Rattle.mc_packet.specs.declared.packet.Packet.{Packet};
ghost use Rattle.mc_packet.specs.declared.walk.Mark.{Mark};
ghost use Rattle.mc_cache.specs.Cache.{mark_in};
ghost use Rattle.mc_journal.specs.declared.record.DemuxRecord.{DemuxRecord};
ghost use Rattle.mc_packet.specs.Choices.{has};
ghost use Rattle.mc_journal.specs.Films.{Film, at, rank};
ghost use Rattle.mc_journal.specs.Readings.{selected};
ghost use Rattle.mc_journal.specs.Drives.{can_tell};
ghost use Rattle.mc_journal.specs.Ranges.{Range};
ghost use Rattle.mc_journal.specs.Stands.{stand};
ghost use Rattle.mc_journal.specs.Views.{back, forward, is_idle, next};
ghost use Rattle.mc_calls.specs.State.{DemuxState, back_of, forward_of, next_in};
ghost use Rattle.mc_calls.specs.Jobs.{job_of};
ghost use Rattle.mc_calls.specs.Demuxers.{IsDemux, heaviest};
ghost use Rattle.mc_calls.specs.Readings.{peek_at, reading_of};
ghost use Rattle.mc_calls.specs.Records.{Wrote};
ghost use Rattle.mc_calls.specs.Film.{StandsFor};
ghost use Rattle.mc_calls.specs.ByJournal.{AreOne, IsAwaited, job_by, mark_by};
ghost use Rattle.mc_calls.specs.Marks.{AreAmong};
ghost use Rattle.mc_calls.specs.Tied.{told_marks};
ghost use Rattle.mc_calls.specs.Shows.{GivesNone, goal_of, is_finish, is_idle_job, pending_goal};

/// A reader's next packet is the film's that the journal leaves there, payload and all (`packet`), so
/// that it stands at its place (`front`), and is of the reader's track (`own`). The selected tracks are
/// those that the journal selects (`set`), and the target of a seek that was sent is the one that is
/// pending there (`pending`). A read of a selected track would tell an end, a failure or want of
/// memory exactly where by the journal no packet of it is next, and its end can be told or a read
/// failed (`tells`).
/// Where no packet of a track is next, neither the record of an answer that gives none nor the drops
/// behind it bring one (`quiet`). Nothing is to be done exactly where by the journal the demuxer is
/// idle (`idle`).
pub fn shown_readers()
    // what is next for a reader
    ensures packet { (film : Film) (d : DemuxState) (track : ℕ) → StandsFor film d
        → next_in d.set d.heads track d.cache.current
        ≡ next film.packets (reverse d.journal) track }
    ensures front { (film : Film) (d : DemuxState) (track : ℕ) → StandsFor film d
        → option_map (λ (p : Packet). rank p.pos) (next_in d.set d.heads track d.cache.current)
        ≡ option_map at (next film.packets (reverse d.journal) track) }
    ensures own { (d : DemuxState) (track : ℕ) → IsDemux d
        → IfSome (next_in d.set d.heads track d.cache.current) (λ p. p.track ≡ track) }
    // which tracks are selected, and where a seek goes that was sent
    ensures set { (film : Film) (d : DemuxState) → StandsFor film d
        → d.set ≡ selected (reverse d.journal) }
    ensures pending { (film : Film) (d : DemuxState) → StandsFor film d
        → option_map goal_of d.seeking ≡ pending_goal (reverse d.journal) }
    // what a read would tell, and what it leaves
    ensures tells { (film : Film) (d : DemuxState) (track : ℕ) → StandsFor film d
        → (has d.set track && is_finish (peek_at (reading_of track d)))
        ≡ can_tell film (reverse d.journal) track }
    ensures quiet { (film : Film) (d e : DemuxState) (track : ℕ) (by : ℕ) (own : DemuxRecord)
        → StandsFor film d → StandsFor film e → Wrote by own d.journal e.journal → GivesNone own
        → next_in d.set d.heads track d.cache.current ≡ None
        → next_in e.set e.heads track e.cache.current ≡ None }
    // whether anything is to be done
    ensures idle { (film : Film) (d : DemuxState) → IsDemux d → StandsFor film d
        → is_idle_job (job_of d) ≡ is_idle film.packets d.cache.limits (reverse d.journal) }
{}

/// The octets ahead of the readers and behind them are those that the journal tells (`forward`,
/// `back`). Those behind are at most the back limit (`within`), and both together at most the two
/// limits and the greatest weight that the packets of any block can have (`both`): a constant of
/// all films, as a block's payload has at most 67,108,864 octets and it has at most 256 frames.
pub fn cached_octets()
    ensures forward { (film : Film) (d : DemuxState) → IsDemux d → StandsFor film d
        → forward_of d ≡ forward film.packets (reverse d.journal) }
    ensures back { (film : Film) (d : DemuxState) → IsDemux d → StandsFor film d
        → back_of d ≡ back film.packets (reverse d.journal) }
    ensures within { (film : Film) (d : DemuxState) → IsDemux d → StandsFor film d
        → back film.packets (reverse d.journal) ≤ d.cache.limits.back }
    ensures both { (film : Film) (d : DemuxState) → IsDemux d → StandsFor film d
        → forward film.packets (reverse d.journal) + back film.packets (reverse d.journal)
        ≤ d.cache.limits.forward + d.cache.limits.back + heaviest }
{}

/// The job that comes next is the one that the journal tells, its number too, given the mark from
/// which the current range is read on (`job`). That mark stands at the place of the journal's current
/// range (`place`) and is one that the journal tells (`told`), as is the mark of each range; where
/// it tells one mark at each place, it is the newest one there (`mark`). A job whose outcome is
/// awaited bears the journal's number, and asks for what is to be found or read there (`kept`).
pub fn next_jobs()
    ensures job { (film : Film) (d : DemuxState) → IsDemux d → StandsFor film d
        → job_of d ≡ job_by film d.cache.limits (mark_in d.cache.current) (reverse d.journal) }
    ensures place { (film : Film) (d : DemuxState) → StandsFor film d
        → option_map (λ (m : Mark). m.pos) (mark_in d.cache.current)
        ≡ option_map (λ (r : Range). r.mark) (stand film.packets (reverse d.journal)).current }
    ensures told { (film : Film) (d : DemuxState) → StandsFor film d
        → AreAmong (told_marks (reverse d.journal)) d.cache }
    ensures mark { (film : Film) (d : DemuxState) → StandsFor film d
        → AreOne (told_marks (reverse d.journal))
        → mark_in d.cache.current ≡ mark_by film (reverse d.journal) }
    ensures kept { (film : Film) (d : DemuxState) → IsDemux d → StandsFor film d
        → IfSome d.kept (IsAwaited film (reverse d.journal)) }
{}
