//! Scripts on a film, worked out by hand, on which the definitions of what a script leaves are seen
//! to say what the rules say.
ghost use Rattle.std.specs.Prelude.{◌++◌, None};
ghost use Rattle.mc_journal.specs.Worked.{drain_end, start};
ghost use Rattle.mc_script.specs.Plays.{Played, PlayedInPart};
ghost use Rattle.mc_script.specs.PlaysWorked.{all_given, last_drain, halves, halves_left, on_one, one_turn, reads, reads_left, refusals, refusals_left, seek_line, stale, stale_left, two_parts, unselected};

/// Worked scripts leave what they have to: a job that a seek makes stale brings nothing, one that
/// none does brings its outcome, `demux` and `read` leave so many records, a drain tells
/// each reader the end, and where nothing is selected a seek is refused and a drain is over at once.
pub fn worked_scripts()
    ensures stale { Played on_one stale None start (start ++ stale_left) }
    ensures halves { Played on_one halves None start (start ++ halves_left) }
    ensures reads { Played on_one reads None start (start ++ reads_left) }
    ensures drained { Played on_one last_drain None all_given (all_given ++ drain_end) }
    ensures refusals { Played on_one refusals None unselected (unselected ++ refusals_left) }
    ensures in_part { PlayedInPart on_one reads None start (start ++ halves_left) }
{}

/// A seek that leaves nothing is not played, and no more turns are than a line asks for.
pub fn wrong_plays()
    ensures no_seek { Played on_one seek_line None start start → ⊥ }
    ensures too_many { Played on_one one_turn None start (start ++ two_parts) → ⊥ }
{}
