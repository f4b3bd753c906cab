//! What each call of a demuxer and of a player's core adds to their journals.
ghost use Rattle.std.specs.Prelude.{◌≡◌, ℕ, ℤ, List, ◌∷◌, None, Ok, Err, Result};
ghost use Rattle.mc_packet.specs.declared.choice.Dir.{Dir};
ghost use Rattle.mc_packet.specs.declared.choice.Starts.{Starts};
ghost use Rattle.mc_packet.specs.declared.choice.Why.{Why};
ghost use Rattle.mc_packet.specs.declared.cache.CacheView.{CacheView};
ghost use Rattle.mc_packet.specs.declared.walk.Chunk.{Chunk};
ghost use Rattle.mc_tracks.specs.Selection.{choice_of, refusal_of};
ghost use Rattle.mc_dispatch.specs.declared.call.Call.{Call};
ghost use Rattle.mc_dispatch.specs.declared.request.ClientNo.{ClientNo};
ghost use Rattle.mc_journal.specs.Films.{Film};
ghost use Rattle.mc_journal.specs.declared.record.Sought.{Sought as How};
ghost use Rattle.mc_calls.specs.declared.answer.DemuxError.{DemuxError};
ghost use Rattle.mc_calls.specs.declared.answer.DemuxError.TheVariants.{Refused};
ghost use Rattle.mc_calls.specs.declared.answer.Reading.{Reading};
ghost use Rattle.mc_calls.specs.declared.answer.Selected.{Selected};
ghost use Rattle.mc_calls.specs.declared.answer.Taken.{Taken};
ghost use Rattle.mc_calls.specs.declared.waiting.Failure.{Failure};
ghost use Rattle.mc_calls.specs.Film.{StandsFor, failure_record};
ghost use Rattle.mc_calls.specs.Keeping.{IsAsBefore};
ghost use Rattle.mc_calls.specs.Outcomes.{Fails, Feeds, Finds};
ghost use Rattle.mc_calls.specs.Readings.{Reads};
ghost use Rattle.mc_calls.specs.Seeking.{Seeks};
ghost use Rattle.mc_calls.specs.Selecting.{Selects};
ghost use Rattle.mc_calls.specs.State.{DemuxState};
ghost use Rattle.mc_calls.specs.Viewing.{Shows};
ghost use Rattle.mc_player.specs.declared.record.Answer.{Answer};
ghost use Rattle.mc_player.specs.declared.record.Order.{Order};
ghost use Rattle.mc_player.specs.declared.record.Outcome.TheVariants as outcome;
ghost use Rattle.mc_player.specs.declared.record.CoreRecord.{CoreRecord};
ghost use Rattle.mc_player.specs.declared.record.CoreRecord.TheVariants.{Created, Destroyed};
ghost use Rattle.mc_player.specs.Lives.{Table};
ghost use Rattle.mc_core.specs.Calls.{Answers};
ghost use Rattle.mc_state.specs.Growth as grown;
ghost use Rattle.mc_core.specs.Working as working;
ghost use Rattle.mc_story.specs.Steps.{Adds, SeekAdds, SelectAdds, SwitchAdds, Works, is_effect, is_inner, is_plain};
ghost use Rattle.mc_steps.specs.Calls.{newest_first};

/// A seek and a selection add what a world's step says, and every other call no seek, selection or
/// refusal, whatever it answers.
pub fn demux_steps()
    // A seek: it is begun, or refused.
    ensures sought { (film : Film) (by : ℕ) (t : ℤ) (dir : Dir) (old new : DemuxState) (how : How)
        → StandsFor film old → Seeks by t dir old (Ok how) new
        → SeekAdds by t dir (newest_first old) outcome.Sought (newest_first new) }
    ensures refused { (by : ℕ) (t : ℤ) (dir : Dir) (old new : DemuxState) (why : Why)
        → Seeks by t dir old (Err (Refused why)) new
        → SeekAdds by t dir (newest_first old) (outcome.Refused why) (newest_first new) }
    // A selection: it is made, of the tracks of the numbers; it isn't refused where these are
    // known; and whatever it answers, it is what the driver's step says.
    ensures selected { (film : Film) (by : ℕ) (numbers : List ℕ) (at : ℤ) (old new : DemuxState)
        (answer : Selected) → StandsFor film old → Selects by numbers at old (Ok answer) new
        → SelectAdds by (choice_of old.list numbers) at (newest_first old)
        (outcome.Selected (choice_of old.list numbers)) (newest_first new) }
    ensures accepted { (by : ℕ) (numbers : List ℕ) (at : ℤ) (old new : DemuxState) (why : Why)
        → refusal_of old.list numbers ≡ None
        → Selects by numbers at old (Err (Refused why)) new → ⊥ }
    ensures switched { (film : Film) (by : ℕ) (numbers : List ℕ) (at : ℤ) (old new : DemuxState)
        (answer : Result Selected DemuxError)
        → StandsFor film old → Selects by numbers at old answer new
        → SwitchAdds by (choice_of old.list numbers) at (newest_first old) (newest_first new) }
    // Reads, looks, and what a job came to.
    ensures read { (by track : ℕ) (old new : DemuxState) (answer : Result Reading DemuxError)
        → Reads by track old answer new → Adds is_plain (newest_first old) (newest_first new) }
    ensures shown { (by : ℕ) (old new : DemuxState) (answer : Result CacheView DemuxError)
        → Shows by old answer new → Adds is_plain (newest_first old) (newest_first new) }
    ensures found { (n : ℕ) (starts : Starts) (old new : DemuxState)
        (answer : Result Taken DemuxError)
        → Finds n starts old answer new → Adds is_plain (newest_first old) (newest_first new) }
    ensures fed { (n : ℕ) (chunk : Chunk) (old new : DemuxState) (answer : Result Taken DemuxError)
        → Feeds n chunk old answer new → Adds is_plain (newest_first old) (newest_first new) }
    ensures failed { (n : ℕ) (failure : Failure) (old new : DemuxState) (taken : Taken)
        → Fails n failure (failure_record failure) old taken new
        → Adds is_plain (newest_first old) (newest_first new) }
    // A call that only made room left the journal as it was.
    ensures left { (old new : DemuxState) → IsAsBefore old new
        → newest_first new ≡ newest_first old }
{}

/// What a player's core writes behind a view, an outcome or an order is what a world's step says,
/// and a client's call leaves no view, order or outcome.
pub fn core_steps()
    // Behind a view and behind an outcome: news, and for an outcome a reply.
    ensures learned { (by : ℕ) (h new : List CoreRecord)
        → grown.Adds grown.is_news by h new → Adds is_effect h new }
    ensures done { (by : ℕ) (h new : List CoreRecord)
        → grown.Adds grown.is_effect by h new → Adds is_effect h new }
    // Work, with the order that is out behind it.
    ensures worked { (t : Table) (by : ℕ) (h new : List CoreRecord) (o : Order)
        → working.Works t by h o new → Works t by h (working.out_by o) new }
    // Clients come, go and call.
    ensures created { (by : ℕ) (c : ClientNo) (name : List ℕ) (size : ℕ) (h new : List CoreRecord)
        → new ≡ Created by c name size ∷ h → Adds is_inner h new }
    ensures gone { (by : ℕ) (c : ClientNo) (h new : List CoreRecord)
        → new ≡ Destroyed by c ∷ h → Adds is_inner h new }
    ensures called { (by : ℕ) (c : ClientNo) (call : Call) (a : Answer) (h new : List CoreRecord)
        → Answers by c call a h new → Adds is_inner h new }
{}
