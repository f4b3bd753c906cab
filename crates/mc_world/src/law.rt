//! Whatever steps a world makes, its two journals tell one story.
ghost use Rattle.std.specs.Prelude.{◌≡◌, ℕ, List, [], ◌∷◌, Result};
ghost use Rattle.mc_packet.specs.declared.choice.Choice.{Choice};
ghost use Rattle.mc_journal.specs.Films.{Film};
ghost use Rattle.mc_journal.specs.declared.record.DemuxRecord.TheVariants.{Opened};
ghost use Rattle.mc_calls.specs.Film.{StandsFor};
ghost use Rattle.mc_calls.specs.State.{DemuxState};
ghost use Rattle.mc_core.specs.Core.{CoreView, IsCore, history};
ghost use Rattle.mc_props.specs.declared.facts.Facts.{Facts};
ghost use Rattle.mc_props.specs.declared.reading.Reading.{Reading};
ghost use Rattle.mc_story.specs.Story.{OneStory};
ghost use Rattle.mc_steps.specs.Calls.{newest_first};
ghost use Rattle.mc_world.specs.declared.moves.Reply.{Reply};
ghost use Rattle.mc_world.specs.declared.moves.Step.{Step};
ghost use Rattle.mc_world.specs.declared.moves.WorldError.{WorldError};
ghost use Rattle.mc_world.specs.Steps.{May, Stepped};
ghost use Rattle.mc_world.specs.Story.{InStory, IsUnder, Runs};
ghost use Rattle.mc_world.specs.World.{WorldView, new_world, opening};

/// A world is in the story of its two journals from the start on, and each step that `World::step`
/// can make keeps it there, whatever it answers, where each order is carried under the player's
/// number `n` and the driver seeks and selects under others. Where a world is in it, what its
/// demuxer was asked under `n` is what its core ordered, each view that the core learned is that
/// of a front of the demuxer's journal, in order, and the file is loaded at most once, as opened.
pub fn world_story()
    // A new world over a demuxer that was only opened, and a core in which nothing has happened.
    ensures begins { (n by : ℕ) (value : ℕ → Facts → Reading) (film : Film) (set : Choice)
        (demux : DemuxState) (core : CoreView) (path : List ℕ)
        → demux.journal ≡ Opened by set ∷ [] → core.journal ≡ []
        → StandsFor film demux → IsCore value core
        → InStory n value film (new_world demux core path demux.list) }
    // A step, behind which the demuxer stands for its film and the core is one, as every world's.
    ensures step { (n : ℕ) (value : ℕ → Facts → Reading) (film : Film) (step : Step)
        (old new : WorldView) (r : Result Reply WorldError)
        → InStory n value film old → IsUnder n step → May old step → Stepped value step old r new
        → StandsFor film new.demux → IsCore value new.core → InStory n value film new }
    // Any number of steps, with whatever answers.
    ensures runs { (n : ℕ) (value : ℕ → Facts → Reading) (film : Film)
        (steps : List (Step × Result Reply WorldError)) (old new : WorldView)
        → InStory n value film old → Runs n value film steps old new → InStory n value film new }
    // What a world in the story tells.
    ensures story { (n : ℕ) (value : ℕ → Facts → Reading) (film : Film) (w : WorldView)
        → InStory n value film w
        → OneStory n film (opening w) (newest_first w.demux) (history w.core) }
{}

/// After every list of steps from a new world, whatever was answered, the two journals tell one
/// story of the film that was to be loaded: where each order was carried under `n`, and the driver
/// sought and selected under others.
pub fn every_run()
    ensures { (n by : ℕ) (value : ℕ → Facts → Reading) (film : Film) (set : Choice)
        (demux : DemuxState) (core : CoreView) (path : List ℕ)
        (steps : List (Step × Result Reply WorldError)) (w : WorldView)
        → demux.journal ≡ Opened by set ∷ [] → core.journal ≡ []
        → StandsFor film demux → IsCore value core
        → Runs n value film steps (new_world demux core path demux.list) w
        → OneStory n film (opening (new_world demux core path demux.list))
        (newest_first w.demux) (history w.core) }
{}
