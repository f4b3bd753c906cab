//! What the demuxer's cache tells.
ghost use Rattle.std.specs.Prelude.{◌≡◌, ◌≤◌, ◌&&◌, IfOk, OnErr, OnOk, [], ◌∷◌, length, reverse};
ghost use Rattle.mc_player.specs.Facts.{with_view};
ghost use Rattle.mc_player.specs.declared.record.CoreRecord.TheVariants.{Learned};
ghost use Rattle.mc_state.specs.Growth.{Adds, is_news, is_push};
ghost use Rattle.mc_state.specs.Pushing.{Within, coming};
ghost use Rattle.mc_state.specs.Stands.{IsQuiet};
ghost use Rattle.mc_state.specs.Steps.{IsAsBefore};
ghost use Rattle.mc_core.specs.Learning.{MayRestart};

use crate::pushing::push_all;
use mc_deeds::Signal;
use mc_packet::CacheView;
use mc_props::fields::CACHE;
use mc_props::meanings::Meaning;
use mc_props::{Facts, Reads};
use mc_state::State;
use mc_value::NoMemory;
use std::alloc::Global;

fn is_due(restart: bool, playing: bool) -> bool
    ensures { result ≡ (restart && playing) }
{
    restart && playing
}

/// Tells each client of a restart, where one is due.
fn restarted<F: Reads<M>, M: Meaning>(state: &mut State<F, M>, by: u32, due: bool)
    requires plan { MayRestart M.value due state.old }
    requires room { length state.old.order ≤ state.old.spare }
    ensures none { coming M.value state.new ≡ [] }
    ensures adds { Adds is_push by (reverse state.old.journal) (reverse state.new.journal) }
    ensures within { Within (length state.old.order) state.old state.new }
{
    if due {
        push_all(state, by, Signal::Restart);
    }
}

/// The facts with another view.
fn facts_with(alloc: Global, facts: &Facts, view: CacheView) -> Result<Facts, NoMemory>
    ensures { IfOk result (λ f. f ≡ with_view facts.now view) }
{
    let mut copy = facts.copy(alloc)?;
    copy.cache = view;
    Ok(copy)
}

/// Takes in what the demuxer's cache tells of itself.
pub(crate) fn learn<F: Reads<M>, M: Meaning>(
    state: &mut State<F, M>,
    by: u32,
    view: CacheView,
) -> Result<(), NoMemory>
    requires quiet { IsQuiet M.value state.old }
    ensures adds { OnOk result (Adds is_news by
        (Learned by view ∷ reverse state.old.journal) (reverse state.new.journal)) }
    ensures out { state.new.out ≡ state.old.out }
    ensures facts { OnOk result (state.new.facts ≡ with_view state.old.facts view) }
    ensures entries { state.new.entries ≡ state.old.entries }
    ensures quiet { IsQuiet M.value state.new }
    ensures err { OnErr result (IsAsBefore state.old state.new) }
{
    state.make_room_for_all()?;
    state.stands();
    let told = view.copy(state.alloc())?;
    let facts = facts_with(state.alloc(), state.facts(), view.copy(state.alloc())?)?;
    let due = is_due(state.restarts(), view.playing);
    state.learned(by, view, told);
    state.wrote(by, CACHE, facts);
    restarted(state, by, due);
    Ok(())
}
