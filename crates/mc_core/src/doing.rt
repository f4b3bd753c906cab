//! The outcome of an order is told.
ghost use Rattle.std.specs.Prelude.{◌≡◌, ◌<◌, IsSomeAnd, OnErr, OnOk, None as Nothing, [], ◌∷◌, reverse};
ghost use Rattle.mc_player.specs.Facts.{after_did};
ghost use Rattle.mc_player.specs.Journals.{due};
ghost use Rattle.mc_player.specs.Rules.{IsOutcome};
ghost use Rattle.mc_player.specs.declared.record.CoreRecord.TheVariants.{Did};
ghost use Rattle.mc_state.specs.Growth.{Adds, is_effect, is_reply};
ghost use Rattle.mc_state.specs.Pushing.{coming};
ghost use Rattle.mc_state.specs.Stands.{IsQuiet};
ghost use Rattle.mc_state.specs.Steps.{IsAsBefore};
ghost use Rattle.mc_core.specs.Doing.{EndsNow};

use crate::following::follow;
use mc_deeds::{End, copy_outcome, end_behind, follow_behind};
use mc_player::Outcome;
use mc_props::Reads;
use mc_props::meanings::Meaning;
use mc_state::State;
use mc_value::NoMemory;

/// Replies to what is worked, if anything is.
fn finish<F: Reads<M>, M: Meaning>(state: &mut State<F, M>, by: u32, end: Option<End>)
    requires ends { EndsNow M.value end state.old }
    requires due { due (reverse state.old.journal) ≡ [] }
    requires none { coming M.value state.old ≡ [] }
    requires room { 0 < state.old.spare }
    ensures adds { Adds is_reply by (reverse state.old.journal) (reverse state.new.journal) }
    ensures still { (state.new.out ≡ state.old.out) × (state.new.facts ≡ state.old.facts) }
    ensures entries { state.new.entries ≡ state.old.entries }
    ensures quiet { IsQuiet M.value state.new }
{
    state.stands();
    if let Some(end) = end {
        state.end_work(by, end.client, end.ticket, end.reply.event, end.reply.told);
    }
}

/// Takes in the outcome of the order that is out.
pub(crate) fn done<F: Reads<M>, M: Meaning>(
    state: &mut State<F, M>,
    by: u32,
    outcome: Outcome,
) -> Result<(), NoMemory>
    requires quiet { IsQuiet M.value state.old }
    requires outcome { IsSomeAnd state.old.out (λ o. IsOutcome o outcome) }
    ensures adds { OnOk result (Adds is_effect by
        (Did by outcome ∷ reverse state.old.journal) (reverse state.new.journal)) }
    ensures facts { OnOk result (state.new.facts ≡ after_did outcome state.old.facts) }
    ensures none_out { OnOk result (state.new.out ≡ Nothing) }
    ensures entries { state.new.entries ≡ state.old.entries }
    ensures quiet { IsQuiet M.value state.new }
    ensures err { OnErr result (IsAsBefore state.old state.new) }
{
    state.make_room_for_all()?;
    state.stands();
    let told = copy_outcome(&outcome)?;
    let effects = follow_behind(state.alloc(), state.facts(), state.count(), &outcome)?;
    let end = end_behind(state.alloc(), state.work(), &outcome, state.deed())?;
    state.did(by, outcome, told);
    follow(state, by, effects);
    finish(state, by, end);
    Ok(())
}
