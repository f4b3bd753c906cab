//! What follows a taken request or an outcome is written and pushed.
ghost use Rattle.std.specs.Prelude.{◌≡◌, ◌≤◌, ◌+◌, [], length, reverse};
ghost use Rattle.mc_deeds.specs.Follow.{FitsFollow, plan_follow};
ghost use Rattle.mc_deeds.specs.declared.follow.Follow.TheVariants.{Loads, Quits};
ghost use Rattle.mc_state.specs.Growth.{Adds, is_news, is_push};
ghost use Rattle.mc_state.specs.Pushing.{Within, coming};
ghost use Rattle.mc_state.specs.Stands.{table_of};

use crate::pushing::{push_all, send_all};
use mc_deeds::{Follow, Signal};
use mc_props::fields::{FILE, SELECTION};
use mc_props::meanings::Meaning;
use mc_props::{Facts, Reads};
use mc_state::State;

/// Tells each client that the file ends, since the player does, and of its shutdown.
fn push_end<F: Reads<M>, M: Meaning>(state: &mut State<F, M>, by: u32)
    requires due { coming M.value state.old ≡
        plan_follow (table_of M.value state.old) (reverse state.old.journal)
        state.old.order Quits }
    requires room { length state.old.order + length state.old.order ≤ state.old.spare }
    ensures none { coming M.value state.new ≡ [] }
    ensures adds { Adds is_push by (reverse state.old.journal) (reverse state.new.journal) }
    ensures within { Within (length state.old.order + length state.old.order)
        state.old state.new }
{
    push_all(state, by, Signal::EndFile);
    push_all(state, by, Signal::Shutdown);
}

/// Tells each client that a file was opened.
fn push_load<F: Reads<M>, M: Meaning>(state: &mut State<F, M>, by: u32, facts: Facts)
    requires due { coming M.value state.old ≡
        plan_follow (table_of M.value state.old) (reverse state.old.journal)
        state.old.order (Loads facts) }
    requires facts { facts ≡ state.old.facts }
    requires room { length state.old.order + length state.old.order + 1 ≤ state.old.spare }
    ensures none { coming M.value state.new ≡ [] }
    ensures adds { Adds is_news by (reverse state.old.journal) (reverse state.new.journal) }
    ensures within { Within (length state.old.order + length state.old.order + 1)
        state.old state.new }
{
    push_all(state, by, Signal::StartFile);
    state.wrote(by, FILE + SELECTION, facts);
    push_all(state, by, Signal::FileLoaded);
}

/// What follows is written and pushed.
pub(crate) fn follow<F: Reads<M>, M: Meaning>(state: &mut State<F, M>, by: u32, follow: Follow)
    requires due { coming M.value state.old ≡
        plan_follow (table_of M.value state.old) (reverse state.old.journal)
        state.old.order follow }
    requires fits { FitsFollow state.old.facts (length state.old.order) follow }
    requires room { length state.old.order + length state.old.order + 1 ≤ state.old.spare }
    ensures none { coming M.value state.new ≡ [] }
    ensures adds { Adds is_news by (reverse state.old.journal) (reverse state.new.journal) }
    ensures within { Within (length state.old.order + length state.old.order + 1)
        state.old state.new }
{
    match follow {
        Follow::Nothing => {}
        Follow::Writes { mask, facts } => state.wrote(by, mask, facts),
        Follow::Sends { words, events } => send_all(state, by, &words, events),
        Follow::SendsTo { client, event } => {
            state.push_to(by, client, event.event, event.told);
        }
        Follow::Quits => push_end(state, by),
        Follow::Loads { facts } => push_load(state, by, facts),
        Follow::Seeks => push_all(state, by, Signal::Seek),
    }
}
