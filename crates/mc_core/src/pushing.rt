//! Events that go to each client, in order of creation.
ghost use Rattle.std.specs.Prelude.{◌≡◌, ◌<◌, ◌≤◌, ◌+◌, List, drop, length, reverse};
ghost use Rattle.std.specs.List.{AllByRecursion};
ghost use Rattle.mc_ring.specs.declared.event.Event.TheVariants as event;
ghost use Rattle.mc_player.specs.Effects.{Effect};
ghost use Rattle.mc_deeds.specs.Follow.{IsTwice};
ghost use Rattle.mc_deeds.specs.Signals.{event_of};
ghost use Rattle.mc_state.specs.Growth.{Adds, is_push};
ghost use Rattle.mc_state.specs.Pushing.{ComesWith, IsToPush, Within, coming};

use mc_deeds::{Signal, Twice};
use mc_props::Reads;
use mc_props::meanings::Meaning;
use mc_state::State;
use mc_value::Words;

/// Pushes to the client at a place in the order of creation.
fn push_next<F: Reads<M>, M: Meaning>(state: &mut State<F, M>, by: u32, i: usize, signal: Signal)
    requires here { i < length state.old.order }
    requires due { IsToPush M.value (event_of signal) (drop i state.old.order) state.old }
    requires room { 0 < state.old.spare }
    ensures ahead { (later : List Effect)
        → ComesWith M.value (event_of signal) (drop i state.old.order) later state.old
        → ComesWith M.value (event_of signal) (drop (i + 1) state.new.order) later state.new }
    ensures adds { Adds is_push by (reverse state.old.journal) (reverse state.new.journal) }
    ensures within { Within 1 state.old state.new }
{
    let c = state.client_at(i);
    state.push_to(by, c, signal.event(), signal.event());
}

/// Pushes to each client, in order of creation.
pub(crate) fn push_all<F: Reads<M>, M: Meaning>(state: &mut State<F, M>, by: u32, signal: Signal)
    requires due { IsToPush M.value (event_of signal) state.old.order state.old }
    requires room { length state.old.order ≤ state.old.spare }
    ensures ahead { (later : List Effect)
        → ComesWith M.value (event_of signal) state.old.order later state.old
        → coming M.value state.new ≡ later }
    ensures adds { Adds is_push by (reverse state.old.journal) (reverse state.new.journal) }
    ensures within { Within (length state.old.order) state.old state.new }
{
    let count = state.count();
    for i in 0..count {
        push_next(state, by, i, signal);
    }
}

/// Sends words to the client at a place in the order of creation.
fn send_next<F: Reads<M>, M: Meaning>(
    state: &mut State<F, M>,
    by: u32,
    i: usize,
    words: &Words,
    twice: Twice,
)
    requires here { i < length state.old.order }
    requires twice { IsTwice (event.Message words.now) twice }
    requires due { IsToPush M.value (event.Message words.now) (drop i state.old.order) state.old }
    requires room { 0 < state.old.spare }
    ensures ahead { (later : List Effect)
        → ComesWith M.value (event.Message words.now) (drop i state.old.order) later state.old
        → ComesWith M.value (event.Message words.now) (drop (i + 1) state.new.order) later
        state.new }
    ensures adds { Adds is_push by (reverse state.old.journal) (reverse state.new.journal) }
    ensures within { Within 1 state.old state.new }
{
    let c = state.client_at(i);
    state.push_to(by, c, twice.event, twice.told);
}

/// Sends words to each client, in order of creation.
pub(crate) fn send_all<F: Reads<M>, M: Meaning>(
    state: &mut State<F, M>,
    by: u32,
    words: &Words,
    events: Vec<Twice>,
)
    requires due { IsToPush M.value (event.Message words.now) state.old.order state.old }
    requires twice { AllByRecursion (IsTwice (event.Message words.now)) events.items }
    requires long { length events.items ≡ length state.old.order }
    requires room { length state.old.order ≤ state.old.spare }
    ensures ahead { (later : List Effect)
        → ComesWith M.value (event.Message words.now) state.old.order later state.old
        → coming M.value state.new ≡ later }
    ensures adds { Adds is_push by (reverse state.old.journal) (reverse state.new.journal) }
    ensures within { Within (length state.old.order) state.old state.new }
{
    let mut i = 0;
    for twice in events {
        send_next(state, by, i, words, twice);
        i += 1;
    }
}
