//! What a request does at the facts of this moment.
ghost use Rattle.std.specs.Prelude.{◌≡◌, IfOk, Result, reverse};
ghost use Rattle.mc_player.specs.Deeds.{command_deed, deed_of};
ghost use Rattle.mc_player.specs.Journals.{named};
ghost use Rattle.mc_dispatch.specs.declared.call.Call.TheVariants as call;
ghost use Rattle.mc_state.specs.Stands.{table_of};

use mc_command::{Command, CommandError, parse_command};
use mc_deeds::{cycle_deed, dir_of, get_deed, goal_of, seek_deed, send_deed, set_deed};
use mc_dispatch::Call;
use mc_player::Deed;
use mc_props::Reads;
use mc_props::meanings::Meaning;
use mc_state::State;
use mc_value::{NoMemory, Value, Words};
use std::alloc::AllocError;

fn command_deed<F: Reads<M>, M: Meaning>(
    state: &State<F, M>,
    command: Command,
) -> Result<Deed, NoMemory>
    ensures { IfOk result (λ d. d ≡ command_deed (table_of M.value state.now) state.now.facts
        (named (reverse state.now.journal)) (Result.Ok command)) }
{
    match command {
        Command::Seek {
            t,
            absolute,
            forward,
        } => {
            let goal = goal_of(state.facts().cache.time, t, absolute);
            Ok(seek_deed(dir_of(forward), goal))
        }
        Command::Set { name, value } => {
            let value = Value::Str(value);
            set_deed(
                state.facts(),
                state.table().set(name.as_str(), state.facts(), &value),
            )
        }
        Command::Cycle { name } => Ok(cycle_deed(state.facts(), name.as_str())),
        Command::Message { words } => Ok(Deed::Sends(words)),
        Command::MessageTo { client, words } => Ok(send_deed(words, state.named(&client))),
        Command::Ignore => Ok(Deed::Ignores),
        Command::Quit => Ok(Deed::Quits),
    }
}

fn words_deed<F: Reads<M>, M: Meaning>(state: &State<F, M>, words: &Words) -> Result<Deed, NoMemory>
    ensures { IfOk result (λ d. d ≡ deed_of (table_of M.value state.now) state.now.facts
        (named (reverse state.now.journal)) (call.Command 0 words.now)) }
{
    match parse_command(state.alloc(), words) {
        Ok(command) => command_deed(state, command),
        Err(CommandError::Bad { .. }) => Ok(Deed::Fails(-12)),
        Err(CommandError::NoMemory) => Err(AllocError),
    }
}

/// What a request does at the facts of this moment.
pub(crate) fn deed_of<F: Reads<M>, M: Meaning>(
    state: &State<F, M>,
    call: &Call,
) -> Result<Deed, NoMemory>
    ensures { IfOk result (λ d. d ≡ deed_of (table_of M.value state.now) state.now.facts
        (named (reverse state.now.journal)) call.now) }
{
    match call {
        Call::Get { name, format, .. } => {
            get_deed(state.table().get(name.as_str(), state.facts(), *format))
        }
        Call::Set { name, value, .. } => {
            set_deed(
                state.facts(),
                state.table().set(name.as_str(), state.facts(), value),
            )
        }
        Call::Command { words, .. } => words_deed(state, words),
        _ => Ok(Deed::Ignores),
    }
}
