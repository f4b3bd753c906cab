//! The form of a request.
ghost use Rattle.std.specs.Prelude.{◌≡◌};
ghost use Rattle.mc_value.specs.declared.value.Value.{out-Value};
ghost use Rattle.mc_player.specs.Journals.{id_of};
ghost use Rattle.mc_player.specs.Rules.{is_bad, is_settable};

use mc_dispatch::Call;
use mc_value::{Format, Value};

fn is_settable(value: &Value) -> bool
    ensures { result ≡ is_settable (out-Value value.now) }
{
    matches!(value, Value::Str(_) | Value::Flag(_) | Value::Int(_))
}

/// Whether the form of a request is wrong: a command of no words, a `Get` of no format, a `Set` of
/// what is no text, flag or number.
pub fn is_bad(call: &Call) -> bool
    ensures { result ≡ is_bad call.now }
{
    match call {
        Call::Command { words, .. } => words.as_slice().is_empty(),
        Call::Get { format, .. } => matches!(format, Format::None),
        Call::Set { value, .. } => !is_settable(value),
        _ => false,
    }
}

/// The number that a request's client gave it; 0 of a call that is none.
pub fn id_of(call: &Call) -> u64
    ensures { result ≡ id_of call.now }
{
    match call {
        Call::Command { id, .. } | Call::Get { id, .. } | Call::Set { id, .. } => *id,
        _ => 0,
    }
}
