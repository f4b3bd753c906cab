ghost use Rattle.std.specs.Prelude.{◌≡◌, Some, IfOk};
ghost use Rattle.std.specs.Fmt.{signed_decimal};
ghost use Rattle.mc_value.specs.declared.value.Value.{out-Value};
ghost use Rattle.mc_value.specs.declared.value.Format.TheVariants as format;
ghost use Rattle.mc_value.specs.Conversions.{Converts, as_flag, as_number, converted, flag_said, flag_text, text_of};

use crate::json_string::push_number;
use crate::number::read_whole_number;
use crate::text::{NoMemory, Text};
use crate::tree::json;
use crate::value::{Format, Value, ValueError};
use std::alloc::Global;

/// The value in a format. To `Node` it is itself, to `None` no value. To `String` it is its text
/// (`value_text`), which no value has not. To `Flag` go a flag and the texts `yes` and `no`, to
/// `Int64` a whole number and a text of an optional `-` and decimal digits that fits.
/// `PropertyFormat` for every other pair.
pub fn convert(alloc: Global, value: &Value, to: Format) -> Result<Value, ValueError>
    ensures { Converts result (converted value.now to) }
{
    match to {
        Format::None => Ok(Value::None),
        Format::Node => Ok(value.copy(alloc)?),
        Format::String => to_string(alloc, value),
        Format::Flag => match flag_in(value) {
            Some(flag) => Ok(Value::Flag(flag)),
            None => Err(ValueError::PropertyFormat),
        },
        Format::Int64 => match number_in(value) {
            Some(number) => Ok(Value::Int(number)),
            None => Err(ValueError::PropertyFormat),
        },
    }
}

fn to_string(alloc: Global, value: &Value) -> Result<Value, ValueError>
    ensures { Converts result (converted value.now format.String) }
{
    if let Value::None = value {
        return Err(ValueError::PropertyFormat);
    }
    Ok(Value::Str(value_text(alloc, value)?))
}

fn flag_in(value: &Value) -> Option<bool>
    ensures { result ≡ as_flag (out-Value value.now) }
{
    match value {
        Value::Flag(flag) => Some(*flag),
        Value::Str(text) => flag_word(text.as_str()),
        _ => None,
    }
}

fn flag_word(text: &str) -> Option<bool>
    ensures { result ≡ flag_said text.now }
{
    if text == "yes" {
        Some(true)
    } else if text == "no" {
        Some(false)
    } else {
        None
    }
}

fn number_in(value: &Value) -> Option<i64>
    ensures { result ≡ as_number (out-Value value.now) }
{
    match value {
        Value::Int(number) => Some(*number),
        Value::Str(text) => read_whole_number(text.as_str().as_bytes()),
        _ => None,
    }
}

/// The value as a text: a string itself, a flag as `yes` or `no`, a whole number in decimal digits,
/// and anything else as JSON.
pub fn value_text(alloc: Global, value: &Value) -> Result<Text, NoMemory>
    ensures { IfOk result (λ text. text ≡ text_of value.now) }
{
    match value {
        Value::Str(text) => text.copy(),
        Value::Flag(flag) => Text::new(alloc, flag_name(*flag)),
        Value::Int(number) => number_text(alloc, *number),
        _ => json(alloc, value),
    }
}

fn number_text(alloc: Global, number: i64) -> Result<Text, NoMemory>
    ensures { IfOk result (λ text. text ≡ signed_decimal number) }
{
    let mut out = String::new(alloc);
    push_number(&mut out, number)?;
    Ok(Text::from_string(out))
}

/// A flag in mpv's words.
fn flag_name(flag: bool) -> &'static str
    ensures { result.now ≡ flag_text flag }
{
    if flag { "yes" } else { "no" }
}
