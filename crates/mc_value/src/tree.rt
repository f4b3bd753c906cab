ghost use Rattle.std.specs.Prelude.{◌≡◌, ◌++◌, ◌<◌, ◌∷◌, [], IfOk, OnOk, flat_map, map, string_bytes};
ghost use Rattle.mc_value.specs.Values.{escaped, hex_digit, json_of, json_pair, json_string, with_commas};

use crate::json_string::{push_json_string, push_number};
use crate::text::{NoMemory, Text};
use crate::value::Value;
use std::alloc::Global;

/// The value as compact JSON (RFC 8259): the names of a map in the order given, `null` for no
/// value. A string has `"` and `\` behind a `\`, and a character below U+0020 as `\u00xx` in
/// lower-case digits; every other character stands for itself.
pub fn json(alloc: Global, value: &Value) -> Result<Text, NoMemory>
    ensures { IfOk result (λ text. text ≡ json_of value.now) }
{
    let mut out = String::new(alloc);
    push_json(&mut out, value)?;
    Ok(Text::from_string(out))
}

#[cycle(tree)]
fn push_json(out: &mut String, value: &Value) -> Result<(), NoMemory>
    ensures { OnOk result (string_bytes out.new ≡ string_bytes out.old ++ json_of value.now) }
{
    match value {
        Value::None => out.push_str("null"),
        Value::Str(text) => push_json_string(out, text.as_str()),
        Value::Flag(true) => out.push_str("true"),
        Value::Flag(false) => out.push_str("false"),
        Value::Int(number) => push_number(out, *number),
        Value::Array(values) => {
            out.push('[')?;
            push_values(out, values.as_slice())?;
            out.push(']')
        }
        Value::Map(pairs) => push_map(out, pairs.as_slice()),
    }
}

#[cycle(tree)]
fn push_values(out: &mut String, values: &[Value]) -> Result<(), NoMemory>
    ensures { OnOk result (string_bytes out.new ≡
        string_bytes out.old ++ with_commas (map json_of values.now)) }
{
    let [first, rest @ ..] = values else {
        return Ok(());
    };
    push_json(out, first)?;
    for value in rest {
        out.push(',')?;
        push_json(out, value)?;
    }
    Ok(())
}

#[cycle(tree)]
fn push_map(out: &mut String, pairs: &[(Text, Value)]) -> Result<(), NoMemory>
    ensures { OnOk result (string_bytes out.new ≡ string_bytes out.old
        ++ (123 ∷ with_commas (map json_pair (map (λ p. (p.0, json_of p.1)) pairs.now))
        ++ 125 ∷ [])) }
{
    out.push('{')?;
    push_pairs(out, pairs)?;
    out.push('}')
}

#[cycle(tree)]
fn push_pairs(out: &mut String, pairs: &[(Text, Value)]) -> Result<(), NoMemory>
    ensures { OnOk result (string_bytes out.new ≡ string_bytes out.old
        ++ with_commas (map json_pair (map (λ p. (p.0, json_of p.1)) pairs.now))) }
{
    let [first, rest @ ..] = pairs else {
        return Ok(());
    };
    push_name(out, first.0.as_str())?;
    push_json(out, &first.1)?;
    for pair in rest {
        out.push(',')?;
        push_name(out, pair.0.as_str())?;
        push_json(out, &pair.1)?;
    }
    Ok(())
}

fn push_name(out: &mut String, name: &str) -> Result<(), NoMemory>
    ensures { OnOk result (string_bytes out.new ≡
        string_bytes out.old ++ (json_string name.now ++ 58 ∷ [])) }
{
    push_json_string(out, name)?;
    out.push(':')
}
