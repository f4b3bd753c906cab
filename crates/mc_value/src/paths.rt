ghost use Rattle.std.specs.Prelude.{◌≡◌, ◌-◌, ◌^◌, IfOk, codes, find, min, pos};
ghost use Rattle.std.specs.Option.{option_copied};
ghost use Rattle.std.specs.Str.{bytes_eq};
ghost use Rattle.mc_value.specs.declared.value.Value.{out-Value};
ghost use Rattle.mc_value.specs.Paths.{inner_at, is_named, last_at, path_of, steps, walked};

use crate::number::read_place;
use crate::octets::find_octet;
use crate::text::{NoMemory, Text};
use crate::value::Value;
use std::alloc::Global;

/// The value at a path, whose steps stand between slashes: a decimal number is a place of an
/// array from 0, with no needless 0 in front; a name is looked up in a map, where the first pair of
/// that name counts; and `count`, as the last step, is an array's length. The empty path is the
/// value itself. `None` where the path leads nowhere.
pub fn path(alloc: Global, value: &Value, path: &str) -> Result<Option<Value>, NoMemory>
    ensures { IfOk result (λ found. found ≡ path_of value.now path.now) }
{
    if path.is_empty() {
        return Ok(Some(value.copy(alloc)?));
    }
    walk(alloc, value, path.as_bytes())
}

fn walk(alloc: Global, value: &Value, path: &[u8]) -> Result<Option<Value>, NoMemory>
    ensures { IfOk result (λ found. found ≡ walked value.now (steps path.now)) }
{
    match find_octet(path, b'/') {
        None => last_step(alloc, value, path),
        Some(slash) => match inner(value, &path[..slash]) {
            None => Ok(None),
            Some(next) => walk(alloc, next, &path[slash + 1..]),
        },
    }
}

fn last_step(alloc: Global, value: &Value, step: &[u8]) -> Result<Option<Value>, NoMemory>
    ensures { IfOk result (λ found. found ≡ last_at step.now (out-Value value.now)) }
{
    if let Value::Array(values) = value {
        if is_count(step) {
            return Ok(Some(Value::Int(count(values.len()))));
        }
    }
    match inner(value, step) {
        Some(found) => Ok(Some(found.copy(alloc)?)),
        None => Ok(None),
    }
}

fn count(len: usize) -> i64
    ensures { result ≡ pos (min len (2 ^ 63 - 1)) }
{
    len.min(i64::MAX as usize) as i64
}

fn inner<'a>(value: &'a Value, step: &[u8]) -> Option<&'a Value>
    ensures { option_copied result ≡ inner_at step.now (out-Value value.now) }
{
    match value {
        Value::Array(values) => match read_place(step) {
            Some(place) => values.get(place as usize),
            None => None,
        },
        Value::Map(pairs) => match pair_named(pairs.as_slice(), step) {
            Some(pair) => Some(&pair.1),
            None => None,
        },
        _ => None,
    }
}

fn pair_named<'a>(pairs: &'a [(Text, Value)], name: &[u8]) -> Option<&'a (Text, Value)>
    ensures { option_copied result ≡ find (is_named name.now) pairs.now }
{
    pairs.iter().find(|pair| has_name(&pair.0, name))
}

fn has_name(text: &Text, name: &[u8]) -> bool
    ensures { result ≡ bytes_eq text.now name.now }
{
    text.as_str().as_bytes() == name
}

fn is_count(step: &[u8]) -> bool
    ensures { result ≡ bytes_eq step.now (codes "count") }
{
    step == b"count".as_slice()
}
