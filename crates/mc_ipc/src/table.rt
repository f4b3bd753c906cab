ghost use Rattle.std.specs.Prelude.{◌≡◌, map, IfOk};
ghost use Rattle.mc_ipc.specs.Asked.{call_by, command_call, get_call, name_call, number_in, observe_call, scalar_in, set_call, unobserve_call, word_in, words_in};
ghost use Rattle.serde_json.specs.View.{view};

use crate::asking::IpcCall;
use mc_dispatch::Call;
use mc_value::{Format, NoMemory, Text, Value, Words, value_text};
use serde_json::Value as Json;
use std::alloc::Global;

// The call of a command by its first word, where the arguments behind that fit it.
pub(crate) fn call_by(
    alloc: Global,
    id: u64,
    word: &str,
    arguments: &[Json],
    words: &[Json],
) -> Result<Option<IpcCall>, NoMemory>
    ensures { IfOk result
        (λ call. call ≡ call_by id word.now (map view arguments.now) (map view words.now)) }
{
    match word {
        "get_property" => get(alloc, id, Format::Node, arguments),
        "get_property_string" => get(alloc, id, Format::String, arguments),
        "set_property" => set(alloc, id, arguments),
        "observe_property" => observe(alloc, id, arguments),
        "unobserve_property" => Ok(unobserve(id, arguments)),
        "client_name" => Ok(name(id, arguments)),
        _ => command(alloc, id, words),
    }
}

fn get(
    alloc: Global,
    id: u64,
    format: Format,
    arguments: &[Json],
) -> Result<Option<IpcCall>, NoMemory>
    ensures { IfOk result (λ call. call ≡ get_call id format (map view arguments.now)) }
{
    let [name] = arguments else {
        return Ok(None);
    };
    let Some(name) = name.as_str() else {
        return Ok(None);
    };
    let name = Text::new(alloc, name)?;
    let call = Call::Get { id, name, format };
    Ok(Some(IpcCall::Core { id, call }))
}

fn set(alloc: Global, id: u64, arguments: &[Json]) -> Result<Option<IpcCall>, NoMemory>
    ensures { IfOk result (λ call. call ≡ set_call id (map view arguments.now)) }
{
    let [name, value] = arguments else {
        return Ok(None);
    };
    let Some(name) = name.as_str() else {
        return Ok(None);
    };
    let Some(value) = scalar_in(alloc, value)? else {
        return Ok(None);
    };
    let name = Text::new(alloc, name)?;
    let call = Call::Set { id, name, value };
    Ok(Some(IpcCall::Core { id, call }))
}

fn observe(alloc: Global, id: u64, arguments: &[Json]) -> Result<Option<IpcCall>, NoMemory>
    ensures { IfOk result (λ call. call ≡ observe_call id (map view arguments.now)) }
{
    let [number, name] = arguments else {
        return Ok(None);
    };
    let Some(number) = number_in(number) else {
        return Ok(None);
    };
    let Some(name) = name.as_str() else {
        return Ok(None);
    };
    let call = Call::Observe {
        id: number,
        name: Text::new(alloc, name)?,
        format: Format::Node,
    };
    Ok(Some(IpcCall::Core { id, call }))
}

fn unobserve(id: u64, arguments: &[Json]) -> Option<IpcCall>
    ensures { result ≡ unobserve_call id (map view arguments.now) }
{
    let [number] = arguments else {
        return None;
    };
    let call = Call::Unobserve {
        id: number_in(number)?,
    };
    Some(IpcCall::Core { id, call })
}

fn name(id: u64, arguments: &[Json]) -> Option<IpcCall>
    ensures { result ≡ name_call id (map view arguments.now) }
{
    match arguments {
        [] => Some(IpcCall::Name { id }),
        _ => None,
    }
}

fn command(alloc: Global, id: u64, words: &[Json]) -> Result<Option<IpcCall>, NoMemory>
    ensures { IfOk result (λ call. call ≡ command_call id (map view words.now)) }
{
    let Some(words) = words_in(alloc, words)? else {
        return Ok(None);
    };
    let call = Call::Command { id, words };
    Ok(Some(IpcCall::Core { id, call }))
}

fn words_in(alloc: Global, arguments: &[Json]) -> Result<Option<Words>, NoMemory>
    ensures { IfOk result (λ words. words ≡ words_in (map view arguments.now)) }
{
    let mut words = Words::new(alloc);
    for argument in arguments {
        let Some(word) = word_in(alloc, argument)? else {
            return Ok(None);
        };
        words.push(word)?;
    }
    Ok(Some(words))
}

fn word_in(alloc: Global, argument: &Json) -> Result<Option<Text>, NoMemory>
    ensures { IfOk result (λ word. word ≡ word_in (view argument.now)) }
{
    match scalar_in(alloc, argument)? {
        Some(value) => Ok(Some(value_text(alloc, &value)?)),
        None => Ok(None),
    }
}

fn scalar_in(alloc: Global, argument: &Json) -> Result<Option<Value>, NoMemory>
    ensures { IfOk result (λ value. value ≡ scalar_in (view argument.now)) }
{
    match argument {
        Json::String(text) => Ok(Some(Value::Str(Text::new(alloc, text.as_str())?))),
        Json::Bool(flag) => Ok(Some(Value::Flag(*flag))),
        Json::Number(number) => Ok(number.as_i64().map(Value::Int)),
        Json::Null | Json::Array(_) | Json::Object(_) => Ok(None),
    }
}

// An integer from 0 that an `i64` holds.
pub(crate) fn number_in(argument: &Json) -> Option<u64>
    ensures { result ≡ number_in (view argument.now) }
{
    let number = argument.as_u64()?;
    if number < 1 << 63 { Some(number) } else { None }
}
