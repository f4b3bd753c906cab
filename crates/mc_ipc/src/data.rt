ghost use Rattle.std.specs.Prelude.{◌≡◌, map, IfOk};
ghost use Rattle.mc_ipc.specs.Written.{data_of, object_of};
ghost use Rattle.serde_json.specs.Data.{array, string};
ghost use Rattle.serde_json.specs.View.{items_of, view};

use mc_value::{NoMemory, Text, Value};
use serde_json::{Map, Value as Json, put};
use std::alloc::Global;

// A value as JSON: a map's names in byte order, the last value of a name that comes twice.
#[cycle(data)]
pub(crate) fn data_of(alloc: Global, value: &Value) -> Result<Json, NoMemory>
    ensures { IfOk result (λ json. view json ≡ data_of value.now) }
{
    match value {
        Value::None => Ok(Json::from(())),
        Value::Str(text) => Json::try_from_str(alloc, text.as_str()),
        Value::Flag(flag) => Ok(Json::from(*flag)),
        Value::Int(number) => Ok(Json::from(*number)),
        Value::Array(values) => array_of(alloc, values.as_slice()),
        Value::Map(pairs) => map_of(alloc, pairs.as_slice()),
    }
}

#[cycle(data)]
fn array_of(alloc: Global, values: &[Value]) -> Result<Json, NoMemory>
    ensures { IfOk result (λ json. view json ≡ array (items_of (map data_of values.now))) }
{
    let mut items = Vec::new(alloc);
    for value in values {
        items.push(data_of(alloc, value)?)?;
    }
    Ok(Json::from(items))
}

#[cycle(data)]
fn map_of(alloc: Global, pairs: &[(Text, Value)]) -> Result<Json, NoMemory>
    ensures { IfOk result
        (λ json. view json ≡ object_of (map (λ p. (p.0, data_of p.1)) pairs.now)) }
{
    let mut members = Map::new(alloc);
    for pair in pairs {
        let value = data_of(alloc, &pair.1)?;
        put(&mut members, alloc, pair.0.as_str(), value)?;
    }
    Ok(Json::from(members))
}

// Texts as a JSON array.
pub(crate) fn texts_of(alloc: Global, words: &[Text]) -> Result<Json, NoMemory>
    ensures { IfOk result (λ json. view json ≡ array (items_of (map string words.now))) }
{
    let mut items = Vec::new(alloc);
    for word in words {
        items.push(Json::try_from_str(alloc, word.as_str())?)?;
    }
    Ok(Json::from(items))
}
