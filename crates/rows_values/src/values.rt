use mc_value::{Pairs, Text, Value, Values};
use rows::{Json, RowError, number_in};
use std::alloc::Global;

/// A value of a row.
#[cycle(argument)]
pub fn value_in(alloc: Global, argument: &Json<'_>) -> Result<Value, RowError> {
    match argument {
        Json::Null => Ok(Value::None),
        Json::Bool(flag) => Ok(Value::Flag(*flag)),
        Json::Number(_) => Ok(Value::Int(number_in(argument)?)),
        Json::String(text) => Ok(Value::Str(Text::new(alloc, text)?)),
        Json::Array(items) => Ok(Value::Array(values_in(alloc, items.as_slice())?)),
        Json::Object(members) => Ok(Value::Map(pairs_in(alloc, members.as_slice())?)),
    }
}

#[cycle(argument)]
fn values_in(alloc: Global, items: &[Json<'_>]) -> Result<Values, RowError> {
    let mut values = Values::new(alloc);
    for item in items {
        values.push(value_in(alloc, item)?)?;
    }
    Ok(values)
}

#[cycle(argument)]
fn pairs_in(alloc: Global, members: &[(&str, Json<'_>)]) -> Result<Pairs, RowError> {
    let mut pairs = Pairs::new(alloc);
    for member in members {
        let value = value_in(alloc, &member.1)?;
        pairs.push((Text::new(alloc, member.0)?, value))?;
    }
    Ok(pairs)
}
