ghost use Rattle.std.specs.Prelude.{◌≡◌, IfOk};

use crate::text::{NoMemory, Text};
use sqlite_items::Items;
use std::alloc::{AllocError, Global};

/// A property's value, as mpv's `mpv_node` holds it.
#[derive(Debug, Drop)]
pub enum Value {
    /// No value.
    None,
    /// A text.
    Str(Text),
    /// Yes or no.
    Flag(bool),
    /// A whole number.
    Int(i64),
    /// Values in their order.
    Array(Values),
    /// Values under names, in their order.
    Map(Pairs),
}

/// The values of an array.
pub type Values = Items<Value>;

/// The names and values of a map.
pub type Pairs = Items<(Text, Value)>;

/// The formats in which a client asks for a value (libmpv's `mpv_format`).
#[derive(Clone, Copy, Debug, PartialEq, Eq)]
pub enum Format {
    /// No value.
    None,
    /// A text.
    String,
    /// Yes or no.
    Flag,
    /// A whole number.
    Int64,
    /// The value as it is.
    Node,
}

/// Why a value could not be given.
#[derive(Clone, Copy, Debug, PartialEq, Eq)]
pub enum ValueError {
    /// The value has no form in the format that was asked for.
    PropertyFormat,
    /// The text is no time in seconds.
    BadSeconds,
    /// There was no memory for the answer.
    NoMemory,
}

impl From<AllocError> for ValueError {
    ghost use Rattle.std.specs.Prelude.{◌≡◌};
    ghost use Rattle.mc_value.specs.declared.value.ValueError.TheVariants.{NoMemory};

    ghost from_gives = { λ _ e. e ≡ NoMemory };

    fn from(_error: AllocError) -> ValueError {
        ValueError::NoMemory
    }
}

impl Value {
    /// An equal value.
    #[cycle(copy)]
    pub fn copy(&self, alloc: Global) -> Result<Value, NoMemory>
        ensures { IfOk result (λ v. v ≡ self.now) }
    {
        match self {
            Value::None => Ok(Value::None),
            Value::Str(text) => Ok(Value::Str(text.copy()?)),
            Value::Flag(flag) => Ok(Value::Flag(*flag)),
            Value::Int(number) => Ok(Value::Int(*number)),
            Value::Array(values) => Ok(Value::Array(copy_values(alloc, values.as_slice())?)),
            Value::Map(pairs) => Ok(Value::Map(copy_pairs(alloc, pairs.as_slice())?)),
        }
    }
}

/// Equal values, in the same order.
#[cycle(copy)]
pub fn copy_values(alloc: Global, values: &[Value]) -> Result<Values, NoMemory>
    ensures { IfOk result (λ vs. vs ≡ values.now) }
{
    let mut copied = Values::new(alloc);
    for value in values {
        copied.push(value.copy(alloc)?)?;
    }
    Ok(copied)
}

/// Equal names and values, in the same order.
#[cycle(copy)]
pub fn copy_pairs(alloc: Global, pairs: &[(Text, Value)]) -> Result<Pairs, NoMemory>
    ensures { IfOk result (λ ps. ps ≡ pairs.now) }
{
    let mut copied = Pairs::new(alloc);
    for pair in pairs {
        let value = pair.1.copy(alloc)?;
        copied.push((pair.0.copy()?, value))?;
    }
    Ok(copied)
}
