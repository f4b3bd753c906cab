ghost use Rattle.std.specs.Prelude.{◌≡◌, ◌↔◌, IsTrue};
ghost use Rattle.mc_value.specs.Sameness.{SameIsExact, same_value};
ghost use Rattle.mc_value.specs.declared.value.Value.TheVariants as value;

use crate::text::Text;
use crate::value::Value;

impl Value {
    /// Whether both are the same value: of one kind, with the same text or number, the same items
    /// or the same names and values, in the same order.
    #[cycle(equality)]
    #[tactic(auto, using(crate::proofs::Same::exact, crate::proofs::Same::told))]
    pub fn equals(&self, other: &Value) -> bool
        ensures equal { IsTrue result ↔ (self.now ≡ other.now) }
        ensures same { result ≡ same_value self.now other.now }
        ensures law { SameIsExact }
    {
        match self {
            Value::None => is_none(other),
            Value::Str(text) => is_text(text, other),
            Value::Flag(flag) => is_flag(*flag, other),
            Value::Int(number) => is_number(*number, other),
            Value::Array(values) => is_array(values.as_slice(), other),
            Value::Map(pairs) => is_map(pairs.as_slice(), other),
        }
    }
}

fn is_none(other: &Value) -> bool
    ensures { IsTrue result ↔ (value.None ≡ other.now) }
{
    matches!(other, Value::None)
}

fn is_text(text: &Text, other: &Value) -> bool
    ensures { IsTrue result ↔ (value.Str text.now ≡ other.now) }
{
    match other {
        Value::Str(own) => text.as_str() == own.as_str(),
        _ => false,
    }
}

fn is_flag(flag: bool, other: &Value) -> bool
    ensures { IsTrue result ↔ (value.Flag flag ≡ other.now) }
{
    match other {
        Value::Flag(own) => flag == *own,
        _ => false,
    }
}

fn is_number(number: i64, other: &Value) -> bool
    ensures { IsTrue result ↔ (value.Int number ≡ other.now) }
{
    match other {
        Value::Int(own) => number == *own,
        _ => false,
    }
}

#[cycle(equality)]
fn is_array(values: &[Value], other: &Value) -> bool
    ensures { IsTrue result ↔ (value.Array values.now ≡ other.now) }
{
    match other {
        Value::Array(own) => are_equal(values, own.as_slice()),
        _ => false,
    }
}

#[cycle(equality)]
fn is_map(pairs: &[(Text, Value)], other: &Value) -> bool
    ensures { IsTrue result ↔ (value.Map pairs.now ≡ other.now) }
{
    match other {
        Value::Map(own) => are_equal_pairs(pairs, own.as_slice()),
        _ => false,
    }
}

#[cycle(equality)]
fn are_equal(values: &[Value], others: &[Value]) -> bool
    ensures { IsTrue result ↔ (values.now ≡ others.now) }
{
    let mut left = others;
    for value in values {
        let [other, rest @ ..] = left else {
            return false;
        };
        if !value.equals(other) {
            return false;
        }
        left = rest;
    }
    left.is_empty()
}

#[cycle(equality)]
fn are_equal_pairs(pairs: &[(Text, Value)], others: &[(Text, Value)]) -> bool
    ensures { IsTrue result ↔ (pairs.now ≡ others.now) }
{
    let mut left = others;
    for pair in pairs {
        let [other, rest @ ..] = left else {
            return false;
        };
        if pair.0.as_str() != other.0.as_str() || !pair.1.equals(&other.1) {
            return false;
        }
        left = rest;
    }
    left.is_empty()
}
