//! Values of a client as arguments of a row (the form of a row is told on the first page of `rows`):
//! JSON's `null` is no value, `true` a flag, a whole number a number, a text a text, an array an
//! array, and an object a map that keeps its names in order, each as often as it stands there. A
//! number with a fraction, an exponent or more than 64 bits is none of a client's, and a bad row.
#![tactic(auto)]

mod values;

pub use values::value_in;
