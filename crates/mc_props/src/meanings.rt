//! What the properties of a table mean: a stated function that the table's reader answers.

/// The values of properties: of each place and all facts, what the property at that place shows.
/// A type that has no other use names it; it takes no part in what runs.
pub trait Meaning {
    ghost use Rattle.std.specs.Prelude.{ℕ};
    ghost use Rattle.mc_props.specs.declared.facts.Facts.{Facts};
    ghost use Rattle.mc_props.specs.declared.reading.Reading.{Reading};

    ghost value: { ℕ → Facts → Reading };
}

/// The properties of a player of films, as `standard` reads them.
#[derive(Drop)]
pub struct Standard;

impl Meaning for Standard {
    ghost use Rattle.mc_props.specs.Standard.{standard_of};

    ghost value = { standard_of };
}
