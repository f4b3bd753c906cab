//! What the properties of a list mean: a stated function that the table's reader answers.

/// The values of a list's properties: of each place and all facts, what the property at that place
/// shows. A type that has no other use names it; it takes no part in what runs.
pub trait ListMeaning {
    ghost use Rattle.std.specs.Prelude.{ℕ};
    ghost use Rattle.mc_props.specs.declared.reading.Reading.{Reading};
    ghost use Rattle.mc_playlist.specs.declared.facts.ListFacts.{ListFacts};

    ghost value: { ℕ → ListFacts → Reading };
}
