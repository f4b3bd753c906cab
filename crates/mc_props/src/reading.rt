use mc_value::Value;

/// What a property shows.
#[derive(Debug, Drop)]
pub enum Reading {
    /// It has this value.
    Is(Value),
    /// It has no value now.
    Unavailable,
}
