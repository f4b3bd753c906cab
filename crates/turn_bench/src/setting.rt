use mc_value::Value;

/// A value that a client set.
#[derive(Debug, Drop)]
pub struct Setting {
    /// The number of the client.
    pub client: u32,
    /// What it set.
    pub value: Value,
}
