use mc_outside::{Sink, SinkError};

/// A sink that throws all away, and counts the octets.
#[derive(Drop)]
pub struct Discarding {
    // each write raises it
    octets: u64,
}

impl Discarding {
    pub fn new() -> Discarding {
        Discarding { octets: 0 }
    }

    /// How many octets came, as far as a `u64` counts.
    pub fn octets(&self) -> u64 {
        self.octets
    }
}

impl Sink for Discarding {
    ghost use Rattle.std.specs.Prelude.{None};

    ghost text = { λ s. None };

    ghost faults = { λ s. 0 };

    fn write(&mut self, piece: &[u8]) -> Result<usize, SinkError> {
        self.octets = self.octets.saturating_add(piece.len() as u64);
        Ok(piece.len())
    }
}
