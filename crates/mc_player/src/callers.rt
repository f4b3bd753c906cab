// The numbers of a player's callers, which stand in its records.
ghost use Rattle.std.specs.Prelude.{◌≡◌};
ghost use Rattle.mc_player.specs.Callers.{by_of};

use crate::record::CoreRecord;

impl CoreRecord {
    /// The number of the caller at whose call the record was made.
    pub fn by(&self) -> u32
        ensures by { result ≡ by_of self.now }
    {
        match self {
            CoreRecord::Created { by, .. }
            | CoreRecord::Destroyed { by, .. }
            | CoreRecord::Called { by, .. }
            | CoreRecord::Learned { by, .. }
            | CoreRecord::Wrote { by, .. }
            | CoreRecord::Took { by, .. }
            | CoreRecord::Ordered { by, .. }
            | CoreRecord::Did { by, .. }
            | CoreRecord::Pushed { by, .. }
            | CoreRecord::Replied { by, .. } => *by,
        }
    }
}
