ghost use Rattle.std.specs.Prelude.{◌≡◌, ◌≤◌, ℕ, List, length, take, Option, IfOk, OnOk, OnErr};
ghost use Rattle.mc_outside.specs.Sink.{Grows, GrowsByFront, WriteCause, Took};

/// Why a piece was not taken.
#[derive(Clone, Copy, Debug, PartialEq, Eq)]
pub enum SinkError {
    /// The device failed: the count of faults rose, or stands at its last value.
    Failed,
    /// A want of memory.
    NoMemory,
}

/// A text that grows at its end.
pub trait Sink {
    /// The octets that were written, where the sink tells them. Whether it does never changes.
    ghost text: { Self → Option (List ℕ) };

    /// How often a call failed. It never falls.
    ghost faults: { Self → ℕ };

    /// Takes a front of `piece` and answers how many octets that is: at least one where `piece`
    /// is not empty. After a refusal the text is as it was. A sink whose device took nothing of
    /// a piece that is not empty counts a fault and answers `Failed`.
    fn write(&mut self, piece: &[u8]) -> Result<usize, SinkError>
        ensures took { IfOk result (λ n. Took piece.now n) }
        ensures grown { IfOk result
            (λ n. Grows (text self.old) (text self.new) (take n piece.now)) }
        ensures refused { OnErr result (text self.new ≡ text self.old) }
        ensures cause { WriteCause (faults self.old) (faults self.new) result };
}

/// Writes the whole piece. After a refusal, which is that of a `write`, a front of the piece was
/// written.
pub fn write_full<K: Sink>(sink: &mut K, piece: &[u8]) -> Result<(), SinkError>
    ensures ok { OnOk result (Grows (K.text sink.old) (K.text sink.new) piece.now) }
    ensures refused { OnErr result (GrowsByFront (K.text sink.old) (K.text sink.new) piece.now) }
    ensures cause { WriteCause (K.faults sink.old) (K.faults sink.new) result }
{
    let mut taken = 0usize;
    while taken < piece.len() {
        taken += sink.write(&piece[taken..])?;
    }
    Ok(())
}
