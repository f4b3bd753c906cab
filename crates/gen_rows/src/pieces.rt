use crate::written::pictures_in;
use mc_gen::write_generated;
use mc_outside::{Sink, SinkError};
use rows::{Json, RowError, one};
use std::alloc::Global;
use std::fmt::Write;

// A sink that keeps nothing but how many octets it took, in how many pieces, and how long the longest
// was.
#[derive(Drop)]
struct Counted {
    octets: u64,
    pieces: u64,
    longest: u64,
}

impl Sink for Counted {
    ghost use Rattle.std.specs.Prelude.{None};

    ghost text = { λ s. None };

    ghost faults = { λ s. 0 };

    fn write(&mut self, piece: &[u8]) -> Result<usize, SinkError> {
        let len = piece.len() as u64;
        self.octets = self.octets.saturating_add(len);
        self.pieces = self.pieces.saturating_add(1);
        self.longest = self.longest.max(len);
        Ok(piece.len())
    }
}

/// `["pieces",N]`: how many octets the film of N pictures has, in how many pieces it is written, and
/// whether none of these has 131,072 octets.
pub fn call_pieces(
    alloc: Global,
    arguments: &[Json<'_>],
    out: &mut String,
) -> Result<(), RowError> {
    let n = pictures_in(one(arguments)?)?;
    let mut sink = Counted {
        octets: 0,
        pieces: 0,
        longest: 0,
    };
    write_generated(alloc, n, &mut sink).map_err(|_| RowError::NoMemory)?;
    let (octets, pieces) = (sink.octets, sink.pieces);
    let short = sink.longest < 131_072;
    Ok(write!(out, "{octets} octets, {pieces} pieces, short {short}")?)
}
