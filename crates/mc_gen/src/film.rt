ghost use Rattle.std.specs.Prelude.{◌≡◌, ◌++◌, ◌*◌, ◌^◌, ◌<◌, ◌≤◌, ℕ, List, length, Some, OnOk, OnErr};
ghost use Rattle.mc_outside.specs.Sink.{Grows, GrowsByFront, WriteCause};
ghost use Rattle.mc_gen.specs.Generated.{generated};

use crate::clusters::{push_cluster, round};
use crate::front::push_front;
use mc_outside::{Sink, SinkError, write_full};
use std::alloc::Global;

// How many octets are gathered before they are written.
const PIECE: usize = 65_536;

// Writes what was gathered, once it is a whole piece.
fn write_piece<K: Sink>(out: &mut K, piece: &mut Vec<u8>) -> Result<(), SinkError>
    ensures ok { OnOk result ((done : List ℕ) × Grows (K.text out.old) (K.text out.new) done
        × (done ++ piece.new.items ≡ piece.old.items)) }
    ensures refused { OnErr result
        (GrowsByFront (K.text out.old) (K.text out.new) piece.old.items) }
    ensures cause { WriteCause (K.faults out.old) (K.faults out.new) result }
{
    if piece.len() >= PIECE {
        write_full(out, piece.as_slice())?;
        piece.clear();
    }
    Ok(())
}

/// Writes the film of `n` pictures: what `generated_films` says of it is read in what was written.
/// At `Ok` the text grew by the whole film, else by a front of it. `Failed` comes only from the
/// sink, and `NoMemory` where memory was wanting.
///
/// It is written in pieces of some 65,536 octets, so that it takes a fixed amount of memory, however
/// long the film.
pub fn write_generated<K: Sink>(alloc: Global, n: u32, out: &mut K) -> Result<(), SinkError>
    ensures ok { OnOk result (Grows (K.text out.old) (K.text out.new) (generated n)) }
    ensures refused { OnErr result (GrowsByFront (K.text out.old) (K.text out.new) (generated n)) }
    ensures cause { WriteCause (K.faults out.old) (K.faults out.new) result }
{
    let Ok(round) = round(alloc) else {
        return Err(SinkError::NoMemory);
    };
    let mut piece = Vec::new(alloc);
    let Ok(()) = push_front(alloc, &mut piece) else {
        return Err(SinkError::NoMemory);
    };
    let n = n as u64;
    for k in 0..(n + 11) / 12 {
        let Ok(()) = push_cluster(alloc, &mut piece, round.as_slice(), n, k) else {
            return Err(SinkError::NoMemory);
        };
        write_piece(out, &mut piece)?;
    }
    write_full(out, piece.as_slice())
}
