ghost use Rattle.std.specs.Prelude.{◌≡◌, ◌++◌, [], true, length, min, IfOk, OnOk, OnErr};
ghost use Rattle.mc_ipc.specs.Lines.{CutsAnywhere, after, given, long_by, new_cut, numbered};
ghost use Rattle.mc_ipc.specs.Cut.{IsCutOf, IsOpen, kept};

use mc_value::{NoMemory, find_octet};
use sqlite_items::Items;
use std::alloc::Global;
use std::marker::Model;

/// A line's octets, without its LF.
pub type Line = Items<u8>;

/// Lines in their order.
pub type Lines = Items<Line>;

const LF: u8 = b'\n';

/// The octets that a line may have, without its LF.
const LONGEST: usize = 65_536;

/// What a piece of an input gave.
#[derive(Debug, Drop)]
pub struct Fed {
    /// The lines that the piece made whole, in order, each without its LF; some may be empty.
    pub lines: Lines,
    /// The number, from 1, of the first line that is too long: it has 65,536 octets, and a further
    /// one came that is no LF. 2^32 - 1 stands for each greater number. No line follows it.
    pub long: Option<u32>,
}

/// Cuts an input that comes in pieces, as from a socket, into the lines that LF ends. Of the input
/// it keeps the line that is open, and no other.
#[derive(Drop)]
pub struct LineCut {
    // the octets behind the last LF; none of a line that is too long
    held: Vec<u8>,
    // the number of the line that they begin, from 1; 2^32 - 1 stands for each greater one
    number: u32,
    // whether that line is too long: from then on nothing changes
    is_long: bool,
}

impl Model for LineCut {
    ghost use Rattle.mc_ipc.specs.Lines.{CutState};
    ghost use Rattle.mc_ipc.specs.Cut.{IsOpen};

    ghost Value = { CutState };

    ghost view = { λ c. record {
      held = c.held.items;
      number = c.number;
      is_long = c.is_long;
    } };

    ghost invariant = { λ c. IsOpen c.held.items };
}

impl LineCut {
    /// Nothing of an input has come yet.
    ///
    /// Of every list of pieces that follow: the lines that they give are those of the pieces
    /// joined, and the number of the first line that is too long is told as of the whole. So it makes no
    /// difference where an input is cut.
    pub fn new(alloc: Global) -> LineCut
        ensures empty { result ≡ new_cut }
        ensures law { CutsAnywhere result }
    {
        LineCut {
            held: Vec::new(alloc),
            number: 1,
            is_long: false,
        }
    }

    /// Takes the next piece of the input, of any length, and gives the lines that it makes whole.
    /// From the first line on that has more than 65,536 octets it gives no line, and each call
    /// tells that line's number. Where there is no memory nothing changes, so that the piece can be fed
    /// again.
    pub fn feed(&mut self, alloc: Global, piece: &[u8]) -> Result<Fed, NoMemory>
        ensures lines { IfOk result (λ fed. fed.lines ≡ given self.old piece.now) }
        ensures long { IfOk result (λ fed. fed.long ≡ long_by self.old piece.now) }
        ensures after { OnOk result (self.new ≡ after self.old piece.now) }
        ensures kept { OnErr result (self.new ≡ self.old) }
    {
        if self.is_long {
            return Ok(Fed {
                lines: Lines::new(alloc),
                long: Some(self.number),
            });
        }
        match cut(alloc, self.held.as_slice(), piece)? {
            Cutting::Open { lines, rest } => {
                self.keep(alloc, lines.len(), rest)?;
                Ok(Fed { lines, long: None })
            }
            Cutting::TooLong { lines } => {
                self.stop(lines.len());
                let long = Some(self.number);
                Ok(Fed { lines, long })
            }
        }
    }

    // Keeps what stands behind the last LF, with what was held where no line was ended.
    fn keep(&mut self, alloc: Global, ended: usize, rest: &[u8]) -> Result<(), NoMemory>
        requires open { IsOpen (kept ended self.old.held ++ rest.now) }
        ensures held { OnOk result (self.new.held ≡ kept ended self.old.held ++ rest.now) }
        ensures number { OnOk result (self.new.number ≡ numbered self.old.number ended) }
        ensures is_long { OnOk result (self.new.is_long ≡ self.old.is_long) }
        ensures kept { OnErr result (self.new ≡ self.old) }
    {
        if ended == 0 {
            self.held.extend_from_slice(rest)?;
        } else {
            self.held = Vec::from_slice(alloc, rest)?;
        }
        self.number = number_behind(self.number, ended);
        Ok(())
    }

    // The line behind those that were ended is too long.
    fn stop(&mut self, ended: usize)
        ensures held { self.new.held ≡ [] }
        ensures number { self.new.number ≡ numbered self.old.number ended }
        ensures is_long { self.new.is_long ≡ true }
    {
        self.held.clear();
        self.number = number_behind(self.number, ended);
        self.is_long = true;
    }
}

fn number_behind(number: u32, ended: usize) -> u32
    ensures { result ≡ numbered number ended }
{
    if ended < (u32::MAX - number) as usize {
        number + ended as u32
    } else {
        u32::MAX
    }
}

// The lines of what is held and a piece.
#[derive(Drop)]
enum Cutting<'p> {
    // No part is too long: the rest stands behind the last LF.
    Open { lines: Lines, rest: &'p [u8] },
    // The part behind these lines is too long.
    TooLong { lines: Lines },
}

fn cut<'p>(alloc: Global, held: &[u8], piece: &'p [u8]) -> Result<Cutting<'p>, NoMemory>
    requires { IsOpen held.now }
    ensures { IfOk result (IsCutOf held.now piece.now) }
{
    let mut lines = Lines::new(alloc);
    let mut front = held;
    let mut rest = piece;
    while let Some(end) = find_octet(rest, LF) {
        if end > LONGEST - front.len() {
            return Ok(Cutting::TooLong { lines });
        }
        lines.push(joined(alloc, front, &rest[..end])?)?;
        front = &[];
        rest = &rest[end + 1..];
    }
    if rest.len() > LONGEST - front.len() {
        return Ok(Cutting::TooLong { lines });
    }
    Ok(Cutting::Open { lines, rest })
}

fn joined(alloc: Global, front: &[u8], part: &[u8]) -> Result<Line, NoMemory>
    ensures { IfOk result (λ line. line ≡ front.now ++ part.now) }
{
    let mut octets = Vec::with_capacity(alloc, front.len() + part.len())?;
    octets.extend_from_slice(front)?;
    octets.extend_from_slice(part)?;
    Ok(Line::from_vec(octets))
}
