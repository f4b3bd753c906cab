ghost use Rattle.std.specs.Prelude.{◌≡◌, ◌+◌, ◌^◌, ◌<◌, length, Some, Ok, IfOk};
ghost use Rattle.mc_outside.specs.Causes.{HasCause};
ghost use Rattle.mc_outside.specs.Shelf.{AreBytes, InBounds, OnlyOpens, OnlyReadsTo, OpenCause, Opens, Reads, reach_after};
ghost use Rattle.mc_outside.specs.Named.{part_of};

use crate::listed::copy_part;
use crate::shelf::{Failed, FileNo, Shelf, ShelfError};

/// A shelf of one file, whose octets the caller lends. It never fails, counts no fault, copies no
/// octet before a read asks for it, and takes no memory. Its file has number 0.
#[derive(Drop)]
pub struct SliceShelf<'a> {
    // The name under which the file is told: `new` alone sets it.
    name: &'a str,
    // The file's octets: `new` alone sets them.
    octets: &'a [u8],
    // How far reads have asked: each read raises it.
    reach: u64,
    ghost short: { length octets.now < 2 ^ 63 },
    ghost bytes: { AreBytes octets.now },
}

impl<'a> SliceShelf<'a> {
    ghost use Rattle.mc_outside.specs.SliceShelf.{name_of, octets_of, reach_of};

    /// A shelf of one file of that name and those octets, of which nothing was read.
    pub fn new(name: &'a str, octets: &'a [u8]) -> SliceShelf<'a>
        ensures name { name_of result ≡ name.now }
        ensures octets { octets_of result ≡ octets.now }
        ensures reach { reach_of result ≡ 0 }
    {
        SliceShelf {
            name,
            octets,
            reach: 0,
        }
    }
}

impl<'a> Shelf for SliceShelf<'a> {
    ghost use Rattle.mc_outside.specs.SliceShelf.{name_of, octets_of, reach_of, tells, opened_by, told_in, number_of};
    ghost use Rattle.mc_outside.specs.Lent.{is_short, holds_bytes};

    ghost files = { λ s. tells s };

    ghost opened = { λ s. opened_by s };

    ghost faults = { λ s. 0 };

    ghost reach = { λ s. s.reach };

    ghost short = { λ s. is_short s };

    ghost octets = { λ s. holds_bytes s };

    /// `NotFound` where the name is another one than that of its file.
    fn open_file(&mut self, name: &str) -> Result<FileNo, ShelfError>
        ensures opens { IfOk result
            (λ n. Opens (tells self.new) (opened_by self.new) name.now n.0) }
        ensures cause { OpenCause (tells self.old) name.now 0 0 result }
        ensures kept { OnlyOpens tells opened_by reach_of self.old self.new }
        ensures number { result ≡ number_of self.old name.now }
        ensures same { self.new ≡ self.old }
    {
        if self.name == name {
            Ok(FileNo(0))
        } else {
            Err(ShelfError::NotFound)
        }
    }

    /// It reads as many octets as the file has and `buf` has room for.
    fn read_at(&mut self, file: FileNo, pos: u64, buf: &mut [u8]) -> Result<usize, Failed>
        ensures bounds { IfOk result (λ n. InBounds pos buf.new n) }
        ensures octets { IfOk result (λ n. Reads (told_in self.old file.0) pos buf.new n) }
        ensures cause { HasCause 0 0 result }
        ensures kept { OnlyReadsTo tells opened_by reach_of self.old self.new
            (pos + length buf.old) }
        ensures count { result
            ≡ Ok (length (part_of (told_in self.old file.0) pos (length buf.old))) }
        ensures name { name_of self.new ≡ name_of self.old }
        ensures file { octets_of self.new ≡ octets_of self.old }
        ensures reach { reach_of self.new ≡ reach_after (reach_of self.old) pos (length buf.old) }
    {
        self.reach = self.reach.max(pos.saturating_add(buf.len() as u64));
        if file.0 != 0 {
            return Ok(0);
        }
        Ok(copy_part(self.octets, pos, buf))
    }

    fn fault_count(&self) -> u64 {
        0
    }
}
