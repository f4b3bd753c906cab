ghost use Rattle.std.specs.Prelude.{◌≡◌, length, Some, Ok, IsErr, IfOk, MatchBool};
ghost use Rattle.mc_outside.specs.Causes.{HasCause};
ghost use Rattle.mc_outside.specs.Shelf.{Opens, OpenCause, Reads, InBounds, faults_after_read, reach_after};
ghost use Rattle.mc_outside.specs.Named.{place_of, numbered, part_of};
ghost use Rattle.mc_outside.specs.Spots.{meets_spot, left_of};

use crate::listed::{number, read_listed};
use crate::named::NamedFiles;
use crate::shelf::{Failed, FileNo, Shelf, ShelfError};
use crate::spots::{Spots, spend};

/// A shelf in memory that never fails: it counts no fault. A file's number is its place in the
/// list, and a name is that of the first file which has it.
#[derive(Drop)]
pub struct CleanShelf {
    // The files: `new` alone sets them.
    files: NamedFiles,
    // How far reads have asked: each read raises it.
    reach: u64,
}

impl CleanShelf {
    ghost use Rattle.mc_outside.specs.CleanShelf.{files_of, reach_of};

    /// A shelf of these files, of which nothing was read. It takes no memory.
    pub fn new(files: NamedFiles) -> CleanShelf
        ensures files { files_of result ≡ files }
        ensures reach { reach_of result ≡ 0 }
    {
        CleanShelf { files, reach: 0 }
    }

    // Notes that a read asks for so many octets from a place on.
    fn ask(&mut self, pos: u64, len: usize)
        ensures { self.new ≡ record self.old { reach = reach_after self.old.reach pos len } }
    {
        self.reach = self.reach.max(pos.saturating_add(len as u64));
    }
}

impl Shelf for CleanShelf {
    ghost use Rattle.std.specs.Prelude.{Some};
    ghost use Rattle.mc_outside.specs.CleanShelf.{files_of, reach_of, told_by, opened_by, told_in};
    ghost use Rattle.mc_outside.specs.Held.{are_short, hold_bytes};

    ghost files = { λ s. Some (told_by s) };

    ghost opened = { λ s. opened_by s };

    ghost faults = { λ s. 0 };

    ghost reach = { λ s. s.reach };

    ghost short = { λ s. are_short s.files };

    ghost octets = { λ s. hold_bytes s.files };

    /// `NoMemory` comes only where the file's place in the list is no `FileNo`.
    fn open_file(&mut self, name: &str) -> Result<FileNo, ShelfError>
        ensures opens { IfOk result
            (λ n. Opens (Some (told_by self.new)) (opened_by self.new) name.now n.0) }
        ensures cause { OpenCause (Some (told_by self.old)) name.now 0 0 result }
        ensures number { result ≡ numbered (place_of (files_of self.old) name.now) }
        ensures same { self.new ≡ self.old }
    {
        number(self.files.as_slice(), name)
    }

    /// It reads as many octets as the file has and `buf` has room for.
    fn read_at(&mut self, file: FileNo, pos: u64, buf: &mut [u8]) -> Result<usize, Failed>
        ensures bounds { IfOk result (λ n. InBounds pos buf.new n) }
        ensures octets { IfOk result (λ n. Reads (told_in self.old file.0) pos buf.new n) }
        ensures count { result
            ≡ Ok (length (part_of (told_in self.old file.0) pos (length buf.old))) }
        ensures files { files_of self.new ≡ files_of self.old }
        ensures reach { reach_of self.new ≡ reach_after (reach_of self.old) pos (length buf.old) }
    {
        self.ask(pos, buf.len());
        Ok(read_listed(self.files.as_slice(), file, pos, buf))
    }

    fn fault_count(&self) -> u64 {
        0
    }
}

/// A shelf in memory some of whose octets fail once: a read that asks for the octets of spots
/// fails, counts one fault and spends these spots.
#[derive(Drop)]
pub struct MemShelf {
    // The files, and how far reads have asked.
    clean: CleanShelf,
    // The spots for which no read has asked: a read that fails takes its own away.
    spots: Spots,
    // How many reads failed.
    faults: u64,
}

impl MemShelf {
    ghost use Rattle.mc_outside.specs.MemShelf.{files_of, spots_of, faults_of, reach_of};

    /// A shelf of these files with these spots, of which nothing was read. It takes no memory.
    pub fn new(files: NamedFiles, spots: Spots) -> MemShelf
        ensures files { files_of result ≡ files }
        ensures spots { spots_of result ≡ spots }
        ensures faults { faults_of result ≡ 0 }
        ensures reach { reach_of result ≡ 0 }
    {
        MemShelf {
            clean: CleanShelf::new(files),
            spots,
            faults: 0,
        }
    }
}

impl Shelf for MemShelf {
    ghost use Rattle.std.specs.Prelude.{Some};
    ghost use Rattle.mc_outside.specs.MemShelf.{files_of, spots_of, faults_of, reach_of, told_by, opened_by, told_in};
    ghost use Rattle.mc_outside.specs.Held.{are_short, hold_bytes};

    ghost files = { λ s. Some (told_by s) };

    ghost opened = { λ s. opened_by s };

    ghost faults = { λ s. s.faults };

    ghost reach = { λ s. s.clean.reach };

    ghost short = { λ s. are_short s.clean.files };

    ghost octets = { λ s. hold_bytes s.clean.files };

    /// `NoMemory` comes only where the file's place in the list is no `FileNo`.
    fn open_file(&mut self, name: &str) -> Result<FileNo, ShelfError>
        ensures opens { IfOk result
            (λ n. Opens (Some (told_by self.new)) (opened_by self.new) name.now n.0) }
        ensures cause { OpenCause (Some (told_by self.old)) name.now (faults_of self.old)
            (faults_of self.new) result }
        ensures number { result ≡ numbered (place_of (files_of self.old) name.now) }
        ensures same { self.new ≡ self.old }
    {
        self.clean.open_file(name)
    }

    /// It reads as many octets as the file has and `buf` has room for, or it fails.
    fn read_at(&mut self, file: FileNo, pos: u64, buf: &mut [u8]) -> Result<usize, Failed>
        ensures bounds { IfOk result (λ n. InBounds pos buf.new n) }
        ensures octets { IfOk result (λ n. Reads (told_in self.old file.0) pos buf.new n) }
        ensures cause { HasCause (faults_of self.old) (faults_of self.new) result }
        ensures answer { MatchBool (meets_spot file.0 pos (length buf.old) (spots_of self.old))
            (IsErr result)
            (result ≡ Ok (length (part_of (told_in self.old file.0) pos (length buf.old)))) }
        ensures faults { faults_of self.new ≡ faults_after_read result (faults_of self.old) }
        ensures spent { spots_of self.new
            ≡ left_of file.0 pos (length buf.old) (spots_of self.old) }
        ensures files { files_of self.new ≡ files_of self.old }
        ensures reach { reach_of self.new ≡ reach_after (reach_of self.old) pos (length buf.old) }
    {
        if spend(&mut self.spots, file.0, pos, buf.len() as u64) {
            self.clean.ask(pos, buf.len());
            self.faults = self.faults.saturating_add(1);
            return Err(Failed);
        }
        self.clean.read_at(file, pos, buf)
    }

    fn fault_count(&self) -> u64 {
        self.faults
    }
}
