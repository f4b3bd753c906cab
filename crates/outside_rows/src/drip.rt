ghost use Rattle.std.specs.Prelude.{◌≡◌, ◌≤◌, IfOk};

use mc_outside::{CleanShelf, Failed, FileNo, Shelf, ShelfError};
use std::io::{self, ErrorKind, Write};

/// A shelf that tells nothing, and gives one octet a read.
#[derive(Drop)]
pub struct DripShelf(pub CleanShelf);

impl Shelf for DripShelf {
    ghost use Rattle.std.specs.Prelude.{None};

    ghost files = { λ s. None };

    ghost opened = { λ s k. None };

    ghost faults = { λ s. 0 };

    ghost reach = { λ s. 0 };

    ghost short = { λ s. tt };

    ghost octets = { λ s. tt };

    fn open_file(&mut self, name: &str) -> Result<FileNo, ShelfError> {
        match self.0.open_file(name) {
            Ok(file) => Ok(file),
            Err(_) => Err(ShelfError::NoMemory),
        }
    }

    fn read_at(&mut self, file: FileNo, pos: u64, buf: &mut [u8]) -> Result<usize, Failed> {
        let count = buf.len().min(1);
        self.0.read_at(file, pos, &mut buf[..count])
    }

    fn fault_count(&self) -> u64 {
        0
    }
}

/// A device that is interrupted first, moves at most two octets then, and none after that.
#[derive(Drop)]
pub struct Fickle(pub u32);

impl Fickle {
    /// How many of so many octets move at this call.
    pub fn step(&mut self, len: usize) -> io::Result<usize>
        ensures { IfOk result (λ n. n ≤ len) }
    {
        self.0 = self.0.saturating_add(1);
        match self.0 {
            1 => Err(io::Error::from(ErrorKind::Interrupted)),
            2 => Ok(len.min(2)),
            _ => Ok(0),
        }
    }
}

impl Write for Fickle {
    fn write(&mut self, buf: &[u8]) -> io::Result<usize> {
        self.step(buf.len())
    }

    fn flush(&mut self) -> io::Result<()> {
        Ok(())
    }
}
