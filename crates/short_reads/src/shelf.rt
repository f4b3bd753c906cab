ghost use Rattle.std.specs.Prelude.{◌≡◌};

use mc_outside::{Failed, FileNo, Shelf, ShelfError};

/// A shelf each of whose reads gives at most so many octets, but at least one. It tells nothing.
#[derive(Drop)]
pub struct ShortShelf<S: Shelf> {
    inner: S,
    most: usize,
}

impl<S: Shelf + Drop> ShortShelf<S> {
    /// Puts a limit on the reads of a shelf.
    pub fn new(inner: S, most: usize) -> ShortShelf<S> {
        ShortShelf { inner, most }
    }
}

impl<S: Shelf + Drop> Shelf for ShortShelf<S> {
    ghost use Rattle.std.specs.Prelude.{None};

    ghost files = { λ s. None };

    ghost opened = { λ s k. None };

    ghost faults = { λ s. S.faults s.inner };

    ghost reach = { λ s. 0 };

    ghost short = { λ s. tt };

    ghost octets = { λ s. tt };

    /// `NoMemory` where the shelf behind it has no such file.
    fn open_file(&mut self, name: &str) -> Result<FileNo, ShelfError> {
        match self.inner.open_file(name) {
            Err(ShelfError::NotFound) => Err(ShelfError::NoMemory),
            answer => answer,
        }
    }

    fn read_at(&mut self, file: FileNo, pos: u64, buf: &mut [u8]) -> Result<usize, Failed> {
        let count = buf.len().min(self.most.max(1));
        self.inner.read_at(file, pos, &mut buf[..count])
    }

    fn fault_count(&self) -> u64 {
        self.inner.fault_count()
    }
}
