ghost use Rattle.std.specs.Prelude.{◌≡◌};

use mc_outside::{Failed, FileNo, Shelf, ShelfError};

/// A shelf that counts the octets that another one gives. Else it is as that one.
#[derive(Drop)]
pub struct CountingShelf<S: Shelf> {
    inner: S,
    octets: u64,
}

impl<S: Shelf + Drop> CountingShelf<S> {
    /// Counts what a shelf gives from now on.
    pub fn new(inner: S) -> CountingShelf<S>
        ensures { result.inner ≡ inner }
    {
        CountingShelf { inner, octets: 0 }
    }

    /// How many octets it gave since this was asked last, as far as a `u64` counts.
    pub fn take_count(&mut self) -> u64
        ensures count { result ≡ self.old.octets }
        ensures same { self.new.inner ≡ self.old.inner }
        ensures anew { self.new.octets ≡ 0 }
    {
        let octets = self.octets;
        self.octets = 0;
        octets
    }
}

impl<S: Shelf + Drop> Shelf for CountingShelf<S> {
    ghost files = { λ s. S.files s.inner };

    ghost opened = { λ s. S.opened s.inner };

    ghost faults = { λ s. S.faults s.inner };

    ghost reach = { λ s. S.reach s.inner };

    ghost short = { λ s. S.short s.inner };

    ghost octets = { λ s. S.octets s.inner };

    fn open_file(&mut self, name: &str) -> Result<FileNo, ShelfError> {
        self.inner.open_file(name)
    }

    fn read_at(&mut self, file: FileNo, pos: u64, buf: &mut [u8]) -> Result<usize, Failed> {
        let count = self.inner.read_at(file, pos, buf)?;
        self.octets = self.octets.saturating_add(count as u64);
        Ok(count)
    }

    fn fault_count(&self) -> u64 {
        self.inner.fault_count()
    }
}
