ghost use Rattle.std.specs.Prelude.{◌<◌};

use mc_outside::{Failed, FileNo, Shelf, ShelfError};

/// A film of parts that are alike but for one octet, the number of the part. In each, a payload of
/// zeros stands between a lead and a tail.
#[derive(Drop)]
pub struct Film {
    /// What stands before the parts.
    pub opening: Vec<u8>,
    /// What stands before the payload.
    pub lead: Vec<u8>,
    /// Which octet of the lead tells the number of the part.
    pub number_at: u64,
    /// How many octets the payload has.
    pub payload: u64,
    /// What stands behind the payload.
    pub tail: Vec<u8>,
}

/// How many parts a film has.
pub const PARTS: u64 = 40;

impl Film {
    // How many octets a part has; at least one.
    fn part_len(&self) -> u64
        ensures { 0 < result }
    {
        (self.lead.len() as u64)
            .saturating_add(self.payload)
            .saturating_add(self.tail.len() as u64)
            .max(1)
    }

    // How many octets the film has.
    fn len(&self) -> u64 {
        (self.opening.len() as u64).saturating_add(self.part_len().saturating_mul(PARTS))
    }

    // Fills a buffer with the film's octets from a place on.
    fn copy_to(&self, pos: u64, buf: &mut [u8]) {
        let mut place = pos;
        for octet in buf.iter_mut() {
            *octet = self.octet(place);
            place = place.saturating_add(1);
        }
    }

    // The octet at a place of the film.
    fn octet(&self, pos: u64) -> u8 {
        let opening = self.opening.len() as u64;
        if pos < opening {
            return octet_of(&self.opening, pos);
        }
        let number = (pos - opening) / self.part_len();
        let at = (pos - opening) % self.part_len();
        let lead = self.lead.len() as u64;
        if at == self.number_at {
            (number % 256) as u8
        } else if at < lead {
            octet_of(&self.lead, at)
        } else if at - lead < self.payload {
            0
        } else {
            octet_of(&self.tail, at - lead - self.payload)
        }
    }
}

fn octet_of(octets: &Vec<u8>, at: u64) -> u8 {
    octets.get(at as usize).copied().unwrap_or(0)
}

/// A shelf that has one film under every name, makes its octets where they are read, and counts
/// them.
#[derive(Drop)]
pub struct MadeShelf {
    film: Film,
    // How many octets it gave, as far as a `u64` counts.
    octets: u64,
}

impl MadeShelf {
    /// A shelf with that film.
    pub fn new(film: Film) -> MadeShelf {
        MadeShelf { film, octets: 0 }
    }

    /// How many octets it gave since this was asked last.
    pub fn take_count(&mut self) -> u64 {
        let octets = self.octets;
        self.octets = 0;
        octets
    }
}

// No shelf gives an octet at or past this place.
const END: u64 = 0x7fff_ffff_ffff_ffff;

impl Shelf for MadeShelf {
    ghost use Rattle.std.specs.Prelude.{None};

    ghost files = { λ s. None };

    ghost opened = { λ s k. None };

    ghost faults = { λ s. 0 };

    ghost reach = { λ s. 0 };

    ghost short = { λ s. tt };

    ghost octets = { λ s. tt };

    fn open_file(&mut self, _name: &str) -> Result<FileNo, ShelfError> {
        Ok(FileNo(0))
    }

    fn read_at(&mut self, _file: FileNo, pos: u64, buf: &mut [u8]) -> Result<usize, Failed> {
        let end = self.film.len().min(END);
        if pos >= end {
            return Ok(0);
        }
        let count = buf.len().min((end - pos) as usize);
        self.film.copy_to(pos, &mut buf[..count]);
        self.octets = self.octets.saturating_add(count as u64);
        Ok(count)
    }

    fn fault_count(&self) -> u64 {
        0
    }
}
