ghost use Rattle.std.specs.Prelude.{◌≡◌, ◌<◌, ◌^◌, length, IfOk};
ghost use Rattle.mc_outside.specs.Shelf.{AreBytes};

use sqlite_items::Items;
use std::alloc::{AllocError, Global};

/// A call wanted memory that was not there.
pub type NoMemory = AllocError;

/// A file in memory: a name and its octets.
#[derive(Drop)]
pub struct NamedFile {
    // Both are set by `new` alone.
    name: String,
    body: Vec<u8>,
    ghost short: { length body.items < 2 ^ 63 },
    ghost bytes: { AreBytes body.items },
}

/// A list of files in memory. A name is that of the first file which has it.
pub type NamedFiles = Items<NamedFile>;

impl NamedFile {
    ghost use Rattle.mc_outside.specs.Named.{name_of, octets_of};

    /// A file of that name and those octets, both copied.
    pub fn new(alloc: Global, name: &str, body: &[u8]) -> Result<NamedFile, NoMemory>
        ensures name { IfOk result (λ f. name_of f ≡ name.now) }
        ensures body { IfOk result (λ f. octets_of f ≡ body.now) }
    {
        Ok(NamedFile {
            name: String::from_str(alloc, name)?,
            body: Vec::from_slice(alloc, body)?,
        })
    }

    pub(crate) fn name(&self) -> &str
        ensures { result.now ≡ name_of self.now }
    {
        self.name.as_str()
    }

    pub(crate) fn body(&self) -> &[u8]
        ensures { result.now ≡ octets_of self.now }
    {
        self.body.as_slice()
    }
}
