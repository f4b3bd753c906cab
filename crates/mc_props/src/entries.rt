ghost use Rattle.std.specs.Prelude.{◌≡◌, ◌<◌, IfSome, length};
ghost use Rattle.mc_props.specs.Entries.{place_of};

use mc_value::Text;
use sqlite_items::Items;

/// A property of a table.
#[derive(Debug, Drop)]
pub struct PropEntry {
    /// Its name, as `time-pos`.
    pub name: Text,
    /// The fields of the facts that its value depends on, as bits (`fields`).
    pub mask: u32,
    /// Whether it may be set.
    pub writable: bool,
}

/// The properties of a table, each at its place.
pub type PropEntries = Items<PropEntry>;

/// The place of the entry of a name.
pub(crate) fn place_of(entries: &[PropEntry], name: &str) -> Option<usize>
    ensures place { result ≡ place_of name.now entries.now }
    ensures within { IfSome result (λ k. k < length entries.now) }
{
    entries.iter().position(|entry| entry.name.as_str() == name)
}
