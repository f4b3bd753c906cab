ghost use Rattle.std.specs.Prelude.{◌≡◌, ◌<◌, ◌≤◌, length, IfSome};
ghost use Rattle.mc_ebml.specs.Whole.{LiesIn};
ghost use Rattle.mc_tracks.specs.Children.{is_integer, child_at, children_of, first};

use mc_ebml::{WholeElement, ids, read_element};

/// An element whose children are read.
#[derive(Clone, Copy, Debug, PartialEq, Eq)]
pub enum Master {
    /// The EBML header (RFC 8794, section 11.2).
    EbmlHeader,
    /// Info (RFC 9559, section 5.1.2).
    Info,
    /// Tracks (RFC 9559, section 5.1.4).
    Tracks,
    /// A TrackEntry (RFC 9559, section 5.1.4.1).
    TrackEntry,
}

impl Master {
    // Whether its children of this ID are read as unsigned integers.
    fn is_integer(self, id: u32) -> bool
        ensures { result ≡ is_integer self id }
    {
        match self {
            Master::EbmlHeader => is_header_integer(id),
            Master::Info => id == ids::TIMESTAMP_SCALE,
            Master::Tracks => false,
            Master::TrackEntry => is_entry_integer(id),
        }
    }
}

fn is_header_integer(id: u32) -> bool
    ensures { result ≡ is_integer Master.EbmlHeader id }
{
    id == ids::EBML_READ_VERSION
        || id == ids::EBML_MAX_ID_LENGTH
        || id == ids::EBML_MAX_SIZE_LENGTH
        || id == ids::DOC_TYPE_READ_VERSION
}

fn is_entry_integer(id: u32) -> bool
    ensures { result ≡ is_integer Master.TrackEntry id }
{
    id == ids::TRACK_NUMBER
        || id == ids::TRACK_UID
        || id == ids::TRACK_TYPE
        || id == ids::FLAG_DEFAULT
        || id == ids::DEFAULT_DURATION
}

/// The child at offset `place` of a body: it stands whole there, and is no integer of more than 8
/// octets; else `None`.
#[tactic(auto, unfolding(crate::specs::Children::child_at))]
pub fn read_child(master: Master, body: &[u8], place: usize) -> Option<WholeElement>
    requires { place ≤ length body.now }
    ensures value { result ≡ child_at master body.now place }
    ensures lies { IfSome result (λ c. LiesIn (length body.now) c) }
    ensures begins { IfSome result (λ c. c.place ≡ place) }
{
    let child = read_element(body, place)?;
    if child.stop - child.at <= 8 || !master.is_integer(child.id) {
        Some(child)
    } else {
        None
    }
}

/// The offset of the first child of a body that cannot be read, if there is one.
pub fn find_broken(master: Master, body: &[u8]) -> Option<usize>
    ensures value { result ≡ (children_of master body.now).broken }
    ensures within { IfSome result (λ place. place < length body.now) }
{
    let mut place = 0;
    for _ in 0..body.len() {
        if place == body.len() {
            return None;
        }
        let Some(child) = read_child(master, body, place) else {
            return Some(place);
        };
        place = child.stop;
    }
    None
}

/// The first child of an ID, among those before the first that cannot be read.
pub fn find_child(master: Master, body: &[u8], id: u32) -> Option<WholeElement>
    ensures value { result ≡ first id (children_of master body.now).whole }
    ensures lies { IfSome result (λ c. LiesIn (length body.now) c) }
{
    let mut place = 0;
    for _ in 0..body.len() {
        if place == body.len() {
            return None;
        }
        let child = read_child(master, body, place)?;
        if child.id == id {
            return Some(child);
        }
        place = child.stop;
    }
    None
}
