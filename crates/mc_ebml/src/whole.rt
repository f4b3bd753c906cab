//! Elements that stand whole within the octets that are read.
ghost use Rattle.std.specs.Prelude.{◌≡◌, ◌≤◌, length, IfSome};
ghost use Rattle.mc_ebml.specs.Whole.{element_at, LiesIn};

use crate::read::{Size, read_head};

/// An element that stands whole within the octets that are read. Its offsets are counted in those.
#[derive(Clone, Copy, Debug, PartialEq, Eq)]
pub struct WholeElement {
    /// Its ID with the marker bit.
    pub id: u32,
    /// The offset at which its head begins.
    pub place: usize,
    /// The offset at which its body begins.
    pub at: usize,
    /// The offset at which it ends.
    pub stop: usize,
}

/// The element at offset `place`, where its head can be read, its size is known and it ends within
/// the octets; else `None`.
#[tactic(auto, unfolding(crate::specs::Whole::element_at))]
pub fn read_element(octets: &[u8], place: usize) -> Option<WholeElement>
    requires { place ≤ length octets.now }
    ensures value { result ≡ element_at octets.now place }
    ensures lies { IfSome result (λ e. LiesIn (length octets.now) e) }
    ensures begins { IfSome result (λ e. e.place ≡ place) }
{
    let Ok(head) = read_head(octets, place) else {
        return None;
    };
    let Size::Known(size) = head.size else {
        return None;
    };
    if size > (octets.len() - head.body) as u64 {
        return None;
    }
    Some(WholeElement {
        id: head.id,
        place,
        at: head.body,
        stop: head.body + size as usize,
    })
}
