ghost use Rattle.std.specs.Prelude.{◌≡◌, ◌+◌, ◌<◌, ◌≤◌, ◌==◌, ℕ, List, length, take, drop, false, Some, None, option_map, IfOk, IfSome};
ghost use Rattle.std.specs.List.{list_any};
ghost use Rattle.mc_ebml.specs.Element.{head_at};
ghost use Rattle.mc_ebml.specs.Whole.{element_at, LiesIn};
ghost use Rattle.mc_block.specs.Fronts.{child_by};
ghost use Rattle.mc_block.specs.Group.{children_of, with_child, found_among};
ghost use Rattle.mc_block.specs.Block.{Gives, group_body_of};

use crate::error::BlockError;
use crate::parts::BlockBody;
use bytes::Bytes;
use mc_ebml::{Size, WholeElement, ids, read_element, read_head};
use mc_packet::LARGEST_BLOCK;

/// What is found among a BlockGroup's children, so far as they were looked at.
#[derive(Clone, Copy, Debug, PartialEq, Eq)]
pub struct GroupParts {
    /// Its first Block.
    pub block: Option<WholeElement>,
    /// Whether a ReferenceBlock stands among them, so that the Block is no keyframe.
    pub refers: bool,
}

/// The child of a BlockGroup (RFC 9559, section 5.1.3.5) at offset `at` of the group's body, which
/// has `len` octets, by the octets that stand there: the first 12, or all of fewer. `None` where
/// it has no whole head or no size, or runs past the body's end.
#[tactic(auto, using(crate::proofs::Children::child_here))]
pub fn child_by_head(front: &[u8], at: usize, len: usize) -> Option<WholeElement>
    requires { at + length front.now ≤ len }
    ensures law { (body : List ℕ) → length body ≡ len → front.now ≡ take 12 (drop at body)
        → result ≡ element_at body at }
    ensures lies { IfSome result (λ c. LiesIn len c) }
    ensures begins { IfSome result (λ c. c.place ≡ at) }
{
    headed_child(front, at, len)
}

fn headed_child(front: &[u8], at: usize, len: usize) -> Option<WholeElement>
    requires { at + length front.now ≤ len }
    ensures value { result ≡ child_by at len (head_at front.now 0) }
    ensures lies { IfSome result (λ c. LiesIn len c) }
    ensures begins { IfSome result (λ c. c.place ≡ at) }
{
    let head = read_head(front, 0).ok()?;
    let Size::Known(size) = head.size else {
        return None;
    };
    let begin = at + head.body;
    if size > (len - begin) as u64 {
        return None;
    }
    Some(WholeElement {
        id: head.id,
        place: at,
        at: begin,
        stop: begin + size as usize,
    })
}

impl GroupParts {
    /// Before any child was looked at.
    pub fn new() -> GroupParts
        ensures { result ≡ record { block = None; refers = false } }
    {
        GroupParts {
            block: None,
            refers: false,
        }
    }

    /// What is found with the next child.
    pub fn with(self, child: WholeElement) -> GroupParts
        ensures { result ≡ with_child self child }
    {
        let block = if child.id == ids::BLOCK {
            Some(child)
        } else {
            None
        };
        GroupParts {
            block: self.block.or(block),
            refers: self.refers || child.id == ids::REFERENCE_BLOCK,
        }
    }
}

// What the children tell, where each stands whole up to the end of the octets.
fn read_children(octets: &[u8]) -> Option<GroupParts>
    ensures value { result ≡ option_map found_among (children_of octets.now) }
    ensures lies { IfSome result
        (λ f. IfSome f.block (λ c. (c.at ≤ c.stop) × (c.stop ≤ length octets.now))) }
{
    let mut found = GroupParts::new();
    let mut at = 0;
    for _ in 0..octets.len() {
        if at >= octets.len() {
            return Some(found);
        }
        let child = read_element(octets, at)?;
        found = found.with(child);
        at = child.stop;
    }
    Some(found)
}

/// The block of a BlockGroup (RFC 9559, section 5.1.3.5) with that body: its first Block, whose
/// octets are shared with the body, and which is a keyframe exactly where no ReferenceBlock stands
/// in the group. `None` where it has no Block.
///
/// `TooLarge` exactly where the body has more than 67,108,864 octets, and else `BadGroup` exactly
/// where a child has no whole head or no size, or runs past the body's end; it may give `NoMemory`.
#[tactic(auto, unfolding(crate::specs::Block::group_body_of))]
pub fn group_body(body: &Bytes) -> Result<Option<BlockBody>, BlockError>
    ensures value { Gives result (group_body_of body.now) }
    ensures small { IfOk result (λ found. IfSome found (λ block. length block.octets ≤ 67108864)) }
{
    if body.len() as u64 > LARGEST_BLOCK {
        return Err(BlockError::TooLarge);
    }
    let Some(found) = read_children(body.as_slice()) else {
        return Err(BlockError::BadGroup);
    };
    let Some(block) = found.block else {
        return Ok(None);
    };
    Ok(Some(BlockBody {
        octets: body.slice(block.at..block.stop)?,
        keyframe: Some(!found.refers),
    }))
}
