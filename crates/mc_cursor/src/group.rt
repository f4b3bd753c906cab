ghost use Rattle.std.specs.Prelude.{◌≡◌, ◌+◌, ◌-◌, ◌^◌, ◌<◌, ◌≤◌, length, slice_range, option_map, Option, IfOk, IfSome};
ghost use Rattle.mc_outside.specs.Causes.{HasCause};
ghost use Rattle.mc_outside.specs.Shelf.{OnlyReadsTo};
ghost use Rattle.mc_ebml.specs.Whole.{element_at};
ghost use Rattle.mc_block.specs.Group.{children_of, found_among};
ghost use Rattle.mc_cursor.specs.Reads.{InFile};
ghost use Rattle.mc_cursor.specs.Spans.{HasBlock, LiesIn};
ghost use Rattle.mc_cursor.specs.Steps.{IsBlock};

use crate::cursor::Cursor;
use crate::reading::{read_ends_before, read_whole};
use crate::span::Span;
use crate::step::Unread;
use mc_block::{GroupParts, child_by_head};
use mc_ebml::WholeElement;
use mc_outside::{FileNo, ReadFault, Shelf};
use mc_packet::{Ending, Fault};
use mc_walk::Role;

// The most octets of an element's head.
const HEAD: usize = 12;

// The child at offset `next` of a group's body, which stands from `at` on and has `len` octets, up
// to whose end the film reaches.
fn read_child<S: Shelf>(
    shelf: &mut S,
    file: FileNo,
    at: u64,
    next: usize,
    len: usize,
) -> Result<Option<WholeElement>, ReadFault>
    requires { (next ≤ len) × (at + len < 2 ^ 64) }
    ensures value { IfOk result (λ r. InFile S.files S.opened shelf.old file.0
        (λ octets. at + len ≤ length octets
        → r ≡ element_at (slice_range octets at (at + len)) next)) }
    ensures lies { IfOk result (λ r. IfSome r
        (λ c. (next < c.at) × (c.at ≤ c.stop) × (c.stop ≤ len))) }
    ensures cause { HasCause (S.faults shelf.old) (S.faults shelf.new) result }
    ensures kept { OnlyReadsTo S.files S.opened S.reach shelf.old shelf.new (at + len) }
{
    let mut octets = [0u8; 12];
    let front = &mut octets[..(len - next).min(HEAD)];
    if !read_whole(shelf, file, at + next as u64, front)? {
        return Ok(None);
    }
    Ok(child_by_head(front, next, len))
}

// What the children of a group tell, whose body stands from `at` on and has `len` octets, up to
// whose end the film reaches. `None` where one is not good.
fn read_children<S: Shelf>(
    shelf: &mut S,
    file: FileNo,
    at: u64,
    len: usize,
) -> Result<Option<GroupParts>, ReadFault>
    requires { at + len < 2 ^ 64 }
    ensures value { IfOk result (λ r. InFile S.files S.opened shelf.old file.0
        (λ octets. at + len ≤ length octets
        → r ≡ option_map found_among (children_of (slice_range octets at (at + len))))) }
    ensures lies { IfOk result (λ r. IfSome r
        (λ found. IfSome found.block (λ c. (c.at ≤ c.stop) × (c.stop ≤ len)))) }
    ensures cause { HasCause (S.faults shelf.old) (S.faults shelf.new) result }
    ensures kept { OnlyReadsTo S.files S.opened S.reach shelf.old shelf.new (at + len) }
{
    let mut found = GroupParts::new();
    let mut next = 0;
    for _ in 0..len {
        if next >= len {
            return Ok(Some(found));
        }
        let Some(child) = read_child(shelf, file, at, next, len)? else {
            return Ok(None);
        };
        found = found.with(child);
        next = child.stop;
    }
    Ok(Some(found))
}

impl Cursor {
    // The Block of a group, of whose children it reads the heads, and of the group its last octet.
    fn find_in_group<S: Shelf>(
        &self,
        shelf: &mut S,
        place: u64,
        group: Unread,
    ) -> Result<Result<Option<Span>, Ending>, ReadFault>
        requires order { (group.at ≤ group.stop) × (group.stop ≤ group.at + 67108864) }
        requires role { group.role ≡ Role.BlockGroup }
        ensures value { IfOk result (λ r. InFile S.files S.opened shelf.old self.now.file.0
            (λ octets. group.at ≤ length octets → HasBlock octets self.now place group r)) }
        ensures lies { IfOk result (λ r. IfOk r (λ found. IfSome found (LiesIn group))) }
        ensures cause { HasCause (S.faults shelf.old) (S.faults shelf.new) result }
        ensures kept { OnlyReadsTo S.files S.opened S.reach shelf.old shelf.new group.stop }
    {
        if read_ends_before(shelf, self.file, group.at, group.stop)? {
            return Ok(Err(Ending::Cut(place)));
        }
        let len = (group.stop - group.at) as usize;
        let Some(found) = read_children(shelf, self.file, group.at, len)? else {
            return Ok(Err(Ending::Damaged(place, Fault::BadGroup)));
        };
        let Some(block) = found.block else {
            return Ok(Ok(None));
        };
        Ok(Ok(Some(Span {
            at: group.at + block.at as u64,
            stop: group.at + block.stop as u64,
            keyframe: Some(!found.refers),
        })))
    }

    /// The block of a block element, which a group may lack, or how the film ends there. Of a
    /// SimpleBlock it reads nothing, of a group the heads of its children and its last octet.
    pub(crate) fn find_block<S: Shelf>(
        &self,
        shelf: &mut S,
        place: u64,
        block: Unread,
    ) -> Result<Result<Option<Span>, Ending>, ReadFault>
        requires order { (block.at ≤ block.stop) × (block.stop ≤ block.at + 67108864) }
        requires role { IsBlock block.role }
        ensures value { IfOk result (λ r. InFile S.files S.opened shelf.old self.now.file.0
            (λ octets. block.at ≤ length octets → HasBlock octets self.now place block r)) }
        ensures lies { IfOk result (λ r. IfOk r (λ found. IfSome found (LiesIn block))) }
        ensures cause { HasCause (S.faults shelf.old) (S.faults shelf.new) result }
        ensures kept { OnlyReadsTo S.files S.opened S.reach shelf.old shelf.new block.stop }
    {
        match block.role {
            Role::BlockGroup => self.find_in_group(shelf, place, block),
            _ => Ok(Ok(Some(Span {
                at: block.at,
                stop: block.stop,
                keyframe: None,
            }))),
        }
    }
}
