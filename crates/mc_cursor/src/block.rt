ghost use Rattle.std.specs.Prelude.{◌≡◌, ◌+◌, ◌-◌, ◌<◌, ◌≤◌, length, Some, Ok, Err, IfOk};
ghost use Rattle.mc_outside.specs.Causes.{HasCause};
ghost use Rattle.mc_outside.specs.Shelf.{OnlyReadsTo};
ghost use Rattle.mc_packet.specs.Shape.{AreBetween};
ghost use Rattle.mc_walk.specs.Blocks.{block_element_of};
ghost use Rattle.mc_walk.specs.Walk.{time_of};
ghost use Rattle.mc_cursor.specs.Causes.{ReadCause};
ghost use Rattle.mc_cursor.specs.Heads.{mark_taken};
ghost use Rattle.mc_cursor.specs.Reads.{InFile};
ghost use Rattle.mc_cursor.specs.Spans.{HasBlock, LiesIn};
ghost use Rattle.mc_cursor.specs.Standing.{plan_for};
ghost use Rattle.mc_cursor.specs.Steps.{IsBlock, or_damaged, taken_of};

use crate::cursor::Cursor;
use crate::error::CursorError;
use crate::reading::{read_ends_before, read_part};
use crate::span::Span;
use crate::step::Unread;
use bytes::Bytes;
use mc_outside::{ReadFault, Shelf};
use mc_packet::{Ending, Fault, LARGEST_BLOCK, NoMemory, Packets};
use mc_walk::{BlockMark, Glance, WalkError, block_element, cluster_time};
use std::alloc::AllocError;

impl Cursor {
    // The packets of a block element with that body, or how the film ends there.
    fn take_block(
        &self,
        place: u64,
        block: Unread,
        body: &Bytes,
    ) -> Result<Result<Packets, Ending>, NoMemory>
        ensures value { IfOk result (λ r. r
            ≡ or_damaged place (block_element_of self.now.tracks self.now.scale place
            (time_of block.level) block.role body.now)) }
        ensures law { IfOk result (λ r. IfOk r (AreBetween place (place + 1))) }
    {
        match block_element(
            self.alloc,
            &self.tracks,
            self.scale,
            place,
            cluster_time(block.level),
            block.role,
            body,
        ) {
            Ok(packets) => Ok(Ok(packets)),
            Err(WalkError::Fault(fault)) => Ok(Err(Ending::Damaged(place, fault))),
            Err(WalkError::NoMemory) => Err(AllocError),
        }
    }

    // How the film ends at a block element that is too large to be read.
    #[tactic(auto, using(crate::proofs::Long::long_block))]
    fn refuse_block<S: Shelf>(
        &self,
        shelf: &mut S,
        place: u64,
        block: Unread,
    ) -> Result<Ending, ReadFault>
        requires large { block.at + 67108864 < block.stop }
        requires role { IsBlock block.role }
        ensures value { IfOk result (λ e. InFile S.files S.opened shelf.old self.now.file.0
            (λ octets. block.at ≤ length octets
            → taken_of (plan_for octets self.now) place block ≡ Err e)) }
        ensures cause { HasCause (S.faults shelf.old) (S.faults shelf.new) result }
        ensures kept { OnlyReadsTo S.files S.opened S.reach shelf.old shelf.new block.stop }
    {
        if read_ends_before(shelf, self.file, block.at, block.stop)? {
            Ok(Ending::Cut(place))
        } else {
            Ok(Ending::Damaged(place, Fault::TooLarge))
        }
    }

    // The packets of a block element, whose whole body is read.
    fn read_whole_block<S: Shelf>(
        &self,
        shelf: &mut S,
        place: u64,
        block: Unread,
    ) -> Result<Result<Packets, Ending>, CursorError>
        requires { (place < block.at) × (block.at ≤ block.stop) × IsBlock block.role }
        ensures value { IfOk result (λ r. InFile S.files S.opened shelf.old self.now.file.0
            (λ octets. block.at ≤ length octets
            → r ≡ taken_of (plan_for octets self.now) place block)) }
        ensures law { IfOk result (λ r. IfOk r (AreBetween place (place + 1))) }
        ensures cause { ReadCause (S.faults shelf.old) (S.faults shelf.new) result }
        ensures kept { OnlyReadsTo S.files S.opened S.reach shelf.old shelf.new block.stop }
    {
        match read_part(self.alloc, shelf, self.file, block.at, block.stop)? {
            Some(body) => Ok(self.take_block(place, block, &body)?),
            None => Ok(Err(Ending::Cut(place))),
        }
    }

    // The packets of a block element that has this block. It is read whole where its track is known.
    #[tactic(auto, using(crate::proofs::Spans::none_here))]
    fn read_known<S: Shelf>(
        &self,
        shelf: &mut S,
        place: u64,
        block: Unread,
        span: Span,
    ) -> Result<Result<Packets, Ending>, CursorError>
        requires order { (place < block.at) × (block.at ≤ block.stop) × IsBlock block.role }
        requires lies { LiesIn block span }
        ensures value { IfOk result (λ r. InFile S.files S.opened shelf.old self.now.file.0
            (λ octets. block.at ≤ length octets
            → HasBlock octets self.now place block (Ok (Some span))
            → r ≡ taken_of (plan_for octets self.now) place block)) }
        ensures law { IfOk result (λ r. IfOk r (AreBetween place (place + 1))) }
        ensures cause { ReadCause (S.faults shelf.old) (S.faults shelf.new) result }
        ensures kept { OnlyReadsTo S.files S.opened S.reach shelf.old shelf.new block.stop }
    {
        match self.read_glance(shelf, place, cluster_time(block.level), span)? {
            Err(ending) => Ok(Err(ending)),
            Ok(Glance::Skipped) => Ok(Ok(Packets::new(self.alloc))),
            Ok(Glance::Fault(fault)) => Ok(Err(Ending::Damaged(place, fault))),
            Ok(Glance::Frame(_) | Glance::Laced(_)) => self.read_whole_block(shelf, place, block),
        }
    }

    /// The packets of the block element at a place, or how the film ends there. It reads the whole
    /// body, unless that is too large, or the block's track is not known: of such a block it reads
    /// at most the first 12 octets and the last, in a group also the heads of the children.
    #[tactic(auto, using(crate::proofs::Spans::none_here))]
    pub(crate) fn read_block<S: Shelf>(
        &self,
        shelf: &mut S,
        place: u64,
        block: Unread,
    ) -> Result<Result<Packets, Ending>, CursorError>
        requires { (place < block.at) × (block.at ≤ block.stop) × IsBlock block.role }
        ensures value { IfOk result (λ r. InFile S.files S.opened shelf.old self.now.file.0
            (λ octets. block.at ≤ length octets
            → r ≡ taken_of (plan_for octets self.now) place block)) }
        ensures law { IfOk result (λ r. IfOk r (AreBetween place (place + 1))) }
        ensures cause { ReadCause (S.faults shelf.old) (S.faults shelf.new) result }
        ensures kept { OnlyReadsTo S.files S.opened S.reach shelf.old shelf.new block.stop }
    {
        if block.stop - block.at > LARGEST_BLOCK {
            return Ok(Err(self.refuse_block(shelf, place, block)?));
        }
        match self.find_block(shelf, place, block)? {
            Err(ending) => Ok(Err(ending)),
            Ok(None) => Ok(Ok(Packets::new(self.alloc))),
            Ok(Some(span)) => self.read_known(shelf, place, block, span),
        }
    }

    /// The first packet of the block element at a place in short, or how the film ends there. It
    /// reads at most the first 12 octets of the block, its lace's sizes and its last octet; in a
    /// group also the heads of the children.
    pub(crate) fn read_mark<S: Shelf>(
        &self,
        shelf: &mut S,
        place: u64,
        block: Unread,
    ) -> Result<Result<Option<BlockMark>, Ending>, ReadFault>
        requires { (place < block.at) × (block.at ≤ block.stop) × IsBlock block.role }
        ensures value { IfOk result (λ r. InFile S.files S.opened shelf.old self.now.file.0
            (λ octets. block.at ≤ length octets
            → r ≡ mark_taken (taken_of (plan_for octets self.now) place block))) }
        ensures cause { HasCause (S.faults shelf.old) (S.faults shelf.new) result }
        ensures kept { OnlyReadsTo S.files S.opened S.reach shelf.old shelf.new block.stop }
    {
        if block.stop - block.at > LARGEST_BLOCK {
            return Ok(Err(self.refuse_block(shelf, place, block)?));
        }
        match self.find_block(shelf, place, block)? {
            Err(ending) => Ok(Err(ending)),
            Ok(None) => Ok(Ok(None)),
            Ok(Some(span)) => self.read_first(shelf, place, cluster_time(block.level), span),
        }
    }
}
