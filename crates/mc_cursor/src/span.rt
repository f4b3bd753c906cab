ghost use Rattle.std.specs.Prelude.{◌≡◌, ◌+◌, ◌-◌, ◌<◌, ◌≤◌, length, Option, IfOk};
ghost use Rattle.mc_outside.specs.Causes.{HasCause};
ghost use Rattle.mc_outside.specs.Shelf.{OnlyReadsTo};
ghost use Rattle.mc_walk.specs.Glances.{CountsIn};
ghost use Rattle.mc_cursor.specs.Heads.{mark_taken};
ghost use Rattle.mc_cursor.specs.Reads.{InFile};
ghost use Rattle.mc_cursor.specs.Spans.{Glanced, span_taken};

use crate::cursor::Cursor;
use crate::reading::{read_ends_before, read_whole};
use mc_outside::{ReadFault, Shelf};
use mc_packet::{Ending, Fault};
use mc_walk::{BlockMark, Glance, block_glance};

/// A block in a film: its octets stand from `at` up to `stop`. Whether the Block of a BlockGroup is
/// a keyframe is told by `keyframe`; a SimpleBlock says so in its flags, and has `None`.
#[derive(Clone, Copy, Debug, PartialEq, Eq)]
pub(crate) struct Span {
    pub(crate) at: u64,
    pub(crate) stop: u64,
    pub(crate) keyframe: Option<bool>,
}

// The most octets before a block's frames: its track number has at most 8, and 3 follow; a lace
// has a count behind them.
const FRONT: u64 = 12;

impl Cursor {
    /// What the front of a block tells, where the film reaches up to the block's end. It reads at
    /// most the first 12 octets of the block, and the last.
    pub(crate) fn read_glance<S: Shelf>(
        &self,
        shelf: &mut S,
        place: u64,
        time: Option<u64>,
        span: Span,
    ) -> Result<Result<Glance, Ending>, ReadFault>
        requires { span.at ≤ span.stop }
        ensures value { IfOk result (λ r. InFile S.files S.opened shelf.old self.now.file.0
            (λ octets. span.at ≤ length octets → Glanced octets self.now place time span r)) }
        ensures near { IfOk result (λ r. IfOk r (CountsIn (span.stop - span.at))) }
        ensures cause { HasCause (S.faults shelf.old) (S.faults shelf.new) result }
        ensures kept { OnlyReadsTo S.files S.opened S.reach shelf.old shelf.new span.stop }
    {
        let size = (span.stop - span.at).min(FRONT);
        let mut octets = [0u8; 12];
        let front = &mut octets[..size as usize];
        if !read_whole(shelf, self.file, span.at, front)? {
            return Ok(Err(Ending::Cut(place)));
        }
        if read_ends_before(shelf, self.file, span.at + size, span.stop)? {
            return Ok(Err(Ending::Cut(place)));
        }
        Ok(Ok(block_glance(&self.tracks, self.scale, place, time, span.keyframe, front)))
    }

    /// The first packet of a block in short, or how the film ends there. It reads no payload but a
    /// last octet.
    pub(crate) fn read_first<S: Shelf>(
        &self,
        shelf: &mut S,
        place: u64,
        time: Option<u64>,
        span: Span,
    ) -> Result<Result<Option<BlockMark>, Ending>, ReadFault>
        requires { span.at ≤ span.stop }
        ensures value { IfOk result (λ r. InFile S.files S.opened shelf.old self.now.file.0
            (λ octets. span.at ≤ length octets
            → r ≡ mark_taken (span_taken octets self.now place time span))) }
        ensures cause { HasCause (S.faults shelf.old) (S.faults shelf.new) result }
        ensures kept { OnlyReadsTo S.files S.opened S.reach shelf.old shelf.new span.stop }
    {
        match self.read_glance(shelf, place, time, span)? {
            Err(ending) => Ok(Err(ending)),
            Ok(Glance::Skipped) => Ok(Ok(None)),
            Ok(Glance::Fault(fault)) => Ok(Err(Ending::Damaged(place, fault))),
            Ok(Glance::Frame(mark)) => Ok(Ok(Some(mark))),
            Ok(Glance::Laced(lace)) => self.read_laced(shelf, place, span, lace),
        }
    }
}
