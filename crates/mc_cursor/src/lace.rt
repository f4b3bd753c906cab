ghost use Rattle.std.specs.Prelude.{◌≡◌, ◌+◌, ◌-◌, ◌<◌, ◌≤◌, ℕ, length, slice_range, Option, Some, Ok, IfOk};
ghost use Rattle.mc_outside.specs.Causes.{HasCause};
ghost use Rattle.mc_outside.specs.Shelf.{OnlyReadsTo};
ghost use Rattle.mc_block.specs.Fronts.{is_good, FitsIn};
ghost use Rattle.mc_walk.specs.declared.front.Glance.TheVariants as glances;
ghost use Rattle.mc_walk.specs.Glances.{lace_mark};
ghost use Rattle.mc_cursor.specs.Heads.{mark_taken};
ghost use Rattle.mc_cursor.specs.Reads.{InFile};
ghost use Rattle.mc_cursor.specs.Spans.{mark_or_damaged, span_taken, Glanced, SizesTell, SizesGoOn};

use crate::cursor::Cursor;
use crate::reading::read_whole;
use crate::span::Span;
use mc_block::LaceReader;
use mc_outside::{FileNo, ReadFault, Shelf};
use mc_packet::{Ending, Fault};
use mc_walk::{BlockMark, LacedBlock};

// How many octets of a lace are read at once.
const WINDOW: u64 = 256;

/// What the next octets of a lace tell.
#[derive(Clone, Copy, Debug, PartialEq, Eq)]
pub(crate) enum Sizes {
    /// The film lacks them.
    Cut,
    /// The lace is bad.
    Bad,
    /// The sizes go on at `at`, where there are more.
    On { lace: LaceReader, at: u64 },
}

// Reads on in a lace whose sizes go on from `at`, in a block that ends at `stop`.
fn read_window<S: Shelf>(
    shelf: &mut S,
    file: FileNo,
    at: u64,
    stop: u64,
    lace: LaceReader,
) -> Result<Sizes, ReadFault>
    requires order { at ≤ stop }
    requires fits { FitsIn (stop - at) lace }
    requires wanted { 0 < lace.wanted }
    ensures value { IfOk result (λ r. InFile S.files S.opened shelf.old file.0
        (λ octets. stop ≤ length octets → SizesTell octets at stop lace r)) }
    ensures onward { IfOk result (SizesGoOn at stop) }
    ensures cause { HasCause (S.faults shelf.old) (S.faults shelf.new) result }
    ensures kept { OnlyReadsTo S.files S.opened S.reach shelf.old shelf.new stop }
{
    let size = (stop - at).min(WINDOW);
    let mut octets = [0u8; 256];
    let front = &mut octets[..size as usize];
    if !read_whole(shelf, file, at, front)? {
        return Ok(Sizes::Cut);
    }
    match lace.read(front, stop - at) {
        Some((lace, taken)) => Ok(Sizes::On {
            lace,
            at: at + taken as u64,
        }),
        None => Ok(Sizes::Bad),
    }
}

// Whether a lace is good whose sizes go on from `at` in a block that ends at `stop`, up to which
// the film reaches. `None` where it does not any more.
fn read_sizes<S: Shelf>(
    shelf: &mut S,
    file: FileNo,
    at: u64,
    stop: u64,
    lace: LaceReader,
) -> Result<Option<bool>, ReadFault>
    requires order { at ≤ stop }
    requires fits { FitsIn (stop - at) lace }
    ensures value { IfOk result (λ r. InFile S.files S.opened shelf.old file.0
        (λ octets. stop ≤ length octets → r ≡ Some (is_good lace (slice_range octets at stop)))) }
    ensures cause { HasCause (S.faults shelf.old) (S.faults shelf.new) result }
    ensures kept { OnlyReadsTo S.files S.opened S.reach shelf.old shelf.new stop }
{
    let mut next = lace;
    let mut place = at;
    while !next.is_done() {
        match read_window(shelf, file, place, stop, next)? {
            Sizes::Cut => return Ok(None),
            Sizes::Bad => return Ok(Some(false)),
            Sizes::On { lace: read, at: to } => {
                next = read;
                place = to;
            }
        }
    }
    Ok(Some(true))
}

// The first packet of a block whose lace is good or bad.
fn laced_mark(place: u64, lace: LacedBlock, good: bool) -> Result<Option<BlockMark>, Ending>
    ensures { result ≡ mark_or_damaged place (lace_mark lace good) }
{
    if !good {
        return Err(Ending::Damaged(place, Fault::BadLace));
    }
    match lace.mark() {
        Some(mark) => Ok(Some(mark)),
        None => Err(Ending::Damaged(place, Fault::TimeRange)),
    }
}

impl Cursor {
    /// The first packet of a block with that lace, up to whose end the film reaches, or how the
    /// film ends there. It reads the lace's sizes.
    pub(crate) fn read_laced<S: Shelf>(
        &self,
        shelf: &mut S,
        place: u64,
        span: Span,
        lace: LacedBlock,
    ) -> Result<Result<Option<BlockMark>, Ending>, ReadFault>
        requires { span.at + lace.head.at < span.stop }
        ensures value { IfOk result (λ r. InFile S.files S.opened shelf.old self.now.file.0
            (λ octets. (time : Option ℕ)
            → Glanced octets self.now place time span (Ok (glances.Laced lace))
            → r ≡ mark_taken (span_taken octets self.now place time span))) }
        ensures cause { HasCause (S.faults shelf.old) (S.faults shelf.new) result }
        ensures kept { OnlyReadsTo S.files S.opened S.reach shelf.old shelf.new span.stop }
    {
        let at = span.at + lace.head.at as u64 + 1;
        let Some(sizes) = lace.reader(span.stop - at) else {
            return Ok(laced_mark(place, lace, false));
        };
        match read_sizes(shelf, self.file, at, span.stop, sizes)? {
            Some(good) => Ok(laced_mark(place, lace, good)),
            None => Ok(Err(Ending::Cut(place))),
        }
    }
}
