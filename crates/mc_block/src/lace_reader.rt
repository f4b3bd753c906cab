ghost use Rattle.std.specs.Prelude.{◌≡◌, ◌+◌, ◌^◌, ◌<◌, ◌≤◌, ℕ, List, length, take, min, true, IfSome, Some, None, unwrap_or, if◌then◌else◌, nat_le, ◌==◌, ◌-◌};
ghost use Rattle.mc_block.specs.Frames.{is_laced};
ghost use Rattle.mc_block.specs.Fronts.{is_good, ReadsByOctets, FitsIn, ReadsOn, Begins};

use crate::lace::{Lacing, lacing_of};
use crate::sizes::next_size;

/// The sizes of a lace as far as they are read (RFC 9559, section 10.3), for a reader that has but
/// some of a block's octets at a time. It begins behind the lace's count octet.
#[derive(Clone, Copy, Debug, PartialEq, Eq)]
pub struct LaceReader {
    /// Set once, by the block's flags.
    pub(crate) lacing: Lacing,
    /// How many sizes are still to be read; each size that is read lessens it.
    pub(crate) wanted: u8,
    /// The size that was read last in an EBML lace, `None` before the first and in other laces.
    pub(crate) before: Option<u128>,
    /// How many octets the frames have whose sizes are read, and those of a Xiph lace's size that
    /// has begun.
    pub(crate) claimed: u128,
}

// How many octets of a coded number may be read at once.
const LONGEST: usize = 8;

impl LaceReader {
    /// Begins with a block of these flags, whose lace has that count octet, behind which `left`
    /// octets stand up to the block's end. `None` exactly where this alone tells `BadLace`: frames
    /// of one size do not fill what is left.
    pub fn new(flags: u8, count: u8, left: u64) -> Option<LaceReader>
        ensures law { (octets : List ℕ) → length octets ≡ left → is_laced flags ≡ true
            → Begins flags count octets result }
        ensures fits { IfSome result (FitsIn left) }
    {
        match lacing_of(flags) {
            Lacing::Fixed if left % (count as u64 + 1) != 0 => None,
            Lacing::Fixed => Some(LaceReader::wanting(Lacing::Fixed, 0)),
            lacing => Some(LaceReader::wanting(lacing, count)),
        }
    }

    // Before any size.
    fn wanting(lacing: Lacing, wanted: u8) -> LaceReader
        ensures { result
            ≡ record { lacing = lacing; wanted = wanted; before = None; claimed = 0 } }
    {
        LaceReader {
            lacing,
            wanted,
            before: None,
            claimed: 0,
        }
    }

    /// Whether all sizes are read. The lace is good then.
    pub fn is_done(&self) -> bool
        ensures value { result ≡ (self.now.wanted == 0) }
        ensures law { (octets : List ℕ) → result ≡ true → FitsIn (length octets) self.now
            → is_good self.now octets ≡ true }
    {
        self.wanted == 0
    }

    // The same with so many octets more for frames, where these fit into what is left.
    fn claim(self, size: u128, left: u64) -> Option<LaceReader>
        requires small { size < 2 ^ 100 }
        requires claimed { self.claimed < 2 ^ 64 }
        ensures value { result ≡ (if nat_le (self.claimed + size) left
            then Some (record self { claimed = self.claimed + size }) else None) }
    {
        let claimed = self.claimed + size;
        if claimed <= left as u128 {
            Some(LaceReader { claimed, ..self })
        } else {
            None
        }
    }

    // One octet of a Xiph lace: a size ends with the first below 255.
    fn read_octet(self, front: &[u8], left: u64) -> Option<(LaceReader, usize)>
        requires wanted { 0 < self.wanted }
        requires fits { FitsIn left self }
        requires front { (length front.now ≤ left) × (min 8 left ≤ length front.now) }
        requires lacing { ReadsByOctets self.lacing }
        ensures law { (octets : List ℕ) → length octets ≡ left
            → front.now ≡ take (length front.now) octets → ReadsOn self octets result }
        ensures fits { IfSome result (λ x. FitsIn (left - x.1) x.0) }
        ensures onward { IfSome result (λ x. (0 < x.1) × (x.1 ≤ length front.now)) }
    {
        let octet = *front.first()?;
        let lace = self.claim(octet as u128, left - 1)?;
        let wanted = if octet < 255 {
            self.wanted - 1
        } else {
            self.wanted
        };
        Some((LaceReader { wanted, ..lace }, 1))
    }

    // One number of an EBML lace.
    fn read_number(self, front: &[u8], left: u64) -> Option<(LaceReader, usize)>
        requires wanted { 0 < self.wanted }
        requires fits { FitsIn left self }
        requires front { (length front.now ≤ left) × (min 8 left ≤ length front.now) }
        requires lacing { self.lacing ≡ Lacing.Ebml }
        ensures law { (octets : List ℕ) → length octets ≡ left
            → front.now ≡ take (length front.now) octets → ReadsOn self octets result }
        ensures fits { IfSome result (λ x. FitsIn (left - x.1) x.0) }
        ensures onward { IfSome result (λ x. (0 < x.1) × (x.1 ≤ length front.now)) }
    {
        let (size, taken) = next_size(self.lacing, self.before, front)?;
        let lace = self.claim(size, left - taken as u64)?;
        let read = LaceReader {
            wanted: self.wanted - 1,
            before: Some(size),
            ..lace
        };
        Some((read, taken))
    }

    // The least that can be read on its own.
    fn read_one(self, front: &[u8], left: u64) -> Option<(LaceReader, usize)>
        requires wanted { 0 < self.wanted }
        requires fits { FitsIn left self }
        requires front { (length front.now ≤ left) × (min 8 left ≤ length front.now) }
        ensures law { (octets : List ℕ) → length octets ≡ left
            → front.now ≡ take (length front.now) octets → ReadsOn self octets result }
        ensures fits { IfSome result (λ x. FitsIn (left - x.1) x.0) }
        ensures onward { IfSome result (λ x. (0 < x.1) × (x.1 ≤ length front.now)) }
    {
        match self.lacing {
            Lacing::Ebml => self.read_number(front, left),
            Lacing::Single | Lacing::Xiph | Lacing::Fixed => self.read_octet(front, left),
        }
    }

    /// Reads on in the next octets of the block, behind which it may go on: `left` octets stand
    /// from their first up to the block's end. Answers the reader behind what it took of them, and
    /// how many it took: as many as hold sizes, or all but fewer than 8, which it wants to see
    /// again with those that follow.
    ///
    /// `None` exactly where the lace is bad: a size does not stand whole or is none, or the sizes
    /// exceed what is left for the frames.
    pub fn read(self, front: &[u8], left: u64) -> Option<(LaceReader, usize)>
        requires fits { FitsIn left self }
        requires front { length front.now ≤ left }
        ensures law { (octets : List ℕ) → length octets ≡ left
            → front.now ≡ take (length front.now) octets → ReadsOn self octets result }
        ensures fits { IfSome result (λ x. FitsIn (left - x.1) x.0) }
        ensures within { IfSome result (λ x. x.1 ≤ length front.now) }
        ensures onward { 0 < self.wanted → min 8 left ≤ length front.now
            → IfSome result (λ x. 0 < x.1) }
    {
        let mut lace = self;
        let mut at = 0;
        while lace.wanted > 0 {
            let (_, rest) = front.split_at(at);
            let behind = left - at as u64;
            if rest.len() < LONGEST && (rest.len() as u64) < behind {
                break;
            }
            let (next, taken) = lace.read_one(rest, behind)?;
            lace = next;
            at += taken;
        }
        Some((lace, at))
    }
}
