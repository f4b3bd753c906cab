ghost use Rattle.std.specs.Prelude.{◌≡◌};
ghost use Rattle.mc_block.specs.declared.error.BlockError.TheVariants.{NoMemory};

use std::alloc::AllocError;

/// Why a block gives no packets, in the order in which the faults are looked for.
#[derive(Clone, Copy, Debug, PartialEq, Eq)]
pub enum BlockError {
    /// Its element's body has more than 67,108,864 octets.
    TooLarge,
    /// A child of a BlockGroup has no whole head or no size, or runs past the group's end.
    BadGroup,
    /// Its track number, time or flags do not stand whole, or the track number begins with octet 0.
    ShortBlock,
    /// Its lace cannot be taken apart.
    BadLace,
    /// A frame's time lies outside plus or minus 2^62 nanoseconds.
    TimeRange,
    /// Memory was wanting.
    NoMemory,
}

impl From<AllocError> for BlockError {
    ghost from_gives = { λ _ e. e ≡ NoMemory };

    fn from(_e: AllocError) -> BlockError {
        BlockError::NoMemory
    }
}
