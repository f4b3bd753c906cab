//! Laws about blocks, for a crate that writes a film and proves how it is read.
ghost use Rattle.mc_block.specs.Block.{NumbersAreSmall, PacketsAreOfBlocks};
ghost use Rattle.mc_block.specs.Written.{PlainBlocksReadBack};

use mc_ebml::written_parts;

/// The body of an unlaced SimpleBlock is read back as its one packet, at each place where its time
/// is in range.
pub fn plain_blocks()
    ensures { PlainBlocksReadBack }
{
    written_parts()
}

/// The packets of any block, whatever its octets are, have its track and place in common, and room
/// to be written as blocks again.
pub fn packets_of_blocks()
    ensures packets { PacketsAreOfBlocks }
    ensures numbers { NumbersAreSmall }
{}
