//! The header of each block of the journal that is no body: magic number, type and sequence, four bytes each.
ghost use Rattle.std.specs.Prelude.{◌≡◌};
ghost use Rattle.journal_blocks.specs.Header.{sequence_of};

use blk_base::Block;
use byte_fields::u32_at_be;

pub(crate) const MAGIC: u32 = 0xC03B_3998;

pub(crate) const DESCRIPTOR: u32 = 1;

pub(crate) const COMMIT: u32 = 2;

pub(crate) const FIRST_SUPERBLOCK: u32 = 3;

pub(crate) const SUPERBLOCK: u32 = 4;

pub(crate) const REVOKE: u32 = 5;

/// The sequence that stands in the header of a block.
pub fn sequence_in(b: &Block) -> u32
    ensures { result ≡ sequence_of b.now }
{
    u32_at_be(b.as_slice(), 8)
}
