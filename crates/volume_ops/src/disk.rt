//! The blocks of a volume in memory.
ghost use Rattle.std.specs.Prelude.{◌≡◌};
ghost use Rattle.volume_ops.specs.Places.{zone_number};
ghost use Rattle.volume_ops.specs.Volume.{disk_of};

use blk_base::{Block, Image};
use byte_fields::u16_at_le;
use minix_tables::inodes::ZoneBlocks;
use std::marker::Model;

/// The blocks of a volume. Behind them stand zeros.
#[derive(Drop)]
pub struct Disk {
    blocks: Image,
    zeros: Block,
}

impl Model for Disk {
    ghost use Rattle.std.specs.Prelude.{◌≡◌, List, ℕ};
    ghost use Rattle.blk_base.specs.Block.{filled};

    ghost Value = { List (List ℕ) };

    ghost view = { λ d. d.blocks };

    ghost invariant = { λ d. d.zeros ≡ filled 0 };
}

impl Disk {
    pub fn new(blocks: Image) -> Disk
        ensures { result ≡ blocks }
    {
        Disk {
            blocks,
            zeros: Block::fill(0),
        }
    }

    /// The blocks alone.
    pub fn into_blocks(self) -> Image
        ensures { result ≡ self }
    {
        self.blocks
    }

    /// The bytes of a block, zeros where the volume ends before it.
    pub fn body(&self, block: u32) -> &Block
        ensures { result.now ≡ disk_of self.now block }
    {
        if block < self.blocks.len() {
            self.blocks.block(block)
        } else {
            &self.zeros
        }
    }
}

impl ZoneBlocks for Disk {
    ghost entries = { λ s zone at. zone_number (disk_of s zone) at };

    fn entry(&self, zone: u16, at: u16) -> u16 {
        let bytes = self.body(zone.into()).as_slice();
        u16_at_le(bytes, 2 * usize::from(at))
    }
}
