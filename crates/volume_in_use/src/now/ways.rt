//! The zones on the way to a block of a file or of a directory.
ghost use Rattle.std.specs.Prelude.{◌≡◌, ◌-◌, ◌/◌, ◌<◌, ◌≤◌};
ghost use Rattle.volume_model.specs.Volume.{block, inner, zone_in};
ghost use Rattle.volume_model.specs.MapBlock.{own_of};
ghost use Rattle.volume_steps.specs.Zones.{lacks_outer, lacks_second};

use blk_base::Image;
use minix_layout::Inode;
use volume_model::editing::zone_entry;

/// The zone of block `index`, 0 for a hole; from block 262,663 on there is none.
#[tactic(auto, unfolding(minix_tables::specs::inodes::Map::zone_at))]
pub fn block_zone(blocks: &Image, inode: &Inode, index: u32) -> u16
    ensures { result ≡ zone_in blocks.now inode.now (block index) }
{
    if index < 7 {
        return inode.zones.zone(index as usize);
    }
    if index < 519 {
        return zone_entry(blocks, inode.zones.zone(7), (index - 7) as u16);
    }
    if index < 262663 {
        let pointer_block = inner_zone(blocks, inode, index);
        return zone_entry(blocks, pointer_block, ((index - 519) % 512) as u16);
    }
    0
}

// The zone of numbers below the doubly indirect one, on the way to a block.
fn inner_zone(blocks: &Image, inode: &Inode, index: u32) -> u16
    requires low { 519 ≤ index }
    requires high { index < 262663 }
    ensures { result ≡ zone_in blocks.now inode.now (inner ((index - 519) / 512)) }
{
    zone_entry(blocks, inode.zones.zone(8), ((index - 519) / 512) as u16)
}

// The inode has no zone of numbers on the way to a block.
pub fn lacks_outer(blocks: &Image, inode: &Inode, index: u32) -> bool
    ensures { result ≡ lacks_outer (own_of (record { blocks = blocks.now; inode = inode.now })) index }
{
    if index < 7 {
        false
    } else if index < 519 {
        inode.zones.zone(7) == 0
    } else {
        inode.zones.zone(8) == 0
    }
}

// The second zone of numbers is not there on the way to a block.
pub fn lacks_second(blocks: &Image, inode: &Inode, index: u32) -> bool
    requires { index < 262663 }
    ensures { result ≡ lacks_second (own_of (record { blocks = blocks.now; inode = inode.now })) index }
{
    if index < 519 {
        false
    } else {
        inner_zone(blocks, inode, index) == 0
    }
}
