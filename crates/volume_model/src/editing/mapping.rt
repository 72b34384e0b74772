//! Maps a block of a file or of a directory. No call takes memory.
ghost use Rattle.std.specs.Prelude.{◌≡◌, ◌<◌};
ghost use Rattle.volume_model.specs.MapBlock.{map_block};
ghost use Rattle.volume_model.specs.editing.code.Mapping.{slot_step, entry_step};

use crate::editing::bodies::zone_entry;
use crate::editing::edits::{put_body, put_entry};
use blk_base::{Block, Image};
use minix_layout::{Geometry, Inode};

/// The zones that were taken for a block: its own, the zone of numbers that the inode names on the way to it, and the
/// one below that. Only those are used that `holes` tells.
#[derive(Clone, Copy, Debug, PartialEq, Eq)]
pub struct TakenZones {
    pub data_zone: u16,
    pub outer: u16,
    pub second: u16,
}

/// Maps block `index` with this first content, and the zones of numbers on the way to it, where they are holes. What is
/// mapped stays; from block 262,663 on there is none.
pub fn map_block(
    blocks: &mut Image,
    g: &Geometry,
    inode: &mut Inode,
    index: u32,
    taken: &TakenZones,
    content: &Block,
)
    ensures { record { blocks = blocks.new; inode = inode.new } ≡
        map_block g.now (record { data_zone = taken.now.data_zone; outer = taken.now.outer; second = taken.now.second })
        content.now (record { blocks = blocks.old; inode = inode.old }) index }
{
    if index < 7 {
        fill_slot(blocks, g, inode, index as usize, taken.data_zone, content);
        return;
    }
    let none = Block::fill(0);
    if index < 519 {
        fill_slot(blocks, g, inode, 7, taken.outer, &none);
        fill_entry(
            blocks,
            g,
            inode,
            inode.zones.zone(7),
            (index - 7) as u16,
            taken.data_zone,
            content,
        );
        return;
    }
    if index < 262663 {
        let (j, k) = (((index - 519) / 512) as u16, ((index - 519) % 512) as u16);
        fill_slot(blocks, g, inode, 8, taken.outer, &none);
        fill_entry(
            blocks,
            g,
            inode,
            inode.zones.zone(8),
            j,
            taken.second,
            &none,
        );
        let pointer_block = zone_entry(blocks, inode.zones.zone(8), j);
        fill_entry(blocks, g, inode, pointer_block, k, taken.data_zone, content);
    }
}

// Fills one of the nine places of an inode, where it is a hole.
#[tactic(auto, unfolding(crate::specs::editing::code::Mapping::slot_step))]
fn fill_slot(blocks: &mut Image, g: &Geometry, inode: &mut Inode, k: usize, zone: u16, body: &Block)
    requires { k < 9 }
    ensures { record { blocks = blocks.new; inode = inode.new } ≡
        slot_step g.now (record { blocks = blocks.old; inode = inode.old }) k zone body.now }
{
    if inode.zones.zone(k) == 0 {
        put_body(blocks, g, zone, body);
        inode.zones.set(k, zone);
    }
}

// Fills an entry of a zone of numbers, where it is a hole.
#[tactic(auto, unfolding(crate::specs::editing::code::Mapping::entry_step))]
fn fill_entry(
    blocks: &mut Image,
    g: &Geometry,
    inode: &Inode,
    pointer_block: u16,
    at: u16,
    zone: u16,
    body: &Block,
)
    requires { at < 512 }
    ensures { record { blocks = blocks.new; inode = inode.now } ≡
        entry_step g.now (record { blocks = blocks.old; inode = inode.now }) pointer_block at zone body.now }
{
    if zone_entry(blocks, pointer_block, at) == 0 {
        put_body(blocks, g, zone, body);
        put_entry(blocks, g, pointer_block, at, zone);
    }
}
