//! A directory gets a block. No call takes memory.
ghost use Rattle.std.specs.Prelude.{◌≡◌, ◌≤◌, ◌<◌, ◌+◌, ℕ, Some};
ghost use Rattle.minix_layout.specs.Geometry.{IsSound};
ghost use Rattle.tree_model.specs.Maps.{at_number};
ghost use Rattle.volume_model.specs.declared.placed.Placed.{Placed};
ghost use Rattle.volume_model.specs.Touched.{and_then};
ghost use Rattle.volume_steps.specs.Now.{tells_blocks};
ghost use Rattle.volume_names.specs.code.Steps.{After, block_added, HasHole, blocks_mapped};

use blk_base::Block;
use minix_layout::Inode;
use volume_in_use::now::{Touched, VolumeNow, copy_inode, take_zones, write_inode};
use volume_model::editing::{TakenZones, map_block};

/// Maps block `index` of a directory, which has none, and fills it with free slots.
pub fn add_block(v: &mut VolumeNow, n: u64, index: u32, touched: &mut Touched)
    requires sound { IsSound v.old.geometry }
    requires numbers { (p : Placed) → at_number v.old.contents.nodes n ≡ Some p → 0 < p.number }
    requires hole { (p : Placed) → at_number v.old.contents.nodes n ≡ Some p → HasHole v.old p index }
    requires few { index < 519 }
    requires room { 8 ≤ touched.old.spare }
    ensures done { After touched.old.touched (block_added v.old n index) v.new touched.new.touched }
    ensures spare { touched.old.spare ≤ touched.new.spare + 8 }
{
    let Some(placed) = v.nodes.get_mut(&n) else {
        return;
    };
    let taken = take_zones(
        &mut v.zones,
        &mut v.blocks,
        &v.geometry,
        &placed.inode,
        index,
        touched,
    );
    note_mapped(&placed.inode, index, &taken, touched);
    let before = copy_inode(&placed.inode);
    map_block(
        &mut v.blocks,
        &v.geometry,
        &mut placed.inode,
        index,
        &taken,
        &Block::fill(0),
    );
    write_inode(
        &mut v.blocks,
        &v.geometry,
        placed.number,
        &before,
        &placed.inode,
        touched,
    );
    touched.note_node(n);
}

// Notes the blocks that are written where a block of a directory is mapped.
fn note_mapped(inode: &Inode, index: u32, taken: &TakenZones, touched: &mut Touched)
    requires { 3 ≤ touched.old.spare }
    ensures blocks { touched.new.touched ≡ and_then touched.old.touched (tells_blocks (blocks_mapped inode.now index
        (record { data_zone = taken.now.data_zone; outer = taken.now.outer; second = taken.now.second }))) }
    ensures spare { touched.old.spare ≤ touched.new.spare + 3 }
{
    if index < 7 {
        touched.note_block(taken.data_zone.into());
        return;
    }
    let pointer_block = inode.zones.zone(7);
    if pointer_block == 0 {
        touched.note_block(taken.outer.into());
        touched.note_block(taken.data_zone.into());
        touched.note_block(taken.outer.into());
    } else {
        touched.note_block(taken.data_zone.into());
        touched.note_block(pointer_block.into());
    }
}
