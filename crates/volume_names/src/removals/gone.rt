//! What goes with a node. It is listed before the first write, since that takes memory.
ghost use Rattle.std.specs.Prelude.{◌≡◌, ℕ, length, map, IfOk, Some};
ghost use Rattle.std.specs.List.{range_with_len};
ghost use Rattle.tree_model.specs.Maps.{at_number};
ghost use Rattle.volume_model.specs.editing.Zones.{numbers_cut};
ghost use Rattle.volume_model.specs.Volume.{block, zone_in};
ghost use Rattle.volume_model.specs.declared.placed.Placed.{Placed};
ghost use Rattle.volume_steps.specs.Steps.{metadata_gone};
ghost use Rattle.volume_names.specs.removals.code.Dropping.{no_place, blocks_in, HasFewSlots};

use blk_base::{Image, NoMemory};
use minix_layout::{Inode, slots_a_block};
use std::alloc::Global;
use volume_in_use::now::{VolumeNow, block_zone};
use volume_model::Part;
use volume_model::editing::{CutZones, zones_cut};
use volume_ops::Mapped;

/// The zones that go with a node and are metadata: those of numbers, and before them those of a directory's slots.
pub fn metadata_of(alloc: Global, v: &VolumeNow, birth: u64) -> Result<Vec<u16>, NoMemory>
    requires { HasFewSlots v.now birth }
    ensures { IfOk result (λ zones. (p : Placed) → at_number v.now.contents.nodes birth ≡ Some p →
        zones.items ≡ metadata_gone v.now.contents p p.part) }
{
    let Some(node) = v.nodes.get(&birth) else {
        return Ok(Vec::new(alloc));
    };
    let numbers = numbers_of(alloc, &v.blocks, &node.inode)?;
    match &node.part {
        Part::File(_) => Ok(numbers),
        Part::Directory(directory) => {
            let per = slots_a_block(directory.width) as usize;
            let count = directory.slots.len().div_ceil(per) as u32;
            let mut zones = slot_zones(alloc, &v.blocks, &node.inode, count)?;
            zones.extend_from_slice(&numbers)?;
            Ok(zones)
        }
    }
}

// The zones of numbers of an inode.
fn numbers_of(alloc: Global, blocks: &Image, inode: &Inode) -> Result<Vec<u16>, NoMemory>
    ensures { IfOk result (λ zones. zones.items ≡ numbers_cut blocks.now inode.now no_place) }
{
    let CutZones { numbers, .. } = zones_cut(alloc, blocks, inode, &[], 0)?;
    Ok(numbers)
}

// The zones of the first blocks of a directory.
fn slot_zones(
    alloc: Global,
    blocks: &Image,
    inode: &Inode,
    count: u32,
) -> Result<Vec<u16>, NoMemory>
    ensures { IfOk result (λ zones. zones.items ≡ map (λ index. zone_in blocks.now inode.now (block index)) (range_with_len 0 count)) }
{
    let mut zones = Vec::new(alloc);
    for index in 0..count {
        zones.push(block_zone(blocks, inode, index))?;
    }
    Ok(zones)
}

/// The mapped blocks of a file; a directory has none.
pub fn blocks_in(part: &Part) -> &[Mapped]
    ensures { result.now ≡ blocks_in part.now }
{
    match part {
        Part::File(zones) => zones.as_slice(),
        Part::Directory(_) => &[],
    }
}

/// The mapped blocks of the node with this birth.
pub fn blocks_of(v: &VolumeNow, birth: u64) -> &[Mapped]
    ensures { (p : Placed) → at_number v.now.contents.nodes birth ≡ Some p → result.now ≡ blocks_in p.part }
{
    match v.nodes.get(&birth) {
        Some(node) => blocks_in(&node.part),
        None => &[],
    }
}
