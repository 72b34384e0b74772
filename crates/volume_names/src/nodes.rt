//! Steps that change one node in place, with its blocks. None takes memory, and where there is no such node, none does
//! anything.
ghost use Rattle.minix_layout.specs.Widths.{IsWidth, most_slots};
ghost use Rattle.std.specs.Prelude.{◌≡◌, ◌≤◌, ◌<◌, ◌+◌, ◌*◌, ◌^◌, ℕ, length, Some, IfSome};
ghost use Rattle.std.specs.Option.{option_copied};
ghost use Rattle.tree_model.specs.Maps.{at_number};
ghost use Rattle.volume_model.specs.declared.placed.Placed.{Placed};
ghost use Rattle.volume_names.specs.code.Steps.{After, slot_written, more_links};

use minix_layout::{Slot, slot_size, slots_a_block};
use std::collections::BTreeMap;
use volume_in_use::now::{Touched, VolumeNow, block_zone, copy_inode, write_inode};
use volume_model::Placed;
use volume_model::editing::put_slot;

/// Writes slot `at` of a directory, which has so many slots then.
pub fn write_slot(
    v: &mut VolumeNow,
    n: u64,
    at: usize,
    slot: Option<&Slot>,
    slots: usize,
    touched: &mut Touched,
)
    requires numbers { (p : Placed) → at_number v.old.contents.nodes n ≡ Some p → 0 < p.number }
    requires width { IsWidth v.old.geometry.width }
    requires short { IfSome (option_copied slot) (λ e. length e.name ≤ v.old.geometry.width) }
    requires place { at < most_slots v.old.geometry.width }
    requires few { slots ≤ most_slots v.old.geometry.width }
    requires room { 3 ≤ touched.old.spare }
    ensures done { After touched.old.touched (slot_written v.old n at (option_copied slot.entry) slots) v.new touched.new.touched }
    ensures spare { touched.old.spare ≤ touched.new.spare + 3 }
{
    let Some(placed) = v.nodes.get_mut(&n) else {
        return;
    };
    let before = copy_inode(&placed.inode);
    let per = slots_a_block(v.geometry.width) as usize;
    let zone = block_zone(&v.blocks, &placed.inode, (at / per) as u32);
    put_slot(&mut v.blocks, &v.geometry, zone, (at % per) as u8, slot);
    touched.note_block(zone.into());
    placed.inode.size = slot_size(v.geometry.width) * slots as u32;
    write_inode(
        &mut v.blocks,
        &v.geometry,
        placed.number,
        &before,
        &placed.inode,
        touched,
    );
    touched.note_node(n);
}

/// Gives a node one link more.
pub fn add_link(v: &mut VolumeNow, n: u64, touched: &mut Touched)
    requires numbers { (p : Placed) → at_number v.old.contents.nodes n ≡ Some p → 0 < p.number }
    requires links { (p : Placed) → at_number v.old.contents.nodes n ≡ Some p → p.inode.links < 255 }
    requires room { 1 ≤ touched.old.spare }
    ensures done { After touched.old.touched (more_links v.old n) v.new touched.new.touched }
    ensures spare { touched.old.spare ≤ touched.new.spare + 1 }
{
    let Some(placed) = v.nodes.get_mut(&n) else {
        return;
    };
    let before = copy_inode(&placed.inode);
    placed.inode.links += 1;
    write_inode(
        &mut v.blocks,
        &v.geometry,
        placed.number,
        &before,
        &placed.inode,
        touched,
    );
}

/// The inode of a node; 0 where there is no such node.
pub fn number_of(nodes: &BTreeMap<u64, Placed>, n: u64) -> u16
    ensures { (p : Placed) → at_number nodes.now.entries n ≡ Some p → result ≡ p.number }
{
    match nodes.get(&n) {
        Some(placed) => placed.number,
        None => 0,
    }
}
