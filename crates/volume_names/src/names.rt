//! The blocks of a directory are written for a name that came. No call takes memory.
ghost use Rattle.std.specs.Prelude.{◌≡◌, ◌≤◌, ◌<◌, ◌+◌, ◌/◌, ℕ, true, if◌then◌else◌, Some};
ghost use Rattle.minix_layout.specs.Geometry.{IsSound};
ghost use Rattle.minix_layout.specs.Widths.{slots_a_block, most_slots};
ghost use Rattle.tree_model.specs.Maps.{at_number};
ghost use Rattle.volume_model.specs.declared.placed.Placed.{Placed};
ghost use Rattle.volume_steps.specs.Now.{unchanged};
ghost use Rattle.volume_names.specs.code.Steps.{After, HasHole, MayWrite, block_added, name_written, file_written};

use crate::directories::NewSlot;
use crate::growth::add_block;
use crate::inodes::new_file_inode;
use crate::marks::mark_inode;
use crate::nodes::write_slot;
use minix_layout::{Slot, slots_a_block};
use volume_in_use::now::{Touched, VolumeNow};
use volume_model::editing::{put_inode, table_block};

/// Writes the slot that came into the directory with this birth, which gets a block where one begins.
pub fn write_name(v: &mut VolumeNow, n: u64, slot: &Slot, new: NewSlot, touched: &mut Touched)
    requires may { MayWrite v.old n slot.now new }
    requires room { 11 ≤ touched.old.spare }
    ensures done { After touched.old.touched (name_written v.old n slot.now new) v.new touched.new.touched }
    ensures spare { touched.old.spare ≤ touched.new.spare + 11 }
{
    begin_block(v, n, new, touched);
    write_slot(v, n, new.at, Some(slot), new.slots, touched);
}

// The directory gets a block, where one begins.
fn begin_block(v: &mut VolumeNow, n: u64, new: NewSlot, touched: &mut Touched)
    requires sound { IsSound v.old.geometry }
    requires numbers { (p : Placed) → at_number v.old.contents.nodes n ≡ Some p → 0 < p.number }
    requires place { new.at < most_slots v.old.geometry.width }
    requires hole { new.begins ≡ true → (p : Placed) → at_number v.old.contents.nodes n ≡ Some p → HasHole v.old p (new.at / slots_a_block v.old.geometry.width) }
    requires room { 8 ≤ touched.old.spare }
    ensures done { After touched.old.touched (if new.begins then block_added v.old n (new.at / slots_a_block v.old.geometry.width) else unchanged v.old) v.new touched.new.touched }
    ensures geometry { v.new.geometry ≡ v.old.geometry }
    ensures numbers { (p : Placed) → at_number v.new.contents.nodes n ≡ Some p → 0 < p.number }
    ensures spare { touched.old.spare ≤ touched.new.spare + 8 }
{
    if new.begins {
        add_block(
            v,
            n,
            (new.at / slots_a_block(v.geometry.width) as usize) as u32,
            touched,
        );
    }
}

/// Writes the inode of a new file.
pub fn write_file(v: &mut VolumeNow, n: u64, number: u16, touched: &mut Touched)
    requires number { 0 < number }
    requires room { 3 ≤ touched.old.spare }
    ensures done { After touched.old.touched (file_written v.old n number) v.new touched.new.touched }
    ensures spare { touched.old.spare ≤ touched.new.spare + 3 }
{
    mark_inode(&mut v.blocks, &v.geometry, true, number, touched);
    put_inode(&mut v.blocks, &v.geometry, number, &new_file_inode());
    touched.note_block(table_block(&v.geometry, number));
    touched.note_node(n);
}
