//! A name goes out of its directory, with its slot. No call takes memory.
ghost use Rattle.std.specs.Prelude.{◌≡◌, ◌≤◌, ◌+◌, IfSome, IsNone, None, Some};
ghost use Rattle.minix_tables.specs.directories.Slots.{place_of};
ghost use Rattle.volume_steps.specs.Steps.{take_name};
ghost use Rattle.volume_names.specs.code.Steps.{After};
ghost use Rattle.volume_names.specs.removals.code.Naming.{HasSlot, without_slot};

use minix_layout::{Name, slots_a_block};
use volume_in_use::now::{Touched, VolumeNow, block_zone};
use volume_model::editing::put_slot;
use volume_model::{DirectoryPart, Part};

/// Takes a name out of the directory with this birth, which keeps its size and so its inode.
pub fn take_name(v: &mut VolumeNow, n: u64, name: &Name, touched: &mut Touched)
    requires may { HasSlot v.old n name.now }
    requires room { 2 ≤ touched.old.spare }
    ensures done { After touched.old.touched (take_name v.old n name.now) v.new touched.new.touched }
    ensures spare { touched.new.spare + 2 ≡ touched.old.spare }
{
    let Some(placed) = v.nodes.get_mut(&n) else {
        unreachable!();
    };
    let Part::Directory(directory) = &mut placed.part else {
        unreachable!();
    };
    let Some(at) = remove_name(directory, name) else {
        unreachable!();
    };
    let per = slots_a_block(v.geometry.width) as usize;
    let zone = block_zone(&v.blocks, &placed.inode, (at / per) as u32);
    put_slot(&mut v.blocks, &v.geometry, zone, (at % per) as u8, None);
    touched.note_block(zone.into());
    touched.note_node(n);
}

// A name goes, and the slot at the place that is told is free. The directory keeps its length.
fn remove_name(directory: &mut DirectoryPart, name: &Name) -> Option<usize>
    ensures some { IfSome result (λ at. (place_of directory.old.slots name.now ≡ Some at) × (directory.new ≡ without_slot directory.old at name.now)) }
    ensures none { IsNone result → place_of directory.old.slots name.now ≡ None }
{
    let at = directory.slots.find(name)?;
    let _ = directory.slots.remove(name);
    directory.names.remove(name);
    Some(at)
}
