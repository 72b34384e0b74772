//! A slot that is in use leads to another inode. No call takes memory.
ghost use Rattle.std.specs.Prelude.{◌≡◌, ◌≤◌, ◌+◌, ℕ, codes, length, IfSome, IsNone, None, Some};
ghost use Rattle.minix_tables.specs.directories.Slots.{place_of};
ghost use Rattle.tree_model.specs.Maps.{at_number};
ghost use Rattle.volume_model.specs.declared.placed.Placed.{Placed};
ghost use Rattle.volume_steps.specs.Steps.{set_parent};
ghost use Rattle.volume_names.specs.code.Steps.{After};
ghost use Rattle.volume_names.specs.removals.code.Naming.{HasSlot};
ghost use Rattle.volume_names.specs.renames.code.Parts.{MayTurn, led_at, node_put, slot_led, turned};
ghost use Rattle.volume_model.specs.declared.placed.Part.TheVariants as parts;
ghost use Rattle.volume_model.specs.declared.placed.DirectoryPart.{DirectoryPart};

use minix_layout::{Slot, slots_a_block};
use std::collections::BTreeMap;
use volume_in_use::now::{Touched, VolumeNow, block_zone, dots};
use volume_model::editing::put_slot;
use volume_model::{DirectoryPart, Part, Placed};

/// The slot of this name, in the directory with this birth, leads to this inode. The directory keeps its size.
pub fn lead_slot(v: &mut VolumeNow, n: u64, slot: &Slot, touched: &mut Touched)
    requires may { HasSlot v.old n slot.now.name }
    requires short { length slot.now.name ≤ v.old.geometry.width }
    requires room { 2 ≤ touched.old.spare }
    ensures done { After touched.old.touched (slot_led v.old n slot.now) v.new touched.new.touched }
    ensures spare { touched.new.spare + 2 ≡ touched.old.spare }
{
    let Some(placed) = v.nodes.get_mut(&n) else {
        unreachable!();
    };
    let Part::Directory(directory) = &mut placed.part else {
        unreachable!();
    };
    let Some(at) = lead_in(directory, slot) else {
        unreachable!();
    };
    let per = slots_a_block(v.geometry.width) as usize;
    let zone = block_zone(&v.blocks, &placed.inode, (at / per) as u32);
    put_slot(
        &mut v.blocks,
        &v.geometry,
        zone,
        (at % per) as u8,
        Some(slot),
    );
    touched.note_block(zone.into());
    touched.note_node(n);
}

// The slot of a name leads to another inode, in memory. Its place is told.
fn lead_in(directory: &mut DirectoryPart, slot: &Slot) -> Option<usize>
    ensures some { IfSome result (λ at. (place_of directory.old.slots slot.now.name ≡ Some at) × (directory.new ≡ led_at directory.old at slot.now.inode)) }
    ensures none { IsNone result → place_of directory.old.slots slot.now.name ≡ None }
{
    let at = directory.slots.find(&slot.name)?;
    directory.slots.lead(at, slot.inode);
    Some(at)
}

/// The directory with this birth stands below the one with birth `parent` and inode `above`, and its `..` says so.
pub fn set_parent(v: &mut VolumeNow, n: u64, parent: u64, above: u16, touched: &mut Touched)
    requires may { MayTurn v.old n parent above }
    requires room { 2 ≤ touched.old.spare }
    ensures done { After touched.old.touched (set_parent v.old n parent) v.new touched.new.touched }
    ensures spare { touched.new.spare + 2 ≡ touched.old.spare }
{
    turn(&mut v.nodes, n, parent);
    lead_slot(v, n, &dots(above), touched);
}

// The directory has another parent, in memory alone.
fn turn(nodes: &mut BTreeMap<u64, Placed>, n: u64, parent: u64)
    ensures { (p : Placed) (d : DirectoryPart) → at_number nodes.old.entries n ≡ Some p → p.part ≡ parts.Directory d →
        nodes.new.entries ≡ node_put nodes.old.entries n p (parts.Directory (turned d parent)) }
{
    let Some(placed) = nodes.get_mut(&n) else {
        return;
    };
    if let Part::Directory(directory) = &mut placed.part {
        directory.parent = parent;
    }
}
