//! The slots of one directory.
ghost use Rattle.std.specs.Prelude.{◌≡◌, ◌^◌, ◌<◌, ◌≤◌, [], Ok, OnOk, IfOk, IfErr};
ghost use Rattle.std.specs.List.{All, range_with_len};
ghost use Rattle.byte_fields.specs.Fields.{record_at};
ghost use Rattle.minix_layout.specs.Slots.{IsEntry};
ghost use Rattle.minix_layout.specs.Widths.{IsWidth, slot_size, slots_a_block};
ghost use Rattle.tree_model.specs.Maps.{put_name};
ghost use Rattle.volume_ops.specs.code.Births.{AreBirths};
ghost use Rattle.volume_ops.specs.Places.{birth_of};
ghost use Rattle.volume_ops.specs.Reads.{answer};
ghost use Rattle.volume_ops.specs.Slots.{note_name, scan_entry, scan_slot, scan_places, scan_block, scan_slots};
ghost use Rattle.volume_ops.specs.Volume.{disk_of, IsTold};

use crate::Mapped;
use crate::disk::Disk;
use crate::marks::Marks;
use crate::places::{birth_of, inode_at, is_directory};
use crate::walk_fault::WalkFault;
use blk_base::Block;
use minix_layout::{Geometry, LayoutFault, Slot, read_slot, slots_a_block};
use std::alloc::Global;
use tree_model::{Names, is_dot};

/// Tests the slots of a directory that has so many, and notes its names. `named` has the directories that were
/// named so far.
pub fn scan_slots(
    alloc: Global,
    disk: &Disk,
    g: &Geometry,
    slots: u32,
    blocks: &[Mapped],
    named: &mut Marks,
) -> Result<Names, WalkFault>
    requires { IsWidth g.now.width }
    ensures ok { IfOk result (λ names. answer (disk_of disk.now) (scan_slots g.now slots blocks.now (record { named = named.old; names = [] })) ≡ Ok (record { named = named.new; names = names })) }
    ensures births { IfOk result (λ names. All (λ e. e.1 < 2 ^ 16) names) }
    ensures within { IfOk result (λ names. AreBirths g.now names) }
    ensures fault { IfErr result (IsTold (answer (disk_of disk.now) (scan_slots g.now slots blocks.now (record { named = named.old; names = [] })))) }
{
    let mut names = Names::new(alloc);
    for block in blocks {
        scan_block(disk, g, slots, *block, named, &mut names)?;
    }
    Ok(names)
}

// The slots in one block.
fn scan_block(
    disk: &Disk,
    g: &Geometry,
    slots: u32,
    block: Mapped,
    named: &mut Marks,
    names: &mut Names,
) -> Result<(), WalkFault>
    requires { IsWidth g.now.width }
    ensures ok { OnOk result (answer (disk_of disk.now) (scan_block g.now slots block (record { named = named.old; names = names.old })) ≡ Ok (record { named = named.new; names = names.new })) }
    ensures within { OnOk result (AreBirths g.now names.old → AreBirths g.now names.new) }
    ensures fault { IfErr result (IsTold (answer (disk_of disk.now) (scan_block g.now slots block (record { named = named.old; names = names.old })))) }
{
    let per = u64::from(slots_a_block(g.width));
    let before = per * u64::from(block.index);
    if before >= u64::from(slots) {
        return Ok(());
    }
    let count = (u64::from(slots) - before).min(per) as u8;
    let body = disk.body(u32::from(block.zone));
    scan_places(disk, g, block.zone, body, count, named, names)
}

// The first slots of a block of a directory.
fn scan_places(
    disk: &Disk,
    g: &Geometry,
    zone: u16,
    body: &Block,
    count: u8,
    named: &mut Marks,
    names: &mut Names,
) -> Result<(), WalkFault>
    requires width { IsWidth g.now.width }
    requires count { count ≤ slots_a_block g.now.width }
    ensures ok { OnOk result (answer (disk_of disk.now) (scan_places g.now zone body.now (range_with_len 0 count) (record { named = named.old; names = names.old })) ≡ Ok (record { named = named.new; names = names.new })) }
    ensures within { OnOk result (AreBirths g.now names.old → AreBirths g.now names.new) }
    ensures fault { IfErr result (IsTold (answer (disk_of disk.now) (scan_places g.now zone body.now (range_with_len 0 count) (record { named = named.old; names = names.old })))) }
{
    for at in 0..count {
        scan_slot(disk, g, zone, body, at, named, names)?;
    }
    Ok(())
}

// One slot. `.` and `..` are passed over.
#[tactic(auto)]
fn scan_slot(
    disk: &Disk,
    g: &Geometry,
    zone: u16,
    body: &Block,
    at: u8,
    named: &mut Marks,
    names: &mut Names,
) -> Result<(), WalkFault>
    requires width { IsWidth g.now.width }
    requires place { at < slots_a_block g.now.width }
    ensures ok { OnOk result (answer (disk_of disk.now) (scan_slot g.now zone (record_at (slot_size g.now.width) at body.now) (record { named = named.old; names = names.old })) ≡ Ok (record { named = named.new; names = names.new })) }
    ensures within { OnOk result (AreBirths g.now names.old → AreBirths g.now names.new) }
    ensures fault { IfErr result (IsTold (answer (disk_of disk.now) (scan_slot g.now zone (record_at (slot_size g.now.width) at body.now) (record { named = named.old; names = names.old })))) }
{
    match read_slot(body, at, g.width) {
        Err(fault) => Err(WalkFault::Layout(fault, u32::from(zone))),
        Ok(None) => Ok(()),
        Ok(Some(slot)) if is_dot(slot.name.as_slice()) => Ok(()),
        Ok(Some(slot)) => scan_entry(disk, g, zone, slot, named, names),
    }
}

// A slot in use, whose inode tells whether it names a directory.
fn scan_entry(
    disk: &Disk,
    g: &Geometry,
    zone: u16,
    slot: Slot,
    named: &mut Marks,
    names: &mut Names,
) -> Result<(), WalkFault>
    requires { IsEntry g.now.width slot }
    ensures ok { OnOk result (answer (disk_of disk.now) (scan_entry g.now zone slot (record { named = named.old; names = names.old })) ≡ Ok (record { named = named.new; names = names.new })) }
    ensures within { OnOk result (AreBirths g.now names.old → AreBirths g.now names.new) }
    ensures fault { IfErr result (IsTold (answer (disk_of disk.now) (scan_entry g.now zone slot (record { named = named.old; names = names.old })))) }
{
    if slot.inode > g.inodes || names.get(&slot.name).is_some() {
        return Err(WalkFault::Layout(LayoutFault::BadSlot, u32::from(zone)));
    }
    let inode = inode_at(disk, g, slot.inode);
    note_name(zone, slot, is_directory(inode.mode), named, names)
}

// Notes a name. A directory may have one only.
fn note_name(
    zone: u16,
    slot: Slot,
    directory: bool,
    named: &mut Marks,
    names: &mut Names,
) -> Result<(), WalkFault>
    ensures ok { OnOk result (note_name zone slot (record { named = named.old; names = names.old }) directory ≡ Ok (record { named = named.new; names = names.new })) }
    ensures put { OnOk result (names.new ≡ put_name names.old slot.name (birth_of slot.inode)) }
    ensures fault { IfErr result (IsTold (note_name zone slot (record { named = named.old; names = names.old }) directory)) }
{
    let inode = usize::from(slot.inode);
    if directory && named.is_marked(inode) {
        return Err(WalkFault::Layout(LayoutFault::BadSlot, u32::from(zone)));
    }
    if directory {
        named.mark(inode);
    }
    names.put(slot.name, birth_of(slot.inode))?;
    Ok(())
}
