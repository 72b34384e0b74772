//! The dots of the directories.
ghost use Rattle.std.specs.Prelude.{◌≡◌, ℕ, ◌+◌, ◌<◌, ◌≤◌, ◌↔◌, true, Some, Ok};
ghost use Rattle.minix_layout.specs.Widths.{slots_a_block};
ghost use Rattle.volume_ops.specs.VolumeFields.{inode_at, slot_behind};
ghost use Rattle.vol_check.specs.Clean.{HasDots, dots_block};
ghost use Rattle.vol_check.specs.CleanTrees.{LeadBack};
ghost use Rattle.vol_check.specs.Verdicts.{IsFound};
ghost use Rattle.vol_check.specs.code.Births.{AreBirths};

use crate::births::Births;
use crate::places::{birth_of, table_block};
use minix_layout::{Inode, LayoutFault, Slot, read_slot, slot_size};
use minix_tables::inodes::zone_of;
use volume_ops::{Volume, inode_at, inode_of_birth};

/// The first directory whose dots are wrong.
pub fn wrong_dots(volume: &Volume, births: &Births) -> Option<u16>
    requires { AreBirths volume.now.geometry volume.now.blocks births.now }
    ensures { IsFound 1 (volume.now.geometry.inodes + 1) (HasDots volume.now.geometry volume.now.blocks) result }
{
    for before in 0..volume.geometry().inodes {
        if !has_dots(volume, births, before + 1) {
            return Some(before + 1);
        }
    }
    None
}

/// Where the dots of a directory are told: at its first zone, or at its inode where this is a hole.
pub fn dots_block(volume: &Volume, inode: u16) -> u32
    requires { 0 < inode }
    ensures { result ≡ dots_block volume.now.geometry volume.now.blocks inode }
{
    let i = inode_at(volume.disk(), volume.geometry(), inode);
    let zone = zone_of(&i, volume.disk(), 0);
    if zone == 0 {
        table_block(volume.geometry(), inode)
    } else {
        u32::from(zone)
    }
}

// Whether an inode is no directory that names lead to, or its dots are right.
fn has_dots(volume: &Volume, births: &Births, inode: u16) -> bool
    requires births { AreBirths volume.now.geometry volume.now.blocks births.now }
    requires some { 0 < inode }
    ensures { (result ≡ true) ↔ HasDots volume.now.geometry volume.now.blocks inode }
{
    // By this call the volume tells that its geometry is sound.
    let _ = volume.disk();
    match births.directory(volume, birth_of(inode)) {
        Some(directory) => lead_back(volume, inode, inode_of_birth(directory.parent)),
        None => true,
    }
}

// Whether the first two slots of a directory lead to itself and to this parent.
fn lead_back(volume: &Volume, inode: u16, parent: u16) -> bool
    requires { 0 < inode }
    ensures { (result ≡ true) ↔ LeadBack volume.now.geometry volume.now.blocks inode parent }
{
    let i = inode_at(volume.disk(), volume.geometry(), inode);
    i.size / slot_size(volume.geometry().width) >= 2
        && is_slot(volume, &i, 0, inode, b".")
        && is_slot(volume, &i, 1, parent, b"..")
}

// Whether a slot of a directory's first block gives this name to this inode.
fn is_slot(volume: &Volume, i: &Inode, place: u8, inode: u16, name: &[u8]) -> bool
    requires { place < 32 }
    ensures { (result ≡ true) ↔
        (slot_behind volume.now.geometry volume.now.blocks i.now place ≡ Ok (Some (record { inode = inode; name = name.now }))) }
{
    match slot_at(volume, i, place) {
        Ok(Some(slot)) => slot.inode == inode && slot.name.as_slice() == name,
        _ => false,
    }
}

// A slot of a directory's first block.
fn slot_at(volume: &Volume, i: &Inode, place: u8) -> Result<Option<Slot>, LayoutFault>
    requires { place < 32 }
    ensures { result ≡ slot_behind volume.now.geometry volume.now.blocks i.now place }
{
    let disk = volume.disk();
    let zone = zone_of(i, disk, 0);
    if zone == 0 {
        return Ok(None);
    }
    read_slot(disk.body(u32::from(zone)), place, volume.geometry().width)
}
