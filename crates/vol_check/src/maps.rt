//! The maps of the inodes and of the zones.
ghost use Rattle.std.specs.Prelude.{◌≡◌, ◌+◌, ◌<◌, ◌≤◌, ◌↔◌, true};
ghost use Rattle.minix_layout.specs.Bits.{has_bit};
ghost use Rattle.vol_check.specs.Clean.{HasInodeBit, HasOther, HasZoneBit};
ghost use Rattle.vol_check.specs.Verdicts.{IsFound};
ghost use Rattle.vol_check.specs.code.Births.{AreBirths};

use crate::births::Births;
use minix_layout::{BitPlace, read_bit};
use volume_ops::Volume;

/// The first inode whose bit is wrong.
pub fn wrong_inode_bit(volume: &Volume, births: &Births) -> Option<u16>
    requires { AreBirths volume.now.geometry volume.now.blocks births.now }
    ensures { IsFound 1 (volume.now.geometry.inodes + 1) (HasInodeBit volume.now.geometry volume.now.blocks) result }
{
    for before in 0..volume.geometry().inodes {
        if !has_inode_bit(volume, births, before + 1) {
            return Some(before + 1);
        }
    }
    None
}

/// The first zone whose bit is wrong.
pub fn wrong_zone_bit(volume: &Volume, births: &Births) -> Option<u16>
    requires { AreBirths volume.now.geometry volume.now.blocks births.now }
    ensures { IsFound volume.now.geometry.first volume.now.geometry.zones (HasZoneBit volume.now.geometry volume.now.blocks) result }
{
    let other = has_other(volume, births);
    let g = volume.geometry();
    for zone in g.first..g.zones {
        if !has_zone_bit(volume, other, zone) {
            return Some(zone);
        }
    }
    None
}

// Whether names lead to something that is neither a directory nor a file.
fn has_other(volume: &Volume, births: &Births) -> bool
    requires { AreBirths volume.now.geometry volume.now.blocks births.now }
    ensures { (result ≡ true) ↔ HasOther volume.now.geometry volume.now.blocks }
{
    for before in 0..volume.geometry().inodes {
        if births.is_other(volume, before + 1) {
            return true;
        }
    }
    false
}

// Whether the bit of an inode is right.
fn has_inode_bit(volume: &Volume, births: &Births, inode: u16) -> bool
    requires births { AreBirths volume.now.geometry volume.now.blocks births.now }
    requires some { 0 < inode }
    ensures { (result ≡ true) ↔ HasInodeBit volume.now.geometry volume.now.blocks inode }
{
    let bit = bit_at(volume, volume.geometry().inode_bit(inode));
    let reached = births.reaches(volume, inode);
    if reached { bit } else { !bit }
}

// Whether the bit of a zone of data is right.
fn has_zone_bit(volume: &Volume, other: bool, zone: u16) -> bool
    requires other { (other ≡ true) ↔ HasOther volume.now.geometry volume.now.blocks }
    requires data { volume.now.geometry.first ≤ zone }
    ensures { (result ≡ true) ↔ HasZoneBit volume.now.geometry volume.now.blocks zone }
{
    let bit = bit_at(volume, volume.geometry().zone_bit(zone));
    if volume.uses_zone(zone) {
        bit
    } else {
        other || !bit
    }
}

// A bit of a map.
fn bit_at(volume: &Volume, place: BitPlace) -> bool
    requires { place.at < 8192 }
    ensures { result ≡ has_bit volume.now.blocks place }
{
    read_bit(volume.disk().body(place.block), place.at)
}
