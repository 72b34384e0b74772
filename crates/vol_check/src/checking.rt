//! The check of a volume.
ghost use Rattle.std.specs.Prelude.{◌≡◌, ℕ, ◌≤◌, ◌↔◌, Ok, Err, IfOk, length, take};
ghost use Rattle.minix_layout.specs.declared.division.Geometry.{Geometry};
ghost use Rattle.vol_check.specs.Clean.{IsClean};
ghost use Rattle.vol_check.specs.Verdicts.{IsVerdict, IsInodeMapFault, IsZoneMapFault, IsLinksFault, IsDotsFault};
ghost use Rattle.vol_check.specs.Images.{HasVolume, CanBeChecked};

use crate::Verdict;
use crate::births::Births;
use crate::dots::{dots_block, wrong_dots};
use crate::links::wrong_links;
use crate::maps::{wrong_inode_bit, wrong_zone_bit};
use crate::name_counts::NameCounts;
use crate::places::table_block;
use blk_base::{Image, NoMemory};
use minix_layout::read_super;
use std::alloc::Global;
use volume_ops::{Volume, VolumeFault};

/// Checks the volume of an image that could be mounted as it is: whether it is clean, or else the first fault. What
/// stands behind the volume is not looked at.
pub fn check(alloc: Global, image: &Image) -> Result<Verdict, NoMemory>
    requires { CanBeChecked image.now }
    ensures clean { (g : Geometry) → HasVolume image.now g →
        IfOk result (λ v. (v ≡ Verdict.Clean) ↔ IsClean g (take g.zones image.now)) }
    ensures inode_map { (g : Geometry) → HasVolume image.now g → (block : ℕ) →
        IfOk result (λ v. (v ≡ Verdict.InodeMap block) ↔ IsInodeMapFault g (take g.zones image.now) block) }
    ensures zone_map { (g : Geometry) → HasVolume image.now g → (block : ℕ) →
        IfOk result (λ v. (v ≡ Verdict.ZoneMap block) ↔ IsZoneMapFault g (take g.zones image.now) block) }
    ensures links { (g : Geometry) → HasVolume image.now g → (block : ℕ) →
        IfOk result (λ v. (v ≡ Verdict.Links block) ↔ IsLinksFault g (take g.zones image.now) block) }
    ensures dots { (g : Geometry) → HasVolume image.now g → (block : ℕ) →
        IfOk result (λ v. (v ≡ Verdict.Dots block) ↔ IsDotsFault g (take g.zones image.now) block) }
{
    let volume = volume_of(alloc, image)?;
    check_volume(alloc, &volume)
}

/// Checks a volume that was read: whether it is clean, or else the first fault.
pub fn check_volume(alloc: Global, volume: &Volume) -> Result<Verdict, NoMemory>
    ensures clean { IfOk result (λ v. (v ≡ Verdict.Clean) ↔ IsClean volume.now.geometry volume.now.blocks) }
    ensures inode_map { (block : ℕ) →
        IfOk result (λ v. (v ≡ Verdict.InodeMap block) ↔ IsInodeMapFault volume.now.geometry volume.now.blocks block) }
    ensures zone_map { (block : ℕ) →
        IfOk result (λ v. (v ≡ Verdict.ZoneMap block) ↔ IsZoneMapFault volume.now.geometry volume.now.blocks block) }
    ensures links { (block : ℕ) →
        IfOk result (λ v. (v ≡ Verdict.Links block) ↔ IsLinksFault volume.now.geometry volume.now.blocks block) }
    ensures dots { (block : ℕ) →
        IfOk result (λ v. (v ≡ Verdict.Dots block) ↔ IsDotsFault volume.now.geometry volume.now.blocks block) }
{
    first_fault(alloc, volume)
}

// The first fault of a volume, in the order of the passes.
fn first_fault(alloc: Global, volume: &Volume) -> Result<Verdict, NoMemory>
    ensures { IfOk result (IsVerdict volume.now.geometry volume.now.blocks) }
{
    let g = volume.geometry();
    let births = Births::of(alloc, volume)?;
    if let Some(inode) = wrong_inode_bit(volume, &births) {
        return Ok(Verdict::InodeMap(g.inode_bit(inode).block));
    }
    if let Some(zone) = wrong_zone_bit(volume, &births) {
        return Ok(Verdict::ZoneMap(g.zone_bit(zone).block));
    }
    let names = NameCounts::of(alloc, volume, &births)?;
    if let Some(inode) = wrong_links(volume, &births, &names) {
        return Ok(Verdict::Links(table_block(g, inode)));
    }
    if let Some(inode) = wrong_dots(volume, &births) {
        return Ok(Verdict::Dots(dots_block(volume, inode)));
    }
    Ok(Verdict::Clean)
}

// The volume at the front of an image.
fn volume_of(alloc: Global, image: &Image) -> Result<Volume, NoMemory>
    requires { CanBeChecked image.now }
    ensures { (g : Geometry) → HasVolume image.now g → IfOk result (λ v. v ≡ record { geometry = g; blocks = take g.zones image.now }) }
{
    let Ok(g) = read_super(image.block(1)) else {
        unreachable!();
    };
    match Volume::of_image(alloc, image, g) {
        Ok(volume) => Ok(volume),
        Err(VolumeFault::NoMemory) => Err(NoMemory),
        Err(VolumeFault::ReadFault) => unreachable!(),
        Err(VolumeFault::Layout(..)) => unreachable!(),
    }
}
