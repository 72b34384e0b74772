//! The zones that a directory has, and those that are free.
ghost use Rattle.std.specs.Prelude.{◌≡◌, ℕ, ◌+◌, ◌≤◌, ◌++◌, List, length, take, drop, map, Ok, IfOk, OnOk};
ghost use Rattle.std.specs.List.{concat};
ghost use Rattle.volume_ops.specs.Volume.{walked};
ghost use Rattle.volume_ops.specs.Walk.{Walked};
ghost use Rattle.widening.specs.Directories.{no_holes, zones_behind, data_zones, number_zones, is_free, free_zones};

use blk_base::NoMemory;
use minix_layout::{Inode, read_bit};
use minix_tables::inodes::ZoneBlocks;
use std::alloc::Global;
use std::marker::Model;
use volume_ops::{Disk, Volume};

/// The zones of a directory: those of its data in order, then those of numbers, but for the indirect one where it is
/// kept.
pub(crate) fn own_zones(
    alloc: Global,
    disk: &Disk,
    inode: &Inode,
    kept: bool,
) -> Result<Vec<u16>, NoMemory>
    ensures { IfOk result (λ zones. zones.items ≡ data_zones disk.now inode.now ++ number_zones disk.now inode.now kept) }
{
    let (indirect, double) = (inode.zones.zone(7), inode.zones.zone(8));
    let mut inner = Vec::new(alloc);
    push_behind(&mut inner, disk, double)?;
    let mut zones = Vec::new(alloc);
    push_zones(&mut zones, &inode.zones.as_slice()[..7])?;
    push_behind(&mut zones, disk, indirect)?;
    push_all_behind(&mut zones, disk, &inner)?;
    push_zones(&mut zones, &[if kept { 0 } else { indirect }, double])?;
    zones.extend_from_slice(&inner)?;
    Ok(zones)
}

// Appends those that are no holes.
fn push_zones(zones: &mut Vec<u16>, numbers: &[u16]) -> Result<(), NoMemory>
    ensures { OnOk result (zones.new.items ≡ zones.old.items ++ no_holes numbers.now) }
{
    for zone in numbers {
        if *zone != 0 {
            zones.push(*zone)?;
        }
    }
    Ok(())
}

// Appends the zones whose numbers are in a zone of numbers.
fn push_behind(zones: &mut Vec<u16>, disk: &Disk, zone: u16) -> Result<(), NoMemory>
    ensures { OnOk result (zones.new.items ≡ zones.old.items ++ zones_behind disk.now zone) }
{
    if zone == 0 {
        return Ok(());
    }
    for at in 0..512 {
        let number = disk.entry(zone, at);
        if number != 0 {
            zones.push(number)?;
        }
    }
    Ok(())
}

// Appends those behind each of these zones of numbers.
fn push_all_behind(zones: &mut Vec<u16>, disk: &Disk, inner: &[u16]) -> Result<(), NoMemory>
    ensures { OnOk result (zones.new.items ≡ zones.old.items ++ concat (map (zones_behind disk.now) inner.now)) }
{
    for zone in inner {
        push_behind(zones, disk, *zone)?;
    }
    Ok(())
}

/// The zones that are free for directories, the lowest first.
#[derive(Drop)]
pub(crate) struct FreeZones {
    zones: Vec<u16>,
    // How many of them were taken.
    taken: usize,
}

impl Model for FreeZones {
    ghost use Rattle.std.specs.Prelude.{◌≤◌, List, ℕ, drop, length};

    ghost Value = { List ℕ };

    ghost view = { λ f. drop f.taken f.zones.items };

    ghost invariant = { λ f. f.taken ≤ length f.zones.items };
}

impl FreeZones {
    /// Those that the volume does not use, and whose bits are 0.
    pub(crate) fn of(alloc: Global, volume: &Volume) -> Result<FreeZones, NoMemory>
        ensures { (all : Walked) → walked volume.now.geometry volume.now.blocks ≡ Ok all →
            IfOk result (λ free. free ≡ free_zones volume.now.geometry volume.now.blocks all.zones) }
    {
        Ok(FreeZones {
            zones: free_zones(alloc, volume)?,
            taken: 0,
        })
    }

    /// How many are left.
    pub(crate) fn len(&self) -> usize
        ensures { result ≡ length self.now }
    {
        self.zones.len() - self.taken
    }

    /// Takes so many of them, the lowest first, and appends them to these zones.
    pub(crate) fn take_into(&mut self, count: usize, zones: &mut Vec<u16>) -> Result<(), NoMemory>
        requires { count ≤ length self.old }
        ensures zones { OnOk result (zones.new.items ≡ zones.old.items ++ take count self.old) }
        ensures left { OnOk result (self.new ≡ drop count self.old) }
    {
        let end = self.taken + count;
        zones.extend_from_slice(&self.zones[self.taken..end])?;
        self.taken = end;
        Ok(())
    }
}

fn free_zones(alloc: Global, volume: &Volume) -> Result<Vec<u16>, NoMemory>
    ensures { (all : Walked) → walked volume.now.geometry volume.now.blocks ≡ Ok all →
        IfOk result (λ zones. zones.items ≡ free_zones volume.now.geometry volume.now.blocks all.zones) }
{
    // By this call the volume tells that its geometry is sound.
    let _ = volume.disk();
    let g = volume.geometry();
    let mut zones = Vec::new(alloc);
    for zone in g.first..g.zones {
        if is_free(volume, zone) {
            zones.push(zone)?;
        }
    }
    Ok(zones)
}

fn is_free(volume: &Volume, zone: u16) -> bool
    requires { volume.now.geometry.first ≤ zone }
    ensures { (all : Walked) → walked volume.now.geometry volume.now.blocks ≡ Ok all →
        result ≡ is_free volume.now.geometry volume.now.blocks all.zones zone }
{
    let place = volume.geometry().zone_bit(zone);
    let marked = read_bit(volume.disk().body(place.block), place.at);
    let used = volume.uses_zone(zone);
    !used && !marked
}
