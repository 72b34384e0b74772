//! The zones of one inode.
ghost use Rattle.std.specs.Prelude.{◌≡◌, ◌+◌, ◌*◌, ◌^◌, ◌<◌, ◌≤◌, Ok, length, IfOk, IfErr, OnOk};
ghost use Rattle.volume_ops.specs.Reads.{answer};
ghost use Rattle.volume_ops.specs.Places.{zone_numbers};
ghost use Rattle.volume_ops.specs.Zones.{take_zone, take_block, take_blocks, take_indirect, take_indirects, take_double, scan_zones};
ghost use Rattle.volume_ops.specs.Volume.{disk_of, IsTold};

use crate::disk::Disk;
use crate::marks::Marks;
use crate::walk_fault::WalkFault;
use crate::{Mapped, MappedZones};
use blk_base::Block;
use byte_fields::u16_at_le;
use minix_layout::{Geometry, LayoutFault, Zones};
use std::alloc::Global;

/// Tests the nine zones of an inode and what lies behind them, and notes its mapped blocks. `pointer_block` is the
/// block of the inode.
pub fn scan_zones(
    alloc: Global,
    disk: &Disk,
    g: &Geometry,
    pointer_block: u32,
    zones: &Zones,
    met: &mut Marks,
) -> Result<MappedZones, WalkFault>
    ensures ok { IfOk result (λ mapped. answer (disk_of disk.now) (scan_zones g.now pointer_block zones.now met.old) ≡ Ok (record { met = met.new; mapped = mapped })) }
    ensures fault { IfErr result (IsTold (answer (disk_of disk.now) (scan_zones g.now pointer_block zones.now met.old))) }
{
    let mut mapped = MappedZones::new(alloc);
    take_blocks(
        g,
        pointer_block,
        0,
        &zones.as_slice()[..7],
        met,
        &mut mapped,
    )?;
    take_indirect(disk, g, pointer_block, 7, zones.zone(7), met, &mut mapped)?;
    take_double(disk, g, pointer_block, zones.zone(8), met, &mut mapped)?;
    Ok(mapped)
}

// Notes that a zone was met. It must be a zone of data that was not met before.
fn take_zone(g: &Geometry, pointer_block: u32, zone: u16, met: &mut Marks) -> Result<(), WalkFault>
    ensures ok { OnOk result (take_zone g.now pointer_block zone met.old ≡ Ok met.new) }
    ensures fault { IfErr result (IsTold (take_zone g.now pointer_block zone met.old)) }
{
    if zone < g.first || zone >= g.zones || met.is_marked(zone as usize) {
        return Err(WalkFault::Layout(LayoutFault::BadZone, pointer_block));
    }
    met.mark(zone as usize);
    Ok(())
}

// Takes a zone as a block of the file.
fn take_block(
    g: &Geometry,
    pointer_block: u32,
    block: Mapped,
    met: &mut Marks,
    mapped: &mut MappedZones,
) -> Result<(), WalkFault>
    ensures ok { OnOk result (take_block g.now pointer_block block.index block.zone (record { met = met.old; mapped = mapped.old }) ≡ Ok (record { met = met.new; mapped = mapped.new })) }
    ensures fault { IfErr result (IsTold (take_block g.now pointer_block block.index block.zone (record { met = met.old; mapped = mapped.old }))) }
{
    take_zone(g, pointer_block, block.zone, met)?;
    mapped.push(block)?;
    Ok(())
}

// Takes the zones of the file's blocks from `index` on. 0 is a hole.
fn take_blocks(
    g: &Geometry,
    pointer_block: u32,
    index: u32,
    numbers: &[u16],
    met: &mut Marks,
    mapped: &mut MappedZones,
) -> Result<(), WalkFault>
    requires { index + length numbers.now < 2 ^ 32 }
    ensures ok { OnOk result (take_blocks g.now pointer_block index numbers.now (record { met = met.old; mapped = mapped.old }) ≡ Ok (record { met = met.new; mapped = mapped.new })) }
    ensures fault { IfErr result (IsTold (take_blocks g.now pointer_block index numbers.now (record { met = met.old; mapped = mapped.old }))) }
{
    for (k, zone) in numbers.iter().enumerate() {
        if *zone != 0 {
            let block = Mapped {
                index: index + k as u32,
                zone: *zone,
            };
            take_block(g, pointer_block, block, met, mapped)?;
        }
    }
    Ok(())
}

// The 512 numbers of a zone of numbers.
fn zone_numbers(body: &Block) -> [u16; 512]
    ensures { result ≡ zone_numbers body.now }
{
    let bytes = body.as_slice();
    let mut numbers = [0; 512];
    for (k, number) in numbers.iter_mut().enumerate() {
        *number = u16_at_le(bytes, 2 * k);
    }
    numbers
}

// Takes an indirect zone, which has the numbers of the 512 blocks from `index` on.
fn take_indirect(
    disk: &Disk,
    g: &Geometry,
    pointer_block: u32,
    index: u32,
    zone: u16,
    met: &mut Marks,
    mapped: &mut MappedZones,
) -> Result<(), WalkFault>
    requires { index + 512 < 2 ^ 32 }
    ensures ok { OnOk result (answer (disk_of disk.now) (take_indirect g.now pointer_block index zone (record { met = met.old; mapped = mapped.old })) ≡ Ok (record { met = met.new; mapped = mapped.new })) }
    ensures fault { IfErr result (IsTold (answer (disk_of disk.now) (take_indirect g.now pointer_block index zone (record { met = met.old; mapped = mapped.old })))) }
{
    if zone == 0 {
        return Ok(());
    }
    take_zone(g, pointer_block, zone, met)?;
    let zone = u32::from(zone);
    let numbers = zone_numbers(disk.body(zone));
    take_blocks(g, zone, index, &numbers, met, mapped)
}

// Takes indirect zones one after the other, the first for the blocks from `index` on.
fn take_indirects(
    disk: &Disk,
    g: &Geometry,
    pointer_block: u32,
    index: u32,
    numbers: &[u16],
    met: &mut Marks,
    mapped: &mut MappedZones,
) -> Result<(), WalkFault>
    requires { index + 512 * length numbers.now < 2 ^ 32 }
    ensures ok { OnOk result (answer (disk_of disk.now) (take_indirects g.now pointer_block index numbers.now (record { met = met.old; mapped = mapped.old })) ≡ Ok (record { met = met.new; mapped = mapped.new })) }
    ensures fault { IfErr result (IsTold (answer (disk_of disk.now) (take_indirects g.now pointer_block index numbers.now (record { met = met.old; mapped = mapped.old })))) }
{
    for (k, zone) in numbers.iter().enumerate() {
        take_indirect(
            disk,
            g,
            pointer_block,
            index + 512 * k as u32,
            *zone,
            met,
            mapped,
        )?;
    }
    Ok(())
}

// Takes a doubly indirect zone, which has the numbers of 512 indirect zones, for the blocks from 519 on.
fn take_double(
    disk: &Disk,
    g: &Geometry,
    pointer_block: u32,
    zone: u16,
    met: &mut Marks,
    mapped: &mut MappedZones,
) -> Result<(), WalkFault>
    ensures ok { OnOk result (answer (disk_of disk.now) (take_double g.now pointer_block zone (record { met = met.old; mapped = mapped.old })) ≡ Ok (record { met = met.new; mapped = mapped.new })) }
    ensures fault { IfErr result (IsTold (answer (disk_of disk.now) (take_double g.now pointer_block zone (record { met = met.old; mapped = mapped.old })))) }
{
    if zone == 0 {
        return Ok(());
    }
    take_zone(g, pointer_block, zone, met)?;
    let zone = u32::from(zone);
    let numbers = zone_numbers(disk.body(zone));
    take_indirects(disk, g, zone, 519, &numbers, met, mapped)
}
