//! The slots of a directory, as the blocks of an image have them.
ghost use Rattle.std.specs.Prelude.{◌≡◌, IfOk};
ghost use Rattle.minix_layout.specs.Widths.{IsWidth};
ghost use Rattle.volume_model.specs.Plain.{slot_in, slots_in};

use blk_base::NoMemory;
use minix_layout::{Geometry, Inode, Slot, read_slot, slot_size, slots_a_block};
use minix_tables::directories::Slots;
use minix_tables::inodes::zone_of;
use std::alloc::Global;
use volume_ops::Disk;

/// The slots of a directory as its blocks have them. One that cannot be read counts as free.
pub fn slots_in(alloc: Global, disk: &Disk, g: &Geometry, inode: &Inode) -> Result<Slots, NoMemory>
    requires { IsWidth g.now.width }
    ensures { IfOk result (λ slots. slots ≡ slots_in g.now disk.now inode.now) }
{
    let count = inode.size / slot_size(g.width);
    let mut slots = Vec::with_capacity(alloc, count as usize)?;
    for k in 0..count {
        slots.push(slot_in(disk, g, inode, k))?;
    }
    Ok(Slots::of(slots))
}

fn slot_in(disk: &Disk, g: &Geometry, inode: &Inode, k: u32) -> Option<Slot>
    requires { IsWidth g.now.width }
    ensures { result ≡ slot_in g.now disk.now inode.now k }
{
    let zone = zone_of(inode, disk, k / slots_a_block(g.width));
    if zone == 0 {
        return None;
    }
    read_slot(
        disk.body(zone.into()),
        (k % slots_a_block(g.width)) as u8,
        g.width,
    )
    .unwrap_or(None)
}
