//! One directory is written anew.
ghost use Rattle.std.specs.Prelude.{◌≡◌, IsTrue, ◌+◌, ◌<◌, ◌≤◌, ◌^◌, length, slice_index, IfOk, OnOk, IfErr, ◌∷◌, [], Ok};
ghost use Rattle.minix_layout.specs.Geometry.{IsSound};
ghost use Rattle.minix_layout.specs.Words.{is_name};
ghost use Rattle.volume_model.specs.Edits.{edited_all};
ghost use Rattle.widening.specs.Directories.{wide_slots, all_needed, indirect_of, bit_edits, slot_edits, number_edits, wide_inode};
ghost use Rattle.widening.specs.code.Faults.{IsToldBy};
ghost use Rattle.widening.specs.code.Steps.{IsFitting, write_edits, directory_written};

use crate::WidenFault;
use crate::bodies::{SLOTS, numbers_block, slots_block};
use crate::zones::{FreeZones, own_zones};
use blk_base::{Image, NoMemory};
use minix_layout::{Geometry, Inode, Name, Slot, Zones};
use std::alloc::Global;
use tree_model::Directory;
use volume_model::editing::{put_body, put_inode, set_bit};
use volume_ops::{Disk, inode_at, inode_of_birth};

// The most zones of data: 7 that the inode tells, and 512 that the indirect block tells.
const MOST_ZONES: usize = 519;

/// Writes a directory of the volume on `disk` into the image, with names of 30 bytes.
pub(crate) fn widen_directory(
    alloc: Global,
    disk: &Disk,
    g: &Geometry,
    number: u16,
    d: &Directory,
    free: &mut FreeZones,
    image: &mut Image,
) -> Result<(), WidenFault>
    requires sound { IsSound g.now }
    requires some { 0 < number }
    requires fits { IsFitting d.now }
    ensures ok { OnOk result (directory_written g.now disk.now number d.now (record { image = image.old; free = free.old }) ≡ Ok (record { image = image.new; free = free.new })) }
    ensures fault { IfErr result (IsToldBy (directory_written g.now disk.now number d.now (record { image = image.old; free = free.old }))) }
{
    let needed = (d.names.len() + 2).div_ceil(SLOTS);
    if needed > MOST_ZONES {
        return Err(WidenFault::NoRoom);
    }
    let inode = inode_at(disk, g, number);
    let kept = if needed > 7 { inode.zones.zone(7) } else { 0 };
    let mut zones = own_zones(alloc, disk, &inode, needed > 7)?;
    let own = zones.len();
    let taken = all_needed(needed, kept).saturating_sub(own);
    if free.len() < taken {
        return Err(WidenFault::NoRoom);
    }
    let slots = wide_slots(alloc, number, d)?;
    free.take_into(taken, &mut zones)?;
    let had = HadZones {
        zones,
        own,
        needed,
        kept,
    };
    write_directory(image, g, number, inode, &slots, &had);
    Ok(())
}

// The zones of a directory that is written anew: those that it has, of which so many are its own, how many of them are
// for data, and the indirect block that is kept, 0 for none.
#[derive(Drop)]
struct HadZones {
    zones: Vec<u16>,
    own: usize,
    needed: usize,
    kept: u16,
}

// Writes the bits of its zones, its slots, its numbers and its inode.
fn write_directory(
    image: &mut Image,
    g: &Geometry,
    number: u16,
    inode: Inode,
    slots: &[Slot],
    had: &HadZones,
)
    requires sound { IsSound g.now }
    requires some { 0 < number }
    requires few { had.now.needed ≤ 519 }
    requires slots { length slots.now ≤ 16608 }
    requires own { had.now.own ≤ length had.now.zones.items }
    requires all { all_needed had.now.needed had.now.kept ≤ length had.now.zones.items }
    ensures { image.new ≡ edited_all g.now image.old (write_edits g.now number inode slots.now had.now.zones.items had.now.own had.now.needed had.now.kept) }
{
    let zones = had.zones.as_slice();
    let all = all_needed(had.needed, had.kept);
    set_bits(image, g, &zones[had.own..], true);
    set_bits(image, g, &zones[all..], false);
    let indirect = indirect_of(zones, had.needed, had.kept);
    put_slots(image, g, &zones[..had.needed], slots);
    put_numbers(image, g, &zones[..had.needed], indirect);
    let inode = wide_inode(inode, slots.len(), &zones[..had.needed], indirect);
    put_inode(image, g, number, &inode);
}

// So many zones of data, with one for the indirect block, where it needs one and none is kept.
fn all_needed(needed: usize, kept: u16) -> usize
    requires { needed ≤ 519 }
    ensures { result ≡ all_needed needed kept }
{
    if needed > 7 && kept == 0 {
        needed + 1
    } else {
        needed
    }
}

// Its slots: `.`, `..`, and its names in the order of their bytes.
fn wide_slots(alloc: Global, number: u16, d: &Directory) -> Result<Vec<Slot>, NoMemory>
    requires { IsFitting d.now }
    ensures { IfOk result (λ slots. slots.items ≡ wide_slots number d.now) }
{
    let mut slots = Vec::new(alloc);
    slots.push(dot_slot(number, b"."))?;
    slots.push(dot_slot(inode_of_birth(d.parent), b".."))?;
    for (name, birth) in d.names.as_map() {
        slots.push(Slot {
            inode: inode_of_birth(*birth),
            name: name.copy(),
        })?;
    }
    Ok(slots)
}

// A slot for `.` or `..`.
fn dot_slot(inode: u16, name: &[u8]) -> Slot
    requires { IsTrue (is_name name.now) }
    ensures { result ≡ record { inode = inode; name = name.now } }
{
    match Name::of(name) {
        Some(name) => Slot { inode, name },
        None => unreachable!(),
    }
}

// Writes the bits of these zones.
fn set_bits(image: &mut Image, g: &Geometry, zones: &[u16], used: bool)
    requires { IsSound g.now }
    ensures { image.new ≡ edited_all g.now image.old (bit_edits g.now used zones.now) }
{
    for zone in zones {
        set_bit(image, g, 2 + g.imap, zone.saturating_sub(g.first) + 1, used);
    }
}

// The indirect block: the one that is kept, or else the zone behind those for slots.
fn indirect_of(zones: &[u16], needed: usize, kept: u16) -> u16
    ensures { result ≡ indirect_of zones.now needed kept }
{
    if needed <= 7 {
        return 0;
    }
    if kept != 0 {
        return kept;
    }
    zone_or_none(zones, needed)
}

// The zone at this place, 0 where there is none.
fn zone_or_none(zones: &[u16], at: usize) -> u16
    ensures { result ≡ slice_index zones.now at }
{
    match zones.get(at) {
        Some(zone) => *zone,
        None => 0,
    }
}

// Writes the slots into their zones.
fn put_slots(image: &mut Image, g: &Geometry, zones: &[u16], slots: &[Slot])
    ensures { image.new ≡ edited_all g.now image.old (slot_edits zones.now slots.now) }
{
    let mut rest = slots;
    for zone in zones {
        let (first, more) = rest.split_at(rest.len().min(SLOTS));
        put_body(image, g, *zone, &slots_block(first));
        rest = more;
    }
}

// Writes the numbers of the zones behind the seventh into the indirect block, where there are any.
fn put_numbers(image: &mut Image, g: &Geometry, zones: &[u16], indirect: u16)
    requires { length zones.now ≤ 519 }
    ensures { image.new ≡ edited_all g.now image.old (number_edits indirect zones.now) }
{
    if zones.len() > 7 {
        put_body(image, g, indirect, &numbers_block(&zones[7..]));
    }
}

// The inode with another size and other zones.
fn wide_inode(mut inode: Inode, slots: usize, zones: &[u16], indirect: u16) -> Inode
    requires { slots ≤ 16608 }
    ensures { result ≡ wide_inode inode slots zones.now indirect }
{
    inode.size = 32 * slots as u32;
    inode.zones = Zones::of([
        zone_or_none(zones, 0),
        zone_or_none(zones, 1),
        zone_or_none(zones, 2),
        zone_or_none(zones, 3),
        zone_or_none(zones, 4),
        zone_or_none(zones, 5),
        zone_or_none(zones, 6),
        indirect,
        0,
    ]);
    inode
}
