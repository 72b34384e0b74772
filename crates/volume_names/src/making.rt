//! A directory comes into a directory.
ghost use Rattle.std.specs.Prelude.{◌≡◌, ◌≤◌, ◌<◌, ◌+◌, ℕ, [], ◌∷◌, true, IfOk, OnErr, Some};
ghost use Rattle.minix_layout.specs.Geometry.{IsSound};
ghost use Rattle.minix_layout.specs.Widths.{IsWidth};
ghost use Rattle.minix_layout.specs.declared.slot.Slot.{Slot};
ghost use Rattle.byte_fields.specs.Fields.{zeros};
ghost use Rattle.tree_model.specs.Maps.{at_number};
ghost use Rattle.volume_model.specs.declared.placed.Placed.{Placed};
ghost use Rattle.volume_model.specs.Edits.{edited_all, put_body, put_slot};
ghost use Rattle.volume_model.specs.Touched.{and_then};
ghost use Rattle.volume_steps.specs.Now.{tells_writes};
ghost use Rattle.volume_steps.specs.Zones.{new_number, next_zone};
ghost use Rattle.minix_tables.specs.zones.Zones.{taken};
ghost use Rattle.volume_steps.specs.Calls.{mkdir_in};
ghost use Rattle.volume_names.specs.May.{MayMkdir};
ghost use Rattle.volume_names.specs.code.Steps.{After, directory_written, dot_edits};

use crate::directories::slot_of;
use crate::entries::enter_new;
use crate::inodes::new_directory;
use crate::marks::mark_inode;
use crate::names::write_name;
use crate::nodes::{add_link, number_of};
use blk_base::{Block, Image, NoMemory};
use minix_layout::{Geometry, Inode, Name};
use minix_tables::zones::ZoneMap;
use std::alloc::Global;
use volume_in_use::now::{Touched, VolumeNow, dot, dots, mark_zone};
use volume_model::editing::{put_body, put_inode, put_slot, table_block};

/// Makes a directory with birth `n` in the lowest free inode, under this name in the directory with birth `parent`.
pub fn mkdir(
    alloc: Global,
    v: &mut VolumeNow,
    n: u64,
    number: u16,
    parent: u64,
    name: &Name,
) -> Result<Touched, NoMemory>
    requires may { MayMkdir v.old n parent name.now }
    requires number { number ≡ new_number v.old.geometry v.old.contents.nodes }
    ensures done { IfOk result (λ t. record { volume = v.new; touched = t.touched } ≡ mkdir_in v.old n parent name.now) }
    ensures memory { OnErr result (v.new ≡ v.old) }
{
    let mut touched = Touched::with_room(alloc, 19)?;
    let above = number_of(&v.nodes, parent);
    let directory = new_directory(alloc, number, v.geometry.width, parent, above)?;
    let slot = slot_of(number, name);
    let new = enter_new(&mut v.nodes, n, directory, parent, slot_of(number, name))?;
    write_directory(v, n, above, &mut touched);
    write_name(v, parent, &slot, new, &mut touched);
    add_link(v, parent, &mut touched);
    Ok(touched)
}

// Takes a zone for a new directory below the one with inode `above`, and writes both.
fn write_directory(v: &mut VolumeNow, n: u64, above: u16, touched: &mut Touched)
    requires sound { IsSound v.old.geometry }
    requires numbers { (p : Placed) → at_number v.old.contents.nodes n ≡ Some p → 0 < p.number }
    requires room { 7 ≤ touched.old.spare }
    ensures done { After touched.old.touched (directory_written v.old n above) v.new touched.new.touched }
    ensures spare { touched.old.spare ≤ touched.new.spare + 7 }
{
    let Some(placed) = v.nodes.get_mut(&n) else {
        return;
    };
    let zone = take_zone(&mut v.zones);
    placed.inode = Inode::new_directory(v.geometry.width, zone);
    mark_inode(&mut v.blocks, &v.geometry, true, placed.number, touched);
    mark_zone(&mut v.blocks, &v.geometry, true, zone, touched);
    write_dots(
        &mut v.blocks,
        &v.geometry,
        zone,
        placed.number,
        above,
        touched,
    );
    put_inode(&mut v.blocks, &v.geometry, placed.number, &placed.inode);
    touched.note_block(table_block(&v.geometry, placed.number));
    touched.note_node(n);
}

// The lowest free zone, which is in use then; 0 where none is free.
fn take_zone(zones: &mut ZoneMap) -> u16
    ensures zone { result ≡ next_zone zones.old }
    ensures taken { zones.new ≡ taken zones.old }
{
    zones.take().unwrap_or(0)
}

// Fills a zone with free slots, but for the first two.
fn write_dots(
    blocks: &mut Image,
    g: &Geometry,
    zone: u16,
    own: u16,
    above: u16,
    touched: &mut Touched,
)
    requires width { IsWidth g.now.width }
    requires room { 3 ≤ touched.old.spare }
    ensures blocks { blocks.new ≡ edited_all g.now blocks.old (dot_edits zone own above) }
    ensures touched { touched.new.touched ≡ and_then touched.old.touched (tells_writes g.now (dot_edits zone own above)) }
    ensures spare { touched.old.spare ≤ touched.new.spare + 3 }
{
    put_body(blocks, g, zone, &Block::fill(0));
    put_slot(blocks, g, zone, 0, Some(&dot(own)));
    put_slot(blocks, g, zone, 1, Some(&dots(above)));
    touched.note_block(zone.into());
    touched.note_block(zone.into());
    touched.note_block(zone.into());
}
