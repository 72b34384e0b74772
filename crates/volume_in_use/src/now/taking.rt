//! Zones are taken into use for a block, and their bits are set. No call takes memory.
ghost use Rattle.std.specs.Prelude.{◌≡◌, ◌≤◌, ◌<◌, ◌+◌, [], ◌∷◌, map, true};
ghost use Rattle.minix_layout.specs.Geometry.{IsSound};
ghost use Rattle.volume_model.specs.Edits.{edited_all};
ghost use Rattle.volume_model.specs.MapBlock.{own_of};
ghost use Rattle.volume_model.specs.Touched.{and_then};
ghost use Rattle.volume_steps.specs.Now.{tells_writes};
ghost use Rattle.volume_steps.specs.Zones.{zone_bit, take_zones, take_if, zone_if, numbers_if};

use crate::now::Touched;
use crate::now::ways::{lacks_outer, lacks_second};
use blk_base::Image;
use minix_layout::{Geometry, Inode};
use minix_tables::zones::ZoneMap;
use volume_model::editing::{TakenZones, set_bit};

/// Writes the bit of a zone: whether it is in use.
pub fn mark_zone(blocks: &mut Image, g: &Geometry, value: bool, zone: u16, touched: &mut Touched)
    requires sound { IsSound g.now }
    requires room { 1 ≤ touched.old.spare }
    ensures blocks { blocks.new ≡ edited_all g.now blocks.old (zone_bit g.now value zone ∷ []) }
    ensures touched { touched.new.touched ≡
        and_then touched.old.touched (tells_writes g.now (zone_bit g.now value zone ∷ [])) }
    ensures spare { touched.new.spare + 1 ≡ touched.old.spare }
{
    let bit = zone.saturating_sub(g.first) + 1;
    let map = 2 + g.imap;
    set_bit(blocks, g, map, bit, value);
    touched.note_block(u32::from(map) + u32::from(bit / 8192));
}

/// Takes zones for block `index`, which has none: the lowest free zone for itself, then those of numbers that are not
/// there, from the inode down. Their bits are set. Where no zone is free, 0 is taken.
pub fn take_zones(
    zones: &mut ZoneMap,
    blocks: &mut Image,
    g: &Geometry,
    inode: &Inode,
    index: u32,
    touched: &mut Touched,
) -> TakenZones
    requires sound { IsSound g.now }
    requires within { index < 262663 }
    requires room { 3 ≤ touched.old.spare }
    ensures zones { zones.new ≡ (take_zones (own_of (record { blocks = blocks.old; inode = inode.now })) index zones.old).zones }
    ensures taken { record { data_zone = result.data_zone; outer = result.outer; second = result.second } ≡
        (take_zones (own_of (record { blocks = blocks.old; inode = inode.now })) index zones.old).taken }
    ensures blocks { blocks.new ≡ edited_all g.now blocks.old
        (map (zone_bit g.now true) (take_zones (own_of (record { blocks = blocks.old; inode = inode.now })) index zones.old).numbers) }
    ensures touched { touched.new.touched ≡ and_then touched.old.touched (tells_writes g.now
        (map (zone_bit g.now true) (take_zones (own_of (record { blocks = blocks.old; inode = inode.now })) index zones.old).numbers)) }
    ensures spare { touched.old.spare ≤ touched.new.spare + 3 }
{
    let lacks_outer = lacks_outer(blocks, inode, index);
    let lacks_second = lacks_second(blocks, inode, index);
    let data_zone = zones.take().unwrap_or(0);
    let outer = take_if(zones, lacks_outer);
    let second = take_if(zones, lacks_second);
    mark_zone(blocks, g, true, data_zone, touched);
    mark_if(blocks, g, lacks_outer, outer, touched);
    mark_if(blocks, g, lacks_second, second, touched);
    TakenZones {
        data_zone,
        outer,
        second,
    }
}

// Takes the lowest free zone, where one is wanted.
fn take_if(zones: &mut ZoneMap, wanted: bool) -> u16
    ensures zone { result ≡ zone_if wanted zones.old }
    ensures zones { zones.new ≡ take_if wanted zones.old }
{
    if wanted { zones.take().unwrap_or(0) } else { 0 }
}

// Sets the bit of a zone, where it was taken.
fn mark_if(blocks: &mut Image, g: &Geometry, wanted: bool, zone: u16, touched: &mut Touched)
    requires sound { IsSound g.now }
    requires room { 1 ≤ touched.old.spare }
    ensures blocks { blocks.new ≡ edited_all g.now blocks.old (map (zone_bit g.now true) (numbers_if wanted zone)) }
    ensures touched { touched.new.touched ≡
        and_then touched.old.touched (tells_writes g.now (map (zone_bit g.now true) (numbers_if wanted zone))) }
    ensures spare { touched.old.spare ≤ touched.new.spare + 1 }
{
    if wanted {
        mark_zone(blocks, g, true, zone, touched);
    }
}
