//! The blocks of a file go, from an index on. No call takes memory.
ghost use Rattle.std.specs.Prelude.{◌≡◌, ◌<◌, ◌≤◌, suc, slice_index, if◌then◌else◌};
ghost use Rattle.volume_model.specs.Counts.{keeps_below, indices_of};
ghost use Rattle.volume_model.specs.Cut.{cut_zones, cut_to};
ghost use Rattle.volume_model.specs.editing.code.Cutting.{keeps_listed, clear_step};

use crate::editing::bodies::zone_entry;
use crate::editing::edits::clear_from;
use crate::editing::kept::{keeps_double, keeps_indirect, keeps_inner};
use blk_base::Image;
use minix_layout::{Geometry, Inode, Zones};
use volume_ops::Mapped;

/// All blocks from index `from` on go from the map of a file whose mapped blocks these are. A zone of numbers stays
/// where it leads to a mapped block below `from`; one that goes is not written.
pub fn cut_to(blocks: &mut Image, g: &Geometry, inode: &mut Inode, zones: &[Mapped], from: u32)
    ensures { record { blocks = blocks.new; inode = inode.new } ≡
        cut_to g.now (keeps_below (indices_of zones.now) from) (record { blocks = blocks.old; inode = inode.old }) from }
{
    let left = zones_left(&inode.zones, zones, from);
    if from < 7 {
        inode.zones = left;
        return;
    }
    if from < 519 {
        let at = (from - 7) as u16;
        clear_step(
            blocks,
            g,
            keeps_indirect(zones, from),
            inode.zones.zone(7),
            at,
        );
        inode.zones = left;
        return;
    }
    if from < 262663 {
        let j = ((from - 519) / 512) as u16;
        let group = keeps_inner(zones, from, j.into());
        let outer = inode.zones.zone(8);
        let pointer_block = zone_entry(blocks, outer, j);
        clear_step(blocks, g, group, pointer_block, ((from - 519) % 512) as u16);
        clear_step(
            blocks,
            g,
            keeps_double(zones, from),
            outer,
            end_of(group, j),
        );
        inode.zones = left;
        return;
    }
    inode.zones = left;
}

// The nine zones afterwards.
fn zones_left(z: &Zones, zones: &[Mapped], from: u32) -> Zones
    ensures { result ≡ cut_zones (keeps_listed zones.now from) z.now }
{
    Zones::of([
        kept(z, 0, 0 < from),
        kept(z, 1, 1 < from),
        kept(z, 2, 2 < from),
        kept(z, 3, 3 < from),
        kept(z, 4, 4 < from),
        kept(z, 5, 5 < from),
        kept(z, 6, 6 < from),
        kept(z, 7, keeps_indirect(zones, from)),
        kept(z, 8, keeps_double(zones, from)),
    ])
}

fn kept(zones: &Zones, k: usize, keep: bool) -> u16
    requires { k < 9 }
    ensures { result ≡ (if keep then slice_index zones.now k else 0) }
{
    if keep { zones.zone(k) } else { 0 }
}

/// The first entry of the doubly indirect zone that goes: that of group j, or the next one where the group stays.
pub fn end_of(stays: bool, j: u16) -> u16
    requires { j < 512 }
    ensures value { result ≡ (if stays then suc j else j) }
    ensures low { result ≤ 512 }
{
    if stays { j + 1 } else { j }
}

// Clears a zone of numbers from an entry on, where it stays.
#[tactic(auto, unfolding(crate::specs::editing::code::Cutting::clear_step))]
fn clear_step(blocks: &mut Image, g: &Geometry, keep: bool, zone: u16, at: u16)
    requires { at ≤ 512 }
    ensures { blocks.new ≡ clear_step g.now blocks.old keep zone at }
{
    if keep {
        clear_from(blocks, g, zone, at);
    }
}
