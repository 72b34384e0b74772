//! In which zones of numbers a cut changes a number.
ghost use Rattle.std.specs.Prelude.{◌≡◌, ◌≤◌, ◌&&◌, if◌then◌else◌, Some, None};
ghost use Rattle.volume_model.specs.Counts.{keeps_below, indices_of};
ghost use Rattle.volume_model.specs.Cut.{cuts, cut_told, has_numbers};
ghost use Rattle.volume_model.specs.Volume.{zone_in};
ghost use Rattle.volume_model.specs.editing.Zones.{written_list};

use crate::editing::bodies::{has_numbers, zone_entry};
use crate::editing::cutting::end_of;
use crate::editing::kept::{keeps_double, keeps_indirect, keeps_inner};
use blk_base::Image;
use minix_layout::Inode;
use volume_ops::Mapped;

/// The zones of numbers that stay in a cut and in which it changes a number: the one that the inode names, and one below
/// that.
#[derive(Clone, Copy, Debug, PartialEq, Eq)]
pub struct WrittenZones {
    pub inner: Option<u16>,
    pub outer: Option<u16>,
}

/// In which zones of numbers `cut_to` changes a number in a cut at block `from`.
pub fn zones_written(blocks: &Image, inode: &Inode, zones: &[Mapped], from: u32) -> WrittenZones
    ensures { written_list result ≡ cut_told blocks.now (λ x. zone_in blocks.now inode.now x)
        (keeps_below (indices_of zones.now) from) (cuts (keeps_below (indices_of zones.now) from) from) }
{
    if from < 7 {
        return WrittenZones {
            inner: None,
            outer: None,
        };
    }
    if from < 519 {
        let keep = keeps_indirect(zones, from);
        return WrittenZones {
            inner: None,
            outer: if_cut(blocks, keep, inode.zones.zone(7), (from - 7) as u16),
        };
    }
    if from < 262663 {
        let j = ((from - 519) / 512) as u16;
        let outer = inode.zones.zone(8);
        let inner = zone_entry(blocks, outer, j);
        let group = keeps_inner(zones, from, j.into());
        let at = ((from - 519) % 512) as u16;
        return WrittenZones {
            inner: if_cut(blocks, group, inner, at),
            outer: if_cut(blocks, keeps_double(zones, from), outer, end_of(group, j)),
        };
    }
    WrittenZones {
        inner: None,
        outer: None,
    }
}

// A zone of numbers that stays, where it has a number from `at` on.
fn if_cut(blocks: &Image, keep: bool, zone: u16, at: u16) -> Option<u16>
    requires { at ≤ 512 }
    ensures { result ≡ (if keep && has_numbers blocks.now zone at then Some zone else None) }
{
    if keep && has_numbers(blocks, zone, at) {
        Some(zone)
    } else {
        None
    }
}
