//! The map of a file: the zone of each of its blocks.
ghost use Rattle.std.specs.Prelude.{◌≡◌, ◌<◌};
ghost use Rattle.minix_tables.specs.inodes.Map.{zone_at, entry_behind};

use crate::inodes::ZoneBlocks;
use minix_layout::Inode;

// The first block behind the indirect zone.
const INDIRECT: u32 = 7;

// The first block behind the doubly indirect zone.
const DOUBLE: u32 = 7 + 512;

// How many blocks the map of a file has.
const END: u32 = 7 + 512 + 512 * 512;

/// The zone of the file's block `index`, a block of 1,024 bytes; 0 for a hole. What lies behind a hole is a
/// hole, and so is each block from 262,663 on.
#[tactic(auto, unfolding(crate::specs::inodes::Map::zone_at))]
pub fn zone_of<B: ZoneBlocks>(i: &Inode, blocks: &B, index: u32) -> u16
    ensures value { result ≡ zone_at (B.entries blocks.now) i.now.zones index }
{
    if index < INDIRECT {
        return i.zones.zone(index as usize);
    }
    if index < DOUBLE {
        return entry_behind(blocks, i.zones.zone(7), (index - INDIRECT) as u16);
    }
    if index < END {
        let at = index - DOUBLE;
        let (outer, inner) = (at / 512, at % 512);
        let zone = entry_behind(blocks, i.zones.zone(8), outer as u16);
        return entry_behind(blocks, zone, inner as u16);
    }
    0
}

// The number at place `at` of a zone of numbers, 0 where the zone is a hole.
fn entry_behind<B: ZoneBlocks>(blocks: &B, zone: u16, at: u16) -> u16
    requires { at < 512 }
    ensures { result ≡ entry_behind (B.entries blocks.now) zone at }
{
    if zone == 0 { 0 } else { blocks.entry(zone, at) }
}
