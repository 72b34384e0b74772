//! How many zones a write would take.
ghost use Rattle.std.specs.Prelude.{◌≡◌, ◌≤◌, ◌<◌, ◌+◌, ◌-◌, ◌*◌, ◌&&◌, nat_eq, ℕ, List};
ghost use Rattle.number_sets.specs.Sets.{IsRising};
ghost use Rattle.tree_model.specs.Calls.{largest_size};
ghost use Rattle.volume_model.specs.Volume.{inner, zone_in};
ghost use Rattle.volume_model.specs.laws.Counts.{IsIndexed};
ghost use Rattle.volume_in_use.specs.bytes.MayWrite.{wanted_zones};
ghost use Rattle.volume_in_use.specs.bytes.code.Wants.{data_holes, named_holes, group_holes, is_reached};

use crate::bytes::writing::block_count;
use crate::now::block_zone;
use blk_base::Image;
use minix_layout::Inode;
use volume_model::editing::zone_entry;

/// How many zones a write of so many bytes from `off` on takes in a file with this inode: one for each block that is a
/// hole, and one for each zone of numbers on the way to one that is not there.
pub fn wanted(blocks: &Image, inode: &Inode, off: u32, len: u32) -> u32
    requires { off + len ≤ largest_size }
    ensures { (indices : List ℕ) → IsRising indices → IsIndexed (λ x. zone_in blocks.now inode.now x) indices →
        result ≡ wanted_zones indices off len }
{
    let count = block_count(off, len);
    if count == 0 {
        return 0;
    }
    let first = off / 1024;
    let end = first + count;
    data_holes(blocks, inode, first, end)
        + named_holes(inode, first, end)
        + group_holes(blocks, inode, first, end)
}

// How many of the blocks are holes.
fn data_holes(blocks: &Image, inode: &Inode, first: u32, end: u32) -> u32
    requires { first ≤ end }
    ensures count { result ≡ data_holes (λ x. zone_in blocks.now inode.now x) first end }
    ensures few { result ≤ end - first }
{
    let mut holes = 0;
    for index in first..end {
        holes += u32::from(block_zone(blocks, inode, index) == 0);
    }
    holes
}

// How many of the two zones of numbers that the inode names are wanted.
fn named_holes(inode: &Inode, first: u32, end: u32) -> u32
    ensures count { (blocks : List (List ℕ)) → result ≡ named_holes (λ x. zone_in blocks inode.now x) first end }
    ensures few { result ≤ 2 }
{
    u32::from(first < 519 && 7 < end && inode.zones.zone(7) == 0)
        + u32::from(519 < end && inode.zones.zone(8) == 0)
}

// How many zones of numbers below the doubly indirect one are wanted.
fn group_holes(blocks: &Image, inode: &Inode, first: u32, end: u32) -> u32
    ensures count { result ≡ group_holes (λ x. zone_in blocks.now inode.now x) first end 0 512 }
    ensures few { result ≤ 512 }
{
    let mut holes = 0;
    for group in 0_u16..512 {
        // Neither this group nor one behind it is written.
        if end <= 519 + 512 * u32::from(group) {
            return holes;
        }
        holes += u32::from(lacks_group(blocks, inode, first, end, group));
    }
    holes
}

// A group of 512 blocks has one of them, and its zone of numbers is not there.
fn lacks_group(blocks: &Image, inode: &Inode, first: u32, end: u32, group: u16) -> bool
    requires { group < 512 }
    ensures { result ≡ (is_reached first end group && nat_eq (zone_in blocks.now inode.now (inner group)) 0) }
{
    let low = 519 + 512 * u32::from(group);
    (first < 512 + low && low < end) && zone_entry(blocks, inode.zones.zone(8), group) == 0
}
