//! Making: an image with a new volume and an empty journal.
ghost use Rattle.std.specs.Prelude.{◌≡◌, ◌≢◌, ◌+◌, ◌<◌, ◌≤◌, ◌⊎◌, ◌↔◌, length, Err, IfOk, IfSome};
ghost use Rattle.minix_layout.specs.Widths.{IsWidth};
ghost use Rattle.minix_layout.specs.Geometry.{IsSound, geometry_made};
ghost use Rattle.minix_layout.specs.Words.{first_zone};
ghost use Rattle.mount_make.specs.Made.{new_journal, made_block, made_image};
ghost use Rattle.mount_make.specs.code.Making.{IsFilled};

use crate::volume_block::volume_block;
use blk_base::Image;
use journal_blocks::{JournalSuper, write_super};
use minix_layout::{Geometry, LEAST_JOURNAL, MOST_JOURNAL};
use std::alloc::Global;

/// Why an image was not made.
#[derive(Clone, Copy, Debug, PartialEq, Eq)]
pub enum MakeFault {
    /// The boot block, the superblock, both maps and the inodes leave no zone of data.
    TooSmall,
    /// The journal has fewer than `LEAST_JOURNAL` blocks, or more than `MOST_JOURNAL`.
    JournalSize,
    NoMemory,
}

/// An image with a new volume of so many inodes and blocks, and behind it an empty journal of so many blocks, with wide
/// tags or not.
///
/// The root is its one directory, with the rights 755 and the time 0.
pub fn make_volume(
    alloc: Global,
    inodes: u16,
    zones: u16,
    journal: u32,
    width: u16,
    wide: bool,
) -> Result<Image, MakeFault>
    requires some { inodes ≢ 0 }
    requires width { IsWidth width }
    ensures image { IfOk result (λ i. i ≡ made_image (geometry_made inodes zones width) journal wide) }
    ensures too_small { (result ≡ Err MakeFault.TooSmall) ↔ (zones ≤ first_zone inodes zones) }
    ensures journal_size { (result ≡ Err MakeFault.JournalSize) ↔ ((first_zone inodes zones < zones) × ((journal < LEAST_JOURNAL) ⊎ (MOST_JOURNAL < journal))) }
{
    let Ok(g) = Geometry::make(inodes, zones, width) else {
        return Err(MakeFault::TooSmall);
    };
    if journal < LEAST_JOURNAL || journal > MOST_JOURNAL {
        return Err(MakeFault::JournalSize);
    }
    match image_of(alloc, &g, journal, wide) {
        Some(image) => Ok(image),
        None => Err(MakeFault::NoMemory),
    }
}

// None is want of memory.
fn image_of(alloc: Global, g: &Geometry, journal: u32, wide: bool) -> Option<Image>
    requires sound { IsSound g.now }
    requires some { 0 < journal }
    requires few { journal ≤ MOST_JOURNAL }
    ensures { IfSome result (λ i. i ≡ made_image g.now journal wide) }
{
    let zones = u32::from(g.zones);
    let Ok(mut image) = Image::zeroed(alloc, zones + journal) else {
        return None;
    };
    put_volume(&mut image, g);
    image.put(zones, write_super(&new_journal(journal, wide)));
    Some(image)
}

// Writes the blocks of a new volume, up to the root's zone. Those behind it are zeros.
fn put_volume(image: &mut Image, g: &Geometry)
    requires sound { IsSound g.now }
    requires room { g.now.zones ≤ length image.old }
    ensures { IsFilled (made_block g.now) (g.now.first + 1) image.old image.new }
{
    for block in 0..u32::from(g.first) + 1 {
        image.put(block, volume_block(g, block));
    }
}

/// A journal of so many blocks whose log is empty, and whose first transaction has the sequence 1. It has revoke blocks,
/// and wide tags or not.
pub fn new_journal(blocks: u32, wide: bool) -> JournalSuper
    ensures { result ≡ new_journal blocks wide }
{
    JournalSuper {
        maxlen: blocks,
        first: 1,
        sequence: 1,
        start: 0,
        incompat: if wide { 3 } else { 1 },
    }
}
