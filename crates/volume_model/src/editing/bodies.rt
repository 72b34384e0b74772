//! What stands in the blocks of a volume.
ghost use Rattle.std.specs.Prelude.{◌≡◌, ◌<◌, ◌≤◌, nat_eq, not};
ghost use Rattle.std.specs.List.{list_any};
ghost use Rattle.minix_tables.specs.inodes.Map.{entry_behind};
ghost use Rattle.volume_ops.specs.Volume.{disk_of};
ghost use Rattle.volume_model.specs.Cut.{has_numbers};
ghost use Rattle.volume_model.specs.Ways.{entry_of};

use blk_base::{Block, Image};
use byte_fields::u16_at_le;

// The bytes of a block; zeros behind the last one.
pub fn body(blocks: &Image, block: u32) -> Block
    ensures { result ≡ disk_of blocks.now block }
{
    if block < blocks.len() {
        blocks.block(block).copy()
    } else {
        Block::fill(0)
    }
}

/// The number at place `at` of a zone of numbers, of 512. Behind a hole, zone 0, all are 0.
pub fn zone_entry(blocks: &Image, zone: u16, at: u16) -> u16
    requires { at < 512 }
    ensures { result ≡ entry_behind (entry_of blocks.now) zone at }
{
    if zone == 0 {
        0
    } else {
        number_in(blocks, zone.into(), at)
    }
}

/// A byte of a zone of numbers is not 0, from number `at` of it on.
#[tactic(auto, unfolding(crate::specs::Cut::has_numbers))]
pub fn has_numbers(blocks: &Image, zone: u16, at: u16) -> bool
    requires { at ≤ 512 }
    ensures { result ≡ has_numbers blocks.now zone at }
{
    if u32::from(zone) < blocks.len() {
        let body = blocks.block(zone.into()).as_slice();
        some_byte(&body[2 * at as usize..])
    } else {
        false
    }
}

// One of these bytes is not 0.
fn some_byte(bytes: &[u8]) -> bool
    ensures { result ≡ list_any (λ x. not (nat_eq x 0)) bytes.now }
{
    bytes.iter().any(|byte| *byte != 0)
}

// A number of a block, read where it stands; 0 behind the last block.
fn number_in(blocks: &Image, block: u32, at: u16) -> u16
    requires { at < 512 }
    ensures { result ≡ entry_of blocks.now block at }
{
    if block < blocks.len() {
        u16_at_le(blocks.block(block).as_slice(), 2 * at as usize)
    } else {
        0
    }
}
