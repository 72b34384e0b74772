//! The blocks of a directory with names of 30 bytes.
ghost use Rattle.std.specs.Prelude.{◌≡◌, ◌<◌, ◌≤◌, length, Some};
ghost use Rattle.byte_fields.specs.Fields.{put_record};
ghost use Rattle.minix_layout.specs.Slots.{slot_bytes};
ghost use Rattle.blk_base.specs.Block.{filled};
ghost use Rattle.widening.specs.Written.{put_slots, put_numbers};

use blk_base::Block;
use byte_fields::put_u16_le;
use minix_layout::{Slot, write_slot};

/// The bytes of a name in the widened volume.
pub(crate) const WIDE: u16 = 30;

/// How many slots a zone has.
pub(crate) const SLOTS: usize = 32;

// A block with at most 32 slots, and zeros behind them.
pub(crate) fn slots_block(slots: &[Slot]) -> Block
    requires { length slots.now ≤ 32 }
    ensures { result ≡ put_slots 0 slots.now (filled 0) }
{
    let mut block = Block::fill(0);
    for (at, slot) in slots.iter().enumerate() {
        put_slot(&mut block, at as u8, slot);
    }
    block
}

// Writes one slot.
fn put_slot(block: &mut Block, at: u8, slot: &Slot)
    requires { at < 32 }
    ensures { block.new ≡ put_record 32 at (slot_bytes 30 (Some slot.now)) block.old }
{
    // By this call the name tells that it has at most 30 bytes.
    let _ = slot.name.as_slice();
    write_slot(block, at, Some(slot), WIDE);
}

// A block with at most 512 numbers of zones, and zeros behind them.
pub(crate) fn numbers_block(zones: &[u16]) -> Block
    requires { length zones.now ≤ 512 }
    ensures { result ≡ put_numbers 0 zones.now (filled 0) }
{
    let mut bytes = [0; 1024];
    for (at, zone) in zones.iter().enumerate() {
        put_u16_le(&mut bytes, 2 * at, *zone);
    }
    Block::of(&bytes)
}
