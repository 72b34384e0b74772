//! Single writes. Each makes one body anew; a write behind the last block is left out.
ghost use Rattle.std.specs.Prelude.{◌≡◌, ◌+◌, ◌-◌, ◌*◌, ◌/◌, ◌<◌, ◌≤◌, IfSome, length};
ghost use Rattle.std.specs.Option.{option_copied};
ghost use Rattle.byte_fields.specs.Fields.{put, put_bytes, zeros};
ghost use Rattle.byte_fields.specs.Fields.Order.{little};
ghost use Rattle.minix_layout.specs.Widths.{IsWidth, slots_a_block};
ghost use Rattle.volume_ops.specs.Places.{table_block};
ghost use Rattle.volume_model.specs.Edits.{edited, put_inode, put_slot, set_bit, put_entry, clear_from, put_body};

use crate::editing::bodies::body;
use blk_base::{Block, Image};
use byte_fields::put_u16_le;
use minix_layout::{Geometry, Inode, Slot, write_bit, write_inode, write_slot};

/// Writes an inode into the table.
#[tactic(auto, unfolding(crate::specs::Edits::edited))]
pub fn put_inode(blocks: &mut Image, g: &Geometry, number: u16, inode: &Inode)
    requires { 0 < number }
    ensures { blocks.new ≡ edited g.now blocks.old (put_inode number inode.now) }
{
    let block = table_block(g, number);
    if block < blocks.len() {
        let mut bytes = body(blocks, block);
        write_inode(&mut bytes, ((number - 1) % 32) as u8, inode);
        blocks.put(block, bytes);
    }
}

/// Writes slot `at` of a zone of a directory. None frees it.
#[tactic(auto, unfolding(crate::specs::Edits::edited))]
pub fn put_slot(blocks: &mut Image, g: &Geometry, zone: u16, at: u8, slot: Option<&Slot>)
    requires width { IsWidth g.now.width }
    requires place { at < slots_a_block g.now.width }
    requires short { IfSome (option_copied slot) (λ e. length e.name ≤ g.now.width) }
    ensures { blocks.new ≡ edited g.now blocks.old (put_slot zone at (option_copied slot.entry)) }
{
    if u32::from(zone) < blocks.len() {
        let mut bytes = body(blocks, zone.into());
        write_slot(&mut bytes, at, slot, g.width);
        blocks.put(zone.into(), bytes);
    }
}

/// Writes bit `number` of the map, of inodes or of zones, whose first block is `map`.
#[tactic(auto, unfolding(crate::specs::Edits::edited))]
pub fn set_bit(blocks: &mut Image, g: &Geometry, map: u16, number: u16, value: bool)
    ensures { blocks.new ≡ edited g.now blocks.old (set_bit map number value) }
{
    let block = u32::from(map) + u32::from(number / 8192);
    if block < blocks.len() {
        let mut bytes = body(blocks, block);
        write_bit(&mut bytes, number % 8192, value);
        blocks.put(block, bytes);
    }
}

/// Writes entry `at`, of 512, of a zone of numbers.
#[tactic(auto, unfolding(crate::specs::Edits::edited))]
pub fn put_entry(blocks: &mut Image, g: &Geometry, zone: u16, at: u16, number: u16)
    requires { at < 512 }
    ensures { blocks.new ≡ edited g.now blocks.old (put_entry zone at number) }
{
    if u32::from(zone) < blocks.len() {
        let bytes = with_number(blocks.block(zone.into()), at, number);
        blocks.put(zone.into(), bytes);
    }
}

/// Clears the entries of a zone of numbers from entry `at` on.
#[tactic(auto, unfolding(crate::specs::Edits::edited))]
pub fn clear_from(blocks: &mut Image, g: &Geometry, zone: u16, at: u16)
    requires { at ≤ 512 }
    ensures { blocks.new ≡ edited g.now blocks.old (clear_from zone at) }
{
    if u32::from(zone) < blocks.len() {
        let bytes = cleared(blocks.block(zone.into()), at);
        blocks.put(zone.into(), bytes);
    }
}

/// Writes all bytes of a zone.
#[tactic(auto, unfolding(crate::specs::Edits::edited))]
pub fn put_body(blocks: &mut Image, g: &Geometry, zone: u16, content: &Block)
    ensures { blocks.new ≡ edited g.now blocks.old (put_body zone content.now) }
{
    if u32::from(zone) < blocks.len() {
        blocks.put(zone.into(), content.copy());
    }
}

/// The block of the table that has an inode.
pub fn table_block(g: &Geometry, number: u16) -> u32
    requires { 0 < number }
    ensures { result ≡ table_block g.now number }
{
    2 + u32::from(g.imap) + u32::from(g.zmap) + u32::from((number - 1) / 32)
}

// A body with number `at` written.
fn with_number(body: &Block, at: u16, number: u16) -> Block
    requires { at < 512 }
    ensures { result ≡ put little 2 (2 * at) number body.now }
{
    let mut bytes = [0; 1024];
    bytes.copy_from_slice(body.as_slice());
    put_u16_le(&mut bytes, 2 * at as usize, number);
    Block::of(&bytes)
}

// A zone of numbers without those from `at` on.
fn cleared(body: &Block, at: u16) -> Block
    requires { at ≤ 512 }
    ensures { result ≡ put_bytes (2 * at) (zeros (1024 - 2 * at)) body.now }
{
    let mut bytes = [0; 1024];
    let n = 2 * at as usize;
    bytes[..n].copy_from_slice(&body.as_slice()[..n]);
    Block::of(&bytes)
}
