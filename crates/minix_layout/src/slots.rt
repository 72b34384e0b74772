//! The blocks of directories of a Minix V1 file system: 64 slots of 16 bytes in a block, or 32 of 32.
//!
//! | place | bytes | what |
//! |---|---|---|
//! | 0 | 2 | the number of an inode; 0 where the slot is free |
//! | 2 | 14 or 30 | a name; it ends at its first byte of 0, if there is one, and what follows is not read |

ghost use Rattle.std.specs.Prelude.{◌≡◌, ◌≢◌, ℕ, ◌^◌, ◌<◌, ◌==◌, ◌↔◌, ◌+◌, ◌≤◌, Ok, Err, None, IfOk, IfSome, IfErr, IsTrue, length, position};
ghost use Rattle.std.specs.List.{before_first};
ghost use Rattle.std.specs.Option.{option_copied};
ghost use Rattle.byte_fields.specs.Fields.{record_at, put_record};
ghost use Rattle.minix_layout.specs.Slots.{slot_of, slot_bytes, slot_of_size, inode_in, name_in, is_bad_name, IsEntry, IsNamed, IsReadable};
ghost use Rattle.minix_layout.specs.Widths.{IsWidth, slot_size, slots_a_block};

use crate::parts::{part, put_part};
use crate::widths::slot_size;
use crate::{LayoutFault, Name, Slot};
use blk_base::Block;
use byte_fields::{put_u16_le, u16_at_le, zeroed};

/// The slot at place `at` of a block of a directory with names of `width` bytes, 14 or 30. None is a free slot,
/// whatever name stands in it. The one fault is `BadSlot`: the slot is in use, and its name is empty or has a `/`.
pub fn read_slot(b: &Block, at: u8, width: u16) -> Result<Option<Slot>, LayoutFault>
    requires width { IsWidth width }
    requires place { at < slots_a_block width }
    ensures value { result ≡ slot_of width (record_at (slot_size width) at b.now) }
    ensures entry { IfOk result (λ o. IfSome o (λ s. IsEntry width s)) }
    ensures free { (result ≡ Ok None) ↔ (inode_in (record_at (slot_size width) at b.now) ≡ 0) }
    ensures fault { IfErr result (λ f. f ≡ LayoutFault.BadSlot) }
    ensures bad { (result ≡ Err LayoutFault.BadSlot) ↔
        ((0 < inode_in (record_at (slot_size width) at b.now)) ×
        IsTrue (is_bad_name (name_in width (record_at (slot_size width) at b.now)))) }
{
    let size = slot_size(width) as usize;
    slot_in(part(b, size * at as usize, size), width)
}

/// Writes the slot at place `at` of a block of a directory with names of `width` bytes, 14 or 30, and no other byte.
/// None frees the slot: it gets bytes of 0. Behind a name come bytes of 0.
pub fn write_slot(b: &mut Block, at: u8, s: Option<&Slot>, width: u16)
    requires width { IsWidth width }
    requires place { at < slots_a_block width }
    requires short { IfSome (option_copied s) (λ e. length e.name ≤ width) }
    ensures value { b.new ≡ put_record (slot_size width) at (slot_bytes width (option_copied s.entry)) b.old }
    ensures read { IfSome (option_copied s.entry) (λ e. IsReadable e) →
        slot_of width (record_at (slot_size width) at b.new) ≡ Ok (option_copied s.entry) }
    ensures others { (k : ℕ) → k < slots_a_block width → at ≢ k →
        slot_of width (record_at (slot_size width) k b.new) ≡ slot_of width (record_at (slot_size width) k b.old) }
{
    put_sized(b, at, s, width);
}

// The same, with the length of the block.
fn put_sized(b: &mut Block, at: u8, s: Option<&Slot>, width: u16)
    requires width { IsWidth width }
    requires place { at < slots_a_block width }
    requires short { IfSome (option_copied s) (λ e. length e.name ≤ width) }
    ensures value { b.new ≡ put_record (slot_size width) at (slot_bytes width (option_copied s.entry)) b.old }
    ensures size { length b.old ≡ 1024 }
    ensures entry { IfSome (option_copied s.entry) (λ e. IsReadable e → (e.inode < 2 ^ 16) × IsNamed e) }
{
    if width == 14 {
        put_part(b, 16 * at as usize, &slot_record::<16>(s));
    } else {
        put_part(b, 32 * at as usize, &slot_record::<32>(s));
    }
}

// What the bytes of a slot say.
#[tactic(auto, unfolding(crate::specs::Slots::slot_of))]
fn slot_in(bytes: &[u8], width: u16) -> Result<Option<Slot>, LayoutFault>
    requires narrow { width ≤ 30 }
    requires size { length bytes.now ≡ width + 2 }
    ensures value { result ≡ slot_of width bytes.now }
    ensures entry { IfOk result (λ o. IfSome o (λ s. IsEntry width s)) }
{
    let inode = u16_at_le(bytes, 0);
    if inode == 0 {
        return Ok(None);
    }
    let name = before_zero(&bytes[2..width as usize + 2]);
    if name.contains(&b'/') {
        return Err(LayoutFault::BadSlot);
    }
    match Name::of(name) {
        Some(name) => Ok(Some(Slot { inode, name })),
        None => Err(LayoutFault::BadSlot),
    }
}

// The bytes before the first that is 0.
fn before_zero(bytes: &[u8]) -> &[u8]
    ensures value { result.now ≡ before_first (λ b. b == 0) bytes.now }
    ensures short { length result.now ≤ length bytes.now }
{
    match first_zero(bytes) {
        Some(end) => &bytes[..end],
        None => bytes,
    }
}

// The place of the first byte that is 0.
fn first_zero(bytes: &[u8]) -> Option<usize>
    ensures value { result ≡ position (λ b. b == 0) bytes.now }
    ensures within { IfSome result (λ at. at < length bytes.now) }
{
    bytes.iter().position(|b| *b == 0)
}

// So many bytes of a slot.
#[tactic(auto, unfolding(crate::specs::Slots::slot_of_size))]
fn slot_record<const N: usize>(s: Option<&Slot>) -> [u8; N]
    requires size { 2 ≤ N }
    requires short { IfSome (option_copied s) (λ e. length e.name + 2 ≤ N) }
    ensures value { result ≡ slot_of_size N (option_copied s.entry) }
    ensures named { IfSome (option_copied s.entry) (λ e. IsNamed e) }
    ensures entry { IfSome (option_copied s.entry) (λ e. IsReadable e → (e.inode < 2 ^ 16) × IsNamed e) }
{
    let mut bytes = zeroed::<N>();
    if let Some(s) = s {
        let name = s.name.as_slice();
        let all = &mut bytes[..];
        all[2..2 + name.len()].copy_from_slice(name);
        put_u16_le(all, 0, s.inode);
    }
    bytes
}
