//! The bytes of a file, one block after the other.
ghost use Rattle.std.specs.Prelude.{◌≡◌, ◌+◌, ◌-◌, ◌≤◌, ◌++◌, List, ℕ, length, map, take, drop, replicate, IfOk, OnOk, IfSome, IsNone};
ghost use Rattle.std.specs.List.{range_with_len};
ghost use Rattle.std.specs.Option.{option_map};
ghost use Rattle.blk_base.specs.Members.{IsAscending};
ghost use Rattle.number_sets.specs.laws.Keyed.{IsKeyPlace};
ghost use Rattle.tree_model.specs.Calls.{block_or_zeros};
ghost use Rattle.tree_model.specs.Maps.{at_number};
ghost use Rattle.volume_ops.specs.declared.found.Mapped.{Mapped};
ghost use Rattle.volume_ops.specs.Volume.{disk_of, bodies_of};
ghost use Rattle.volume_model.specs.Trees.{in_order};
ghost use Rattle.volume_in_use.specs.reads.code.Pieces.{byte_of, zone_body};

use blk_base::{Block, Image, NoMemory};
use std::alloc::Global;
use volume_ops::Mapped;

// The place of a block in a file's list, or else the place where it would stand.
fn place_of(zones: &[Mapped], index: u32) -> Result<usize, usize>
    requires { IsAscending (λ (m : Mapped). m.index) zones.now }
    ensures { IsKeyPlace (λ (m : Mapped). m.index) zones.now index result }
{
    zones.binary_search_by_key(&index, |m| m.index)
}

// The zone of a block of a file, if it is mapped.
fn zone_of(zones: &[Mapped], index: u32) -> Option<u16>
    requires { IsAscending (λ (m : Mapped). m.index) zones.now }
    ensures { (blocks : List (List ℕ)) → option_map (disk_of blocks) result ≡ at_number (in_order (bodies_of blocks zones.now)) index }
{
    match place_of(zones, index) {
        Ok(at) => Some(zones[at].zone),
        Err(_) => None,
    }
}

// The bytes of a zone, but where all are zeros, since there is no zone or it lies behind the last block.
fn body_of(blocks: &Image, zone: Option<u16>) -> Option<&Block>
    ensures body { IfSome result (λ b. zone_body blocks.now zone ≡ b.now) }
    ensures zeros { IsNone result → zone_body blocks.now zone ≡ replicate 1024 0 }
{
    let zone = zone?;
    if u32::from(zone) < blocks.len() {
        Some(blocks.block(zone.into()))
    } else {
        None
    }
}

// Puts some bytes of a zone behind others.
fn push_piece(
    bytes: &mut Vec<u8>,
    blocks: &Image,
    zone: Option<u16>,
    from: usize,
    len: usize,
) -> Result<(), NoMemory>
    requires { from + len ≤ 1024 }
    ensures bytes { OnOk result (bytes.new.items ≡ bytes.old.items ++ take len (drop from (zone_body blocks.now zone))) }
    ensures whole { OnOk result (length (zone_body blocks.now zone) ≡ 1024) }
{
    match body_of(blocks, zone) {
        Some(body) => bytes.extend_from_slice(&body.as_slice()[from..from + len])?,
        None => bytes.extend_from_slice(&[0; 1024][from..from + len])?,
    }
    Ok(())
}

/// The bytes of a file from `off` on and before `end`, whatever its size is; a hole reads as zeros.
pub fn bytes_between(
    alloc: Global,
    blocks: &Image,
    zones: &[Mapped],
    off: u32,
    end: u32,
) -> Result<Vec<u8>, NoMemory>
    requires { IsAscending (λ (m : Mapped). m.index) zones.now }
    ensures { IfOk result (λ bytes. bytes.items ≡ map (byte_of (in_order (bodies_of blocks.now zones.now))) (range_with_len off (end - off))) }
{
    let mut bytes = Vec::with_capacity(alloc, end.saturating_sub(off) as usize)?;
    let mut at = off;
    while at < end {
        let from = at % 1024;
        let len = (1024 - from).min(end - at);
        let zone = zone_of(zones, at / 1024);
        push_piece(&mut bytes, blocks, zone, from as usize, len as usize)?;
        at += len;
    }
    Ok(bytes)
}
