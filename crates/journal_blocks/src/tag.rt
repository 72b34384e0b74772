//! The tags of a descriptor, as they are read.
//!
//! | place | bytes | what |
//! |---|---|---|
//! | 0 | 4 | the block that a body is for, or the low half of its number |
//! | 4 | 2 | a checksum; not read |
//! | 6 | 2 | flags: 1, the body is escaped; 2, the uuid is that of the tag before; 4, deleted, not read; 8, the last tag |
//! | 8 | 4 | of a wide tag alone: the high half of the block's number |
//! | 8, of a wide tag 12 | 16 | a uuid, not there where the flag 2 is set; not read |
ghost use Rattle.std.specs.Prelude.{◌≡◌, ◌<◌, ◌≤◌, ◌^◌, length, IfOk};
ghost use Rattle.journal_blocks.specs.Blocks.{tags_of, tag_in, block_number, tag_size, front_size, is_whole, flags_in, has_flag};

use blk_base::NoMemory;
use byte_fields::{u16_at_be, u32_at_be};
use std::alloc::Global;

/// An entry of a descriptor: the block that a body of the log is for, and whether the body's first four bytes are the
/// magic number, in whose place zeros are stored.
#[derive(Clone, Copy, Debug, PartialEq, Eq)]
pub struct Tag {
    pub block: u64,
    pub escaped: bool,
}

// The tags of a descriptor, a block of 1,024 bytes.
pub(crate) fn tags_in(alloc: Global, bytes: &[u8], wide: bool) -> Result<Vec<Tag>, NoMemory>
    requires { length bytes.now ≡ 1024 }
    ensures { IfOk result (λ v. v.items ≡ tags_of wide bytes.now) }
{
    let mut tags = Vec::new(alloc);
    let mut rest = &bytes[12..];
    for i in 0..126usize {
        if !is_whole(rest, wide) {
            return Ok(tags);
        }
        tags.push(tag_in(rest, wide))?;
        if is_last(rest) {
            return Ok(tags);
        }
        rest = &rest[tag_size(rest, wide)..];
    }
    Ok(tags)
}

// Whether a whole tag stands here.
fn is_whole(bytes: &[u8], wide: bool) -> bool
    ensures { result ≡ is_whole wide bytes.now }
{
    bytes.len() >= front_size(wide) && bytes.len() >= tag_size(bytes, wide)
}

// How many bytes a tag has before its uuid.
fn front_size(wide: bool) -> usize
    ensures value { result ≡ front_size wide }
    ensures some { 8 ≤ result }
    ensures few { result ≤ 12 }
{
    if wide { 12 } else { 8 }
}

// How many bytes the tag has that stands here.
#[tactic(auto, unfolding(byte_fields::specs::Fields::number_at))]
fn tag_size(bytes: &[u8], wide: bool) -> usize
    requires { 8 ≤ length bytes.now }
    ensures { result ≡ tag_size wide bytes.now }
{
    let front = front_size(wide);
    if u16_at_be(bytes, 6) / 2 % 2 == 1 {
        front
    } else {
        front + 16
    }
}

// Whether the tag that stands here is the descriptor's last one.
fn is_last(bytes: &[u8]) -> bool
    requires { 8 ≤ length bytes.now }
    ensures { result ≡ has_flag 8 (flags_in bytes.now) }
{
    u16_at_be(bytes, 6) / 8 % 2 == 1
}

// The tag that stands here.
fn tag_in(bytes: &[u8], wide: bool) -> Tag
    requires { front_size wide ≤ length bytes.now }
    ensures { result ≡ tag_in wide bytes.now }
{
    Tag {
        block: block_number(bytes, wide),
        escaped: u16_at_be(bytes, 6) / 1 % 2 == 1,
    }
}

// The number of the block that the tag which stands here is for.
fn block_number(bytes: &[u8], wide: bool) -> u64
    requires { front_size wide ≤ length bytes.now }
    ensures { result ≡ block_number wide bytes.now }
{
    let low = u32_at_be(bytes, 0) as u64;
    if wide {
        u32_at_be(bytes, 8) as u64 * 0x1_0000_0000 + low
    } else {
        low
    }
}
