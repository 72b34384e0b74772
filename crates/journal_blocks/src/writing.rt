//! The blocks of the log that are no bodies, as they are written.
ghost use Rattle.std.specs.Prelude.{◌≡◌, ◌+◌, ◌*◌, ◌<◌, ◌≤◌, ◌^◌, ◌++◌, [], All, Bool, Ok, length, if◌then◌else◌};
ghost use Rattle.byte_fields.specs.Fields.{zeros, bytes_of};
ghost use Rattle.byte_fields.specs.Fields.Order.{big};
ghost use Rattle.journal_blocks.specs.declared.log_block.LogBlock.{LogBlock};
ghost use Rattle.journal_blocks.specs.Blocks.{log_block_of, front_size, number_size};
ghost use Rattle.journal_blocks.specs.Written.{header_bytes, tag_bytes, high_half, flags_of, descriptor_block, revoke_block, commit_block, most_tags, most_revokes};

use crate::Tag;
use crate::cursor::Cursor;
use crate::header::{COMMIT, DESCRIPTOR, MAGIC, REVOKE};
use crate::log_block::number_size;
use blk_base::Block;

/// The most tags of a descriptor that is written.
pub fn most_tags(wide: bool) -> usize
    ensures { result ≡ most_tags wide }
{
    if wide { 82 } else { 122 }
}

/// The most blocks of a revoke block: as many as fit.
pub fn most_revokes(wide: bool) -> usize
    ensures { result ≡ most_revokes wide }
{
    if wide { 126 } else { 252 }
}

/// A descriptor with wide tags or narrow ones: the tags behind the header, the first one with a uuid of zeros, and
/// zeros behind them.
pub fn write_descriptor(seq: u32, tags: &[Tag], wide: bool) -> Block
    requires some { 0 < length tags.now }
    requires few { length tags.now ≤ most_tags wide }
    requires low { All (λ t. t.block < 2 ^ 32) tags.now }
    ensures value { result ≡ descriptor_block wide seq tags.now }
    ensures read { log_block_of wide result ≡ Ok (LogBlock.Descriptor seq tags.now) }
{
    let mut block = header(DESCRIPTOR, seq);
    for (i, tag) in tags.iter().enumerate() {
        put_tag(&mut block, tag, wide, i == 0, i + 1 == tags.len());
    }
    block.block()
}

/// A revoke block: the count of its bytes and the blocks behind the header, and zeros behind them.
pub fn write_revoke(seq: u32, blocks: &[u32], wide: bool) -> Block
    requires some { 0 < length blocks.now }
    requires few { length blocks.now ≤ most_revokes wide }
    ensures value { result ≡ revoke_block wide seq blocks.now }
    ensures read { log_block_of wide result ≡ Ok (LogBlock.Revoke seq blocks.now) }
{
    let mut block = header(REVOKE, seq);
    block.put_u32(16 + number_size(wide) * blocks.len() as u32);
    for revoked in blocks {
        put_number(&mut block, *revoked, wide);
    }
    block.block()
}

/// A commit block: a header, and zeros behind it.
pub fn write_commit(seq: u32) -> Block
    ensures value { result ≡ commit_block seq }
    ensures read { (wide : Bool) → log_block_of wide result ≡ Ok (LogBlock.Commit seq) }
{
    header(COMMIT, seq).block()
}

// A block of this type, as far as its header.
fn header(kind: u32, sequence: u32) -> Cursor
    ensures value { result ≡ header_bytes kind sequence }
    ensures len { length result ≡ 12 }
{
    let mut block = Cursor::new();
    block.put_u32(MAGIC);
    block.put_u32(kind);
    block.put_u32(sequence);
    block
}

// Appends a tag. The first one has a uuid.
fn put_tag(block: &mut Cursor, tag: &Tag, wide: bool, first: bool, last: bool)
    requires room { length block.old + (front_size wide + (if first then 16 else 0)) ≤ 1024 }
    requires low { tag.now.block < 2 ^ 32 }
    ensures { block.new ≡ block.old ++ tag_bytes wide first last tag.now }
{
    block.put_u32(tag.block as u32);
    block.put_u16(0);
    block.put_u16(flags(tag.escaped, first, last));
    put_high_half(block, tag, wide);
    put_uuid(block, first);
}

// Appends the high half of the number of a tag's block, to a wide tag.
fn put_high_half(block: &mut Cursor, tag: &Tag, wide: bool)
    requires { length block.old + (if wide then 4 else 0) ≤ 1024 }
    ensures value { block.new ≡ block.old ++ high_half wide tag.now }
    ensures len { length block.new ≡ length block.old + (if wide then 4 else 0) }
{
    if wide {
        block.put_u32((tag.block / 0x1_0000_0000) as u32);
    }
}

// Appends a uuid of zeros to the first tag.
fn put_uuid(block: &mut Cursor, first: bool)
    requires { length block.old + (if first then 16 else 0) ≤ 1024 }
    ensures { block.new ≡ block.old ++ zeros (if first then 16 else 0) }
{
    if first {
        block.skip(16);
    }
}

// Appends a block number of a revoke block.
fn put_number(block: &mut Cursor, n: u32, wide: bool)
    requires { length block.old + number_size wide ≤ 1024 }
    ensures value { block.new ≡ block.old ++ bytes_of big (number_size wide) n }
    ensures len { length block.new ≡ length block.old + number_size wide }
    ensures fits { n < 2 ^ 32 }
{
    if wide {
        block.put_u64(n as u64);
    } else {
        block.put_u32(n);
    }
}

// The flags of a tag: 1, its body is escaped; 2, its uuid is the one before; 8, it is the last one.
fn flags(escaped: bool, first: bool, last: bool) -> u16
    ensures { result ≡ flags_of escaped first last }
{
    let escaped = if escaped { 1 } else { 0 };
    let same = if first { 0 } else { 2 };
    let last = if last { 8 } else { 0 };
    escaped + same + last
}
