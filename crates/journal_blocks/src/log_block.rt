//! The blocks of the log that are no bodies, as they are read.
ghost use Rattle.std.specs.Prelude.{◌≡◌, ◌≢◌, ◌/◌, ◌<◌, ◌≤◌, ◌↔◌, Ok, Err, ℕ, length, IfOk, IsOk, false};
ghost use Rattle.journal_blocks.specs.Header.{magic_of, kind_of, sequence_of};
ghost use Rattle.journal_blocks.specs.Blocks.{log_block_of, is_count, count_of, number_size, revoked_at, revoked_of};

use crate::header::{COMMIT, DESCRIPTOR, MAGIC, REVOKE};
use crate::numbers::u64_at_be;
use crate::tag::tags_in;
use crate::{JournalFault, NumberList, TagList};
use blk_base::{Block, NoMemory};
use byte_fields::u32_at_be;
use std::alloc::Global;

/// A block of the log that is no body, with its sequence: a descriptor with its tags, a commit block, or a revoke
/// block with the blocks that it revokes.
#[derive(Drop, Debug)]
pub enum LogBlock {
    Descriptor(u32, TagList),
    Commit(u32),
    Revoke(u32, NumberList),
}

/// What a block of the log says, in a journal with wide tags or narrow ones. A revoke block has a count of its bytes
/// that includes the 16 bytes of header and count.
pub fn read_block(alloc: Global, b: &Block, wide: bool) -> Result<LogBlock, JournalFault>
    ensures value { result ≢ Err JournalFault.NoMemory → result ≡ log_block_of wide b.now }
    ensures not_magic { (result ≡ Err JournalFault.NotMagic) ↔ (magic_of b.now ≢ 0xC03B3998) }
    ensures bad_kind { (result ≡ Err JournalFault.BadKind) ↔
        ((magic_of b.now ≡ 0xC03B3998) × (kind_of b.now ≢ 1) × (kind_of b.now ≢ 2) × (kind_of b.now ≢ 5)) }
    ensures bad_count { (result ≡ Err JournalFault.BadCount) ↔
        ((magic_of b.now ≡ 0xC03B3998) × (kind_of b.now ≡ 5) × (is_count wide (count_of b.now) ≡ false)) }
    ensures feature { (bits : ℕ) → result ≢ Err (JournalFault.Feature bits) }
    ensures memory { result ≡ Err JournalFault.NoMemory → IsOk (log_block_of wide b.now) }
{
    block_in(alloc, b.as_slice(), wide)
}

// What 1,024 bytes say as a block of the log.
#[tactic(auto, unfolding(crate::specs::Blocks::log_block_of))]
fn block_in(alloc: Global, bytes: &[u8], wide: bool) -> Result<LogBlock, JournalFault>
    requires { length bytes.now ≡ 1024 }
    ensures value { result ≢ Err JournalFault.NoMemory → result ≡ log_block_of wide bytes.now }
    ensures memory { result ≡ Err JournalFault.NoMemory → IsOk (log_block_of wide bytes.now) }
{
    if u32_at_be(bytes, 0) != MAGIC {
        return Err(JournalFault::NotMagic);
    }
    let sequence = u32_at_be(bytes, 8);
    let kind = u32_at_be(bytes, 4);
    if kind == DESCRIPTOR {
        return match tags_in(alloc, bytes, wide) {
            Ok(tags) => Ok(LogBlock::Descriptor(sequence, TagList::of(tags))),
            Err(NoMemory) => Err(JournalFault::NoMemory),
        };
    }
    if kind == COMMIT {
        return Ok(LogBlock::Commit(sequence));
    }
    if kind != REVOKE {
        return Err(JournalFault::BadKind);
    }
    let count = u32_at_be(bytes, 12);
    if !is_count(count, wide) {
        return Err(JournalFault::BadCount);
    }
    match revoked_in(alloc, bytes, count, wide) {
        Ok(blocks) => Ok(LogBlock::Revoke(sequence, NumberList::of(blocks))),
        Err(NoMemory) => Err(JournalFault::NoMemory),
    }
}

// Whether so many bytes are header, count and whole numbers that fit into a block.
fn is_count(count: u32, wide: bool) -> bool
    ensures { result ≡ is_count wide count }
{
    count >= 16 && count <= 1024 && count % number_size(wide) == 0
}

// How many bytes a block number has in a revoke block.
pub(crate) fn number_size(wide: bool) -> u32
    ensures value { result ≡ number_size wide }
    ensures some { 0 < result }
{
    if wide { 8 } else { 4 }
}

// The blocks of a revoke block.
#[tactic(auto, unfolding(crate::specs::Blocks::revoked_of))]
fn revoked_in(alloc: Global, bytes: &[u8], count: u32, wide: bool) -> Result<Vec<u64>, NoMemory>
    requires size { length bytes.now ≡ 1024 }
    requires count { count ≡ count_of bytes.now }
    requires right { (16 ≤ count) × (count ≤ 1024) }
    ensures { IfOk result (λ v. v.items ≡ revoked_of wide bytes.now) }
{
    let mut blocks = Vec::new(alloc);
    for k in 0..(count - 16) / number_size(wide) {
        blocks.push(revoked_at(bytes, k as usize, wide))?;
    }
    Ok(blocks)
}

// A block of a revoke block, by its place among them.
fn revoked_at(bytes: &[u8], k: usize, wide: bool) -> u64
    requires size { length bytes.now ≡ 1024 }
    requires within { k < 1008 / number_size wide }
    ensures { result ≡ revoked_at wide bytes.now k }
{
    if wide {
        u64_at_be(bytes, 16 + 8 * k)
    } else {
        u32_at_be(bytes, 16 + 4 * k) as u64
    }
}
