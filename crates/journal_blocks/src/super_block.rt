//! The superblock of a journal, a whole block of 1,024 bytes.
//!
//! | place | bytes | what |
//! |---|---|---|
//! | 0 | 12 | the header, of type 4 and sequence 0 |
//! | 0x0C | 4 | the size of a block, 1,024 |
//! | 0x10 | 4 | how many blocks the journal has, with this one |
//! | 0x14 | 4 | the place of the log's first block; the log runs from there to the journal's end, and round |
//! | 0x18 | 4 | the sequence of the transaction at the log's start |
//! | 0x1C | 4 | the place of the log's start, or 0 where the log is empty |
//! | 0x28 | 4 | features that a reader must know: 1, there are revoke blocks; 2, tags are wide |
//! | 0x40 | 4 | how many use the journal: 1; not read |
//!
//! All other bytes are 0 where they are written, and are not read. Places count blocks from the superblock on.
ghost use Rattle.std.specs.Prelude.{◌≡◌, ◌≢◌, ◌↔◌, ℕ, ◌^◌, ◌<◌, ◌==◌, ◌&&◌, Ok, Err, IfOk, IsFalse, length, slice_index};
ghost use Rattle.byte_fields.specs.Fields.{Apart};
ghost use Rattle.journal_blocks.specs.Header.{magic_of, kind_of};
ghost use Rattle.journal_blocks.specs.Super.{super_of, super_block, with_tail, size_of, numbers_of, unknown_bits, is_wide, has_places, is_journal, IsSound, FitSuper};

use crate::JournalFault;
use crate::header::{FIRST_SUPERBLOCK, MAGIC, SUPERBLOCK};
use blk_base::Block;
use byte_fields::{put_u32_be, u32_at_be, zeroed};

/// What the superblock of a journal says of its log.
#[derive(Clone, Copy, Debug, PartialEq, Eq)]
pub struct JournalSuper {
    /// The journal's blocks, with the superblock.
    pub maxlen: u32,
    /// The place of the first block that the log may use.
    pub first: u32,
    /// The sequence of the transaction at the start.
    pub sequence: u32,
    /// The place where the log starts, or 0 where it is empty.
    pub start: u32,
    /// The bits of the features that a reader must know.
    pub incompat: u32,
}

impl JournalSuper {
    /// Whether the journal has wide tags, with block numbers of 64 bits.
    pub fn is_wide(&self) -> bool
        ensures { result ≡ is_wide self.now }
    {
        self.incompat / 2 % 2 == 1
    }
}

/// What a superblock says.
///
/// `BadCount` comes where a block has not 1,024 bytes, the log has no block, or it starts outside its blocks.
pub fn read_super(b: &Block) -> Result<JournalSuper, JournalFault>
    ensures value { result ≡ super_of b.now }
    ensures sound { IfOk result (λ s. IsSound s) }
    ensures size { length b.now ≡ 1024 }
    ensures not_magic { (result ≡ Err JournalFault.NotMagic) ↔ (magic_of b.now ≢ 0xC03B3998) }
    ensures bad_kind { (result ≡ Err JournalFault.BadKind) ↔ ((magic_of b.now ≡ 0xC03B3998) × (kind_of b.now ≢ 4)) }
    ensures feature { (bits : ℕ) → (result ≡ Err (JournalFault.Feature bits)) ↔
        ((magic_of b.now ≡ 0xC03B3998) × (kind_of b.now ≡ 4) × (bits ≢ 0) × (unknown_bits (numbers_of b.now).incompat ≡ bits)) }
    ensures bad_count { (result ≡ Err JournalFault.BadCount) ↔
        ((magic_of b.now ≡ 0xC03B3998) × (kind_of b.now ≡ 4) × (unknown_bits (numbers_of b.now).incompat ≡ 0)
        × IsFalse ((size_of b.now == 1024) && has_places (numbers_of b.now))) }
    ensures memory { result ≢ Err JournalFault.NoMemory }
{
    super_in(b.as_slice())
}

/// Whether a journal begins with this block: a superblock of either version. `read_super` reads the second alone.
pub fn is_journal(b: &Block) -> bool
    ensures { result ≡ is_journal b.now }
{
    let bytes = b.as_slice();
    let kind = u32_at_be(bytes, 4);
    u32_at_be(bytes, 0) == MAGIC && (kind == FIRST_SUPERBLOCK || kind == SUPERBLOCK)
}

// What 1,024 bytes say as a superblock.
#[tactic(auto, unfolding(crate::specs::Super::super_of))]
fn super_in(bytes: &[u8]) -> Result<JournalSuper, JournalFault>
    requires { length bytes.now ≡ 1024 }
    ensures value { result ≡ super_of bytes.now }
    ensures fits { IfOk result (λ s. FitSuper s) }
{
    if u32_at_be(bytes, 0) != MAGIC {
        return Err(JournalFault::NotMagic);
    }
    if u32_at_be(bytes, 4) != SUPERBLOCK {
        return Err(JournalFault::BadKind);
    }
    let s = numbers_in(bytes);
    let unknown = s.incompat / 4 * 4;
    if unknown != 0 {
        return Err(JournalFault::Feature(unknown));
    }
    if u32_at_be(bytes, 0x0C) != 1024 || !has_places(&s) {
        return Err(JournalFault::BadCount);
    }
    Ok(s)
}

// The numbers of a superblock, whether or not they agree.
fn numbers_in(bytes: &[u8]) -> JournalSuper
    requires { length bytes.now ≡ 1024 }
    ensures value { result ≡ numbers_of bytes.now }
    ensures fits { FitSuper result }
{
    JournalSuper {
        maxlen: u32_at_be(bytes, 0x10),
        first: u32_at_be(bytes, 0x14),
        sequence: u32_at_be(bytes, 0x18),
        start: u32_at_be(bytes, 0x1C),
        incompat: u32_at_be(bytes, 0x28),
    }
}

// Whether the log has a block, and starts at one of its blocks or nowhere.
fn has_places(s: &JournalSuper) -> bool
    ensures { result ≡ has_places s.now }
{
    s.first > 0
        && s.first < s.maxlen
        && (s.start == 0 || (s.first <= s.start && s.start < s.maxlen))
}

/// The superblock of a journal. It is read back as `s` where `s` is sound, as `read_super` gives it.
pub fn write_super(s: &JournalSuper) -> Block
    ensures value { result ≡ super_block s.now }
    ensures read { IsSound s.now → super_of result ≡ Ok s.now }
{
    let mut bytes = zeroed::<1024>();
    put_u32_be(&mut bytes, 0x40, 1);
    put_u32_be(&mut bytes, 0x28, s.incompat);
    put_u32_be(&mut bytes, 0x1C, s.start);
    put_u32_be(&mut bytes, 0x18, s.sequence);
    put_u32_be(&mut bytes, 0x14, s.first);
    put_u32_be(&mut bytes, 0x10, s.maxlen);
    put_u32_be(&mut bytes, 0x0C, 1024);
    put_u32_be(&mut bytes, 8, 0);
    put_u32_be(&mut bytes, 4, SUPERBLOCK);
    put_u32_be(&mut bytes, 0, MAGIC);
    Block::of(&bytes)
}

/// Writes the sequence and the start into a superblock, and no other byte.
pub fn set_tail(b: &mut Block, sequence: u32, start: u32)
    ensures value { b.new ≡ with_tail sequence start b.old }
    ensures bytes { (k : ℕ) → Apart 1 k 8 0x18 → slice_index b.new k ≡ slice_index b.old k }
    ensures fits { (sequence < 2 ^ 32) × (start < 2 ^ 32) }
{
    let mut bytes = [0; 1024];
    bytes.copy_from_slice(b.as_slice());
    put_u32_be(&mut bytes, 0x1C, start);
    put_u32_be(&mut bytes, 0x18, sequence);
    *b = Block::of(&bytes);
}
