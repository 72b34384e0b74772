//! How bodies stand in the log: one that begins with the magic number has zeros in its place, so that it is not taken
//! for a block of the journal's own.
ghost use Rattle.std.specs.Prelude.{◌≡◌, ◌≢◌, ℕ, ◌<◌, ◌≤◌, ◌==◌, length, slice_index};
ghost use Rattle.byte_fields.specs.Fields.{put};
ghost use Rattle.byte_fields.specs.Fields.Order.{big};
ghost use Rattle.journal_blocks.specs.Header.{magic_of};
ghost use Rattle.journal_blocks.specs.Blocks.{escaped, restored};

use crate::header::MAGIC;
use blk_base::Block;
use byte_fields::{put_u32_be, u32_at_be};

/// The body as it stands in the log, and whether it is escaped.
pub fn escape(body: &Block) -> (Block, bool)
    ensures value { result ≡ escaped body.now }
    ensures unlike { magic_of result.0 ≢ 0xC03B3998 }
    ensures back { restored result.1 result.0 ≡ body.now }
{
    if !has_magic(body.as_slice()) {
        return (body.copy(), false);
    }
    (with_front(body, 0), true)
}

// Whether the bytes begin with the magic number. It tells, too, that they are bytes.
fn has_magic(bytes: &[u8]) -> bool
    requires { 4 ≤ length bytes.now }
    ensures value { result ≡ (magic_of bytes.now == 0xC03B3998) }
    ensures fit { (i : ℕ) → slice_index bytes.now i < 256 }
{
    u32_at_be(bytes, 0) == MAGIC
}

/// The body that a block of the log stands for.
#[tactic(auto, unfolding(crate::specs::Blocks::restored))]
pub fn restore(body: &Block, escaped: bool) -> Block
    ensures { result ≡ restored escaped body.now }
{
    if escaped {
        with_front(body, MAGIC)
    } else {
        body.copy()
    }
}

// The block with this number in its first four bytes.
fn with_front(body: &Block, front: u32) -> Block
    ensures { result ≡ put big 4 0 front body.now }
{
    let mut bytes = [0; 1024];
    bytes.copy_from_slice(body.as_slice());
    put_u32_be(&mut bytes, 0, front);
    Block::of(&bytes)
}
