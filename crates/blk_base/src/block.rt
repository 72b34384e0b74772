//! Blocks of `BLOCK_BYTES` bytes.
ghost use Rattle.std.specs.Prelude.{◌≡◌, ℕ, ◌<◌, List, length, slice_set, MatchOption, IsSome, Some, ◌↔◌, IfSome, true};
ghost use Rattle.blk_base.specs.Block.{filled};

use std::marker::Model;

/// How many bytes a block has.
pub const BLOCK_BYTES: usize = 1_024;

/// The bytes of one block.
#[derive(Drop, PartialEq, Eq, Debug)]
pub struct Block {
    bytes: [u8; BLOCK_BYTES],
}

impl Model for Block {
    ghost use Rattle.std.specs.Prelude.{◌≡◌, List, ℕ, length};
    ghost use Rattle.blk_base.specs.declared.block.TheConstants.{BLOCK_BYTES};

    ghost Value = { List ℕ };

    ghost view = { λ b. b.bytes };

    ghost invariant = { λ b. length b.bytes ≡ BLOCK_BYTES };

    ghost inverse = { λ bytes. record { bytes = bytes } };
}

impl Block {
    /// A block whose bytes are all `v`.
    #[tactic(auto, unfolding(crate::specs::Block::filled))]
    pub fn fill(v: u8) -> Block
        ensures { result ≡ filled v }
    {
        Block {
            bytes: [v; BLOCK_BYTES],
        }
    }

    /// The block of these bytes.
    pub fn from_slice(s: &[u8]) -> Option<Block>
        ensures whole { IsSome result ↔ (length s.now ≡ BLOCK_BYTES) }
        ensures bytes { IfSome result (λ b. b ≡ s.now) }
    {
        if s.len() != BLOCK_BYTES {
            return None;
        }
        Some(Block::of(s))
    }

    /// The block of these bytes, a block's worth.
    pub fn of(s: &[u8]) -> Block
        requires { length s.now ≡ BLOCK_BYTES }
        ensures { result ≡ s.now }
    {
        let mut bytes = [0u8; BLOCK_BYTES];
        bytes.copy_from_slice(s);
        Block { bytes }
    }

    pub fn as_slice(&self) -> &[u8]
        ensures value { result.now ≡ self.now }
        ensures len { length result.now ≡ BLOCK_BYTES }
    {
        &self.bytes
    }

    /// Writes the byte at place `at`.
    pub fn set(&mut self, at: usize, v: u8)
        requires { at < BLOCK_BYTES }
        ensures { self.new ≡ slice_set self.old at v }
    {
        self.bytes[at] = v;
    }

    /// Whether all bytes are 0.
    pub fn is_zeros(&self) -> bool
        ensures { (result ≡ true) ↔ (self.now ≡ filled 0) }
    {
        are_all(&self.bytes, 0)
    }

    /// The byte of which the block is full, where its bytes are all one.
    pub fn fill_byte(&self) -> Option<u8>
        ensures { (v : ℕ) → (result ≡ Some v) ↔ (self.now ≡ filled v) }
    {
        let v = self.bytes[0];
        if are_all(&self.bytes, v) {
            Some(v)
        } else {
            None
        }
    }

    /// The same bytes again. It takes no memory.
    pub fn copy(&self) -> Block
        ensures { result ≡ self.now }
    {
        Block { bytes: self.bytes }
    }
}

// Whether a block's bytes are all `v`. It goes to the end, which is compiled to sixteen bytes at a time.
fn are_all(bytes: &[u8], v: u8) -> bool
    requires { length bytes.now ≡ BLOCK_BYTES }
    ensures { (result ≡ true) ↔ (bytes.now ≡ filled v) }
{
    let (mut least, mut most) = (v, v);
    for byte in bytes {
        least = least.min(*byte);
        most = most.max(*byte);
    }
    least == most
}
