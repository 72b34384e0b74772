//! The maps of a Minix V1 file system, of its inodes and of its zones of data: 8,192 bits in a block.
//!
//! Bit n of a map stands in its block n / 8,192. Bit n of a block is bit n mod 8 of byte n / 8, the least
//! significant first. Inode n has bit n of the map of the inodes, and zone z has bit z - `first` + 1 of the map of
//! the zones; bit 0 of both maps is nobody's. A bit is 1 where its inode or its zone is in use.

ghost use Rattle.std.specs.Prelude.{◌≡◌, ◌≢◌, ℕ, ◌+◌, ◌<◌, ◌≤◌};
ghost use Rattle.minix_layout.specs.Geometry.{IsSound};
ghost use Rattle.minix_layout.specs.Bits.{bit_of, byte_with, put_bit, inode_bit, zone_bit};

use crate::Geometry;
use blk_base::Block;

/// Where a bit of a map stands: the block of the volume, and which of its 8,192 bits.
#[derive(Clone, Copy, Debug, PartialEq, Eq)]
pub struct BitPlace {
    pub block: u32,
    pub at: u16,
}

/// Bit `at` of a block of a map, which has 8,192 of them.
pub fn read_bit(b: &Block, at: u16) -> bool
    requires { at < 8192 }
    ensures { result ≡ bit_of b.now at }
{
    let byte = b.as_slice()[usize::from(at / 8)];
    (byte >> (at % 8)) & 1 == 1
}

/// Writes bit `at` of a block of a map, and no other bit.
pub fn write_bit(b: &mut Block, at: u16, value: bool)
    requires { at < 8192 }
    ensures value { b.new ≡ put_bit b.old at value }
    ensures read { bit_of b.new at ≡ value }
    ensures others { (k : ℕ) → at ≢ k → bit_of b.new k ≡ bit_of b.old k }
{
    let k = usize::from(at / 8);
    let byte = b.as_slice()[k];
    b.set(k, byte_with(byte, at % 8, value));
}

// A byte with one of its eight bits set or cleared.
fn byte_with(byte: u8, bit: u16, value: bool) -> u8
    requires { bit < 8 }
    ensures { result ≡ byte_with byte bit value }
{
    let one = 1 << bit;
    if value {
        byte | one
    } else {
        byte & (255 - one)
    }
}

impl Geometry {
    /// The bit of an inode.
    pub fn inode_bit(&self, inode: u16) -> BitPlace
        ensures place { result ≡ inode_bit self.now inode }
        ensures in_block { result.at < 8192 }
        ensures in_map { IsSound self.now → inode ≤ self.now.inodes →
            (2 ≤ result.block) × (result.block < 2 + self.now.imap) }
    {
        BitPlace {
            block: 2 + u32::from(inode / 8192),
            at: inode % 8192,
        }
    }

    /// The bit of a zone of data.
    pub fn zone_bit(&self, zone: u16) -> BitPlace
        requires { self.now.first ≤ zone }
        ensures place { result ≡ zone_bit self.now zone }
        ensures in_block { result.at < 8192 }
        ensures in_map { IsSound self.now → zone < self.now.zones →
            (2 + self.now.imap ≤ result.block) × (result.block < 2 + self.now.imap + self.now.zmap) }
    {
        let bit = u32::from(zone - self.first) + 1;
        BitPlace {
            block: 2 + u32::from(self.imap) + bit / 8192,
            at: (bit % 8192) as u16,
        }
    }
}
