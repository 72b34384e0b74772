//! The table of the inodes of a Minix V1 file system, 32 inodes of 32 bytes in a block.
//!
//! | place | bytes | what |
//! |---|---|---|
//! | 0 | 2 | mode |
//! | 2 | 2 | user |
//! | 4 | 4 | size in bytes |
//! | 8 | 4 | time of the last change, in seconds since 1970 |
//! | 12 | 1 | group |
//! | 13 | 1 | links |
//! | 14 | 18 | nine zones, 2 bytes each: seven of data, one indirect, one doubly indirect |

ghost use Rattle.std.specs.Prelude.{◌≡◌, ◌≢◌, ℕ, ◌^◌, ◌<◌, length, slice_index};
ghost use Rattle.byte_fields.specs.Fields.{record_at, put_record, written};
ghost use Rattle.byte_fields.specs.Fields.Order.{little};
ghost use Rattle.minix_layout.specs.Inodes.{inode_of, inode_bytes, zones_of, zone_fields, FitInode};

use crate::parts::{part, put_part};
use crate::{Inode, Zones};
use blk_base::Block;
use byte_fields::{put_u8, put_u16_le, put_u32_le, u8_at, u16_at_le, u32_at_le, zeroed};

/// The inode at place `at` of a block of the table, which has 32 of them. Any 32 bytes are an inode.
pub fn read_inode(b: &Block, at: u8) -> Inode
    requires { at < 32 }
    ensures value { result ≡ inode_of (record_at 32 at b.now) }
    ensures fits { FitInode result }
{
    inode_in(part(b, 32 * at as usize, 32))
}

/// Writes the inode at place `at` of a block of the table, and no other byte.
pub fn write_inode(b: &mut Block, at: u8, i: &Inode)
    requires { at < 32 }
    ensures value { b.new ≡ put_record 32 at (inode_bytes i.now) b.old }
    ensures read { inode_of (record_at 32 at b.new) ≡ i.now }
    ensures others { (k : ℕ) → k < 32 → at ≢ k →
        inode_of (record_at 32 k b.new) ≡ inode_of (record_at 32 k b.old) }
{
    put_part(b, 32 * at as usize, &inode_record(i));
}

// The inode of 32 bytes.
fn inode_in(bytes: &[u8]) -> Inode
    requires { length bytes.now ≡ 32 }
    ensures value { result ≡ inode_of bytes.now }
    ensures fits { FitInode result }
{
    Inode {
        mode: u16_at_le(bytes, 0),
        uid: u16_at_le(bytes, 2),
        size: u32_at_le(bytes, 4),
        time: u32_at_le(bytes, 8),
        gid: u8_at(bytes, 12),
        links: u8_at(bytes, 13),
        zones: zones_in(bytes),
    }
}

// The nine zones in the 32 bytes of an inode.
#[tactic(auto, unfolding(crate::specs::Inodes::zones_of))]
fn zones_in(bytes: &[u8]) -> Zones
    requires { length bytes.now ≡ 32 }
    ensures value { result ≡ zones_of bytes.now }
{
    let mut numbers = [0; 9];
    for (k, number) in numbers.iter_mut().enumerate() {
        *number = u16_at_le(bytes, 14 + 2 * k);
    }
    Zones::of(numbers)
}

// The 32 bytes of an inode.
fn inode_record(i: &Inode) -> [u8; 32]
    ensures value { result ≡ inode_bytes i.now }
    ensures fits { FitInode i.now }
{
    let mut bytes = zeroed::<32>();
    put_zones(&mut bytes, i.zones.as_slice());
    put_u8(&mut bytes, 13, i.links);
    put_u8(&mut bytes, 12, i.gid);
    put_u32_le(&mut bytes, 8, i.time);
    put_u32_le(&mut bytes, 4, i.size);
    put_u16_le(&mut bytes, 2, i.uid);
    put_u16_le(&mut bytes, 0, i.mode);
    bytes
}

// Writes the nine zones into the bytes of an inode.
fn put_zones(bytes: &mut [u8], zones: &[u16])
    requires room { length bytes.old ≡ 32 }
    requires nine { length zones.now ≡ 9 }
    ensures value { bytes.new ≡ written little (zone_fields zones.now) bytes.old }
    ensures fit { (k : ℕ) → slice_index zones.now k < 2 ^ 16 }
{
    for k in (0..9).rev() {
        put_u16_le(bytes, 14 + 2 * k, zones[k]);
    }
}
