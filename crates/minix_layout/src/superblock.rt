//! The superblock of a Minix V1 file system, a whole block of 1,024 bytes.
//!
//! | place | bytes | what |
//! |---|---|---|
//! | 0 | 2 | how many inodes there are |
//! | 2 | 2 | how many blocks the volume has |
//! | 4 | 2 | blocks of the map of the inodes |
//! | 6 | 2 | blocks of the map of the zones |
//! | 8 | 2 | the first zone of data |
//! | 10 | 2 | the logarithm of the blocks in a zone: 0, a zone is one block |
//! | 12 | 4 | the largest size of a file, 268,966,912 bytes; not read |
//! | 16 | 2 | the magic number: 0x137F for names of 14 bytes, 0x138F for names of 30 |
//! | 18 | 2 | the state: 1, in order; not read |
//!
//! All other bytes are 0 where they are written, and are not read.

ghost use Rattle.std.specs.Prelude.{◌≡◌, ◌≢◌, ◌↔◌, ◌⊎◌, Ok, Err, IfOk, IsFalse, length};
ghost use Rattle.minix_layout.specs.Geometry.{FitGeometry, IsSound};
ghost use Rattle.minix_layout.specs.Super.{super_block, super_of, magic_of, magic_for, is_magic, width_by, geometry_of, is_divided};

use crate::geometry::is_consistent;
use crate::limits::LARGEST_SIZE;
use crate::{Geometry, LayoutFault};
use blk_base::Block;
use byte_fields::{put_u16_le, put_u32_le, u16_at_le, zeroed};

// The magic number of Minix V1 with names of 14 bytes.
const MAGIC: u16 = 0x137F;

// The magic number of Minix V1 with names of 30 bytes.
const MAGIC_WIDE: u16 = 0x138F;

/// What a superblock says of its volume.
///
/// `BadMagic` comes by the magic number, and `BadGeometry` where a zone is not one block, the
/// numbers do not agree or a table does not fit: `is_consistent` of `specs/Geometry.antt` has the tests.
pub fn read_super(b: &Block) -> Result<Geometry, LayoutFault>
    ensures value { result ≡ super_of b.now }
    ensures sound { IfOk result (λ g. IsSound g) }
    ensures bad_magic { (result ≡ Err LayoutFault.BadMagic) ↔
        ((magic_of b.now ≢ 0x138F) × (magic_of b.now ≢ 0x137F)) }
    ensures bad_geometry { (result ≡ Err LayoutFault.BadGeometry) ↔
        (((magic_of b.now ≡ 0x137F) ⊎ (magic_of b.now ≡ 0x138F)) × IsFalse (is_divided b.now)) }
{
    super_in(b.as_slice())
}

// What 1,024 bytes say as a superblock.
#[tactic(auto, unfolding(crate::specs::Super::super_of))]
fn super_in(bytes: &[u8]) -> Result<Geometry, LayoutFault>
    requires { length bytes.now ≡ 1024 }
    ensures value { result ≡ super_of bytes.now }
    ensures fits { IfOk result (λ g. FitGeometry g) }
{
    let magic = u16_at_le(bytes, 16);
    if magic != MAGIC_WIDE && magic != MAGIC {
        return Err(LayoutFault::BadMagic);
    }
    let g = geometry_in(bytes);
    if u16_at_le(bytes, 10) != 0 || !is_consistent(&g) {
        return Err(LayoutFault::BadGeometry);
    }
    Ok(g)
}

// The numbers of a superblock, whether or not they agree.
fn geometry_in(bytes: &[u8]) -> Geometry
    requires { length bytes.now ≡ 1024 }
    ensures value { result ≡ geometry_of bytes.now }
    ensures fits { FitGeometry result }
{
    Geometry {
        inodes: u16_at_le(bytes, 0),
        zones: u16_at_le(bytes, 2),
        imap: u16_at_le(bytes, 4),
        zmap: u16_at_le(bytes, 6),
        first: u16_at_le(bytes, 8),
        width: width_by(u16_at_le(bytes, 16)),
    }
}

// The bytes of a name, by the magic number.
fn width_by(magic: u16) -> u16
    ensures { result ≡ width_by magic }
{
    if magic == MAGIC_WIDE { 30 } else { 14 }
}

// The magic number, by the bytes of a name.
fn magic_for(width: u16) -> u16
    ensures { result ≡ magic_for width }
{
    if width == 30 { MAGIC_WIDE } else { MAGIC }
}

/// The superblock of a volume. It is read back as `g` where `g` is sound, as `Geometry::make` and `read_super` give it.
pub fn write_super(g: &Geometry) -> Block
    ensures value { result ≡ super_block g.now }
    ensures read { IsSound g.now → super_of result ≡ Ok g.now }
{
    let mut bytes = zeroed::<1024>();
    put_u16_le(&mut bytes, 18, 1);
    put_u16_le(&mut bytes, 16, magic_for(g.width));
    put_u32_le(&mut bytes, 12, LARGEST_SIZE);
    put_u16_le(&mut bytes, 10, 0);
    put_u16_le(&mut bytes, 8, g.first);
    put_u16_le(&mut bytes, 6, g.zmap);
    put_u16_le(&mut bytes, 4, g.imap);
    put_u16_le(&mut bytes, 2, g.zones);
    put_u16_le(&mut bytes, 0, g.inodes);
    Block::of(&bytes)
}
