//! Where the inodes of a volume stand, and what their modes say.
ghost use Rattle.std.specs.Prelude.{◌≡◌, ◌^◌, ◌<◌};
ghost use Rattle.minix_layout.specs.Inodes.{FitInode};
ghost use Rattle.volume_ops.specs.Places.{table_block, inode_in_block, is_directory, is_file, birth_of, inode_of_birth};
ghost use Rattle.volume_ops.specs.Volume.{disk_of};

use crate::disk::Disk;
use blk_base::Block;
use minix_layout::{Geometry, Inode, read_inode};

// How many inodes stand in a block of the table.
const INODES: u16 = 32;

/// The block of the table with this inode.
pub fn table_block(g: &Geometry, inode: u16) -> u32
    requires { 0 < inode }
    ensures { result ≡ table_block g.now inode }
{
    2 + u32::from(g.imap) + u32::from(g.zmap) + u32::from((inode - 1) / INODES)
}

/// An inode, of the bytes of its block of the table.
pub fn inode_in_block(inode: u16, body: &Block) -> Inode
    requires { 0 < inode }
    ensures value { result ≡ inode_in_block inode body.now }
    ensures fits { FitInode result }
{
    read_inode(body, ((inode - 1) % INODES) as u8)
}

/// An inode of the volume.
pub fn inode_at(disk: &Disk, g: &Geometry, inode: u16) -> Inode
    requires { 0 < inode }
    ensures value { result ≡ inode_in_block inode (disk_of disk.now (table_block g.now inode)) }
    ensures fits { FitInode result }
{
    inode_in_block(inode, disk.body(table_block(g, inode)))
}

pub fn is_directory(mode: u16) -> bool
    ensures { result ≡ is_directory mode }
{
    mode / 4096 == 4
}

pub fn is_file(mode: u16) -> bool
    ensures { result ≡ is_file mode }
{
    mode / 4096 == 8
}

/// The birth of a node: 0 for the root, and else the number of its inode.
pub fn birth_of(inode: u16) -> u64
    ensures { result ≡ birth_of inode }
{
    if inode == 1 { 0 } else { u64::from(inode) }
}

/// The inode of the node with this birth.
pub fn inode_of_birth(birth: u64) -> u16
    requires { birth < 2 ^ 16 }
    ensures { result ≡ inode_of_birth birth }
{
    if birth == 0 { 1 } else { birth as u16 }
}
