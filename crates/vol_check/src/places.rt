//! Where inodes stand, and which births their nodes have.
ghost use Rattle.std.specs.Prelude.{◌≡◌, ◌<◌};
ghost use Rattle.volume_ops.specs.Places.{table_block, birth_of};

use minix_layout::Geometry;

// How many inodes stand in a block of the table.
const INODES: u16 = 32;

/// The block of the table with this inode.
pub fn table_block(g: &Geometry, inode: u16) -> u32
    requires { 0 < inode }
    ensures { result ≡ table_block g.now inode }
{
    2 + u32::from(g.imap) + u32::from(g.zmap) + u32::from((inode - 1) / INODES)
}

/// The birth of the node with this inode: 0 for the root, and else the number of the inode.
pub fn birth_of(inode: u16) -> u64
    ensures { result ≡ birth_of inode }
{
    if inode == 1 { 0 } else { u64::from(inode) }
}
