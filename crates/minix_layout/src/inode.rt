//! Inodes as values.
ghost use Rattle.std.specs.Prelude.{◌≡◌};
ghost use Rattle.minix_layout.specs.Inodes.{new_directory_inode, zero_inode};

use crate::Zones;
use crate::widths::slot_size;

/// An inode: a file, a directory or another thing that slots name.
#[derive(Drop, Debug, PartialEq, Eq)]
pub struct Inode {
    /// The kind of file and who may use it.
    pub mode: u16,
    /// Whose it is.
    pub uid: u16,
    /// The size in bytes.
    pub size: u32,
    /// When it changed last, in seconds since 1970.
    pub time: u32,
    /// The group that it belongs to.
    pub gid: u8,
    /// How many slots name it.
    pub links: u8,
    /// Seven zones of data, an indirect and a doubly indirect zone; 0 is no zone.
    pub zones: Zones,
}

impl Inode {
    /// The inode that 32 zero bytes spell, as a node that is gone leaves it.
    pub fn zeros() -> Inode
        ensures { result ≡ zero_inode }
    {
        Inode {
            mode: 0,
            uid: 0,
            size: 0,
            time: 0,
            gid: 0,
            links: 0,
            zones: Zones::of([0; 9]),
        }
    }

    /// A directory with the rights 755, of two slots in this zone, with two links.
    pub fn new_directory(width: u16, zone: u16) -> Inode
        ensures { result ≡ new_directory_inode width zone }
    {
        Inode {
            mode: 0o040_755,
            uid: 0,
            size: slot_size(width) * 2,
            time: 0,
            gid: 0,
            links: 2,
            zones: Zones::of([zone, 0, 0, 0, 0, 0, 0, 0, 0]),
        }
    }
}
