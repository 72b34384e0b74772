//! The division of a volume, as its superblock says it.
/// How a volume is divided into blocks of 1,024 bytes: the boot block, the superblock, the map of the
/// inodes, the map of the zones, the table of the inodes, and from `first` on the zones of data.
#[derive(Clone, Copy, Debug, PartialEq, Eq)]
pub struct Geometry {
    /// The inodes, numbered from 1.
    pub inodes: u16,
    /// The blocks of the volume, those before `first` too.
    pub zones: u16,
    /// The blocks of the map of the inodes, 8,192 bits each.
    pub imap: u16,
    /// The blocks of the map of the zones.
    pub zmap: u16,
    /// The number of the first zone of data.
    pub first: u16,
    /// The bytes of a name.
    pub width: u16,
}

/// The tables of a volume would leave no zone of data.
#[derive(Clone, Copy, Debug, PartialEq, Eq)]
pub struct TooSmall;
