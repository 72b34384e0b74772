//! The limits of volumes, of their journals, and of files and directories.

/// The most bytes of a file: 7 blocks, the 512 of an indirect zone and the 512 * 512 of a doubly indirect one.
pub const LARGEST_SIZE: u32 = 268_966_912;

/// The most links of a file or directory. An inode's field would hold five more.
pub const MOST_LINKS: u8 = 250;

/// The largest number of inodes of a volume, and of its blocks.
pub const MOST_NUMBERED: u64 = 65_535;

/// The least blocks of the journal behind a volume.
pub const LEAST_JOURNAL: u32 = 128;

/// The most blocks of the journal behind a volume.
pub const MOST_JOURNAL: u32 = 16_384;

/// The bytes of a name in a new volume, where nothing else is asked for.
pub const DEFAULT_WIDTH: u16 = 14;
