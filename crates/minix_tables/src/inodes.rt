//! What the inodes of a Minix V1 file system say: which zone each block of a file is.
//!
//! `blocks` has the trait of a volume's blocks of zone numbers, `map` reads a file's map over it, `encode` writes such
//! a block, and `laws` says of the map, level by level, what its definition in `specs/Map.antt` gives.
//!
//! Stands on `minix_layout`, whose `Inode` has the nine zones, and on `byte_fields`, which writes numbers.
mod blocks;
mod encode;
mod laws;
mod map;

pub use blocks::ZoneBlocks;
pub use encode::encode_zone_block;
pub use laws::map_is_by_levels;
pub use map::zone_of;
