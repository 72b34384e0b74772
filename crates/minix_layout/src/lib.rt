//! The layout of a Minix V1 file system: superblock, inodes and slots of directories, in blocks of
//! 1,024 bytes.
//!
//! The format is the one of Linux's `include/uapi/linux/minix_fs.h`, version 1 with names of 14 bytes or of 30.
//! All numbers have their lowest byte first. Each part stands in a file of its own: `superblock`, `table`
//! for the inodes, `bits` for the maps, and `slots` for directories; `specs/` has each as a table of fields, and what is read
//! of it. `laws` says that what is written is read back.
//!
//! Stands on `blk_base`, whose `Block` has the bytes, and `byte_fields`, which reads and writes them.
#![tactic(auto)]

mod bits;
mod division;
mod fault;
mod geometry;
mod inode;
mod laws;
mod limits;
mod name;
mod parts;
mod slot;
mod slots;
mod superblock;
mod table;
mod widths;
mod zones;

pub use bits::{BitPlace, read_bit, write_bit};
pub use division::{Geometry, TooSmall};
pub use fault::LayoutFault;
pub use inode::Inode;
pub use laws::{bits_are_read, inodes_are_read, maps_are_read, slots_are_read, super_is_read};
pub use limits::{
    DEFAULT_WIDTH, LARGEST_SIZE, LEAST_JOURNAL, MOST_JOURNAL, MOST_LINKS, MOST_NUMBERED,
};
pub use name::Name;
pub use slot::Slot;
pub use slots::{read_slot, write_slot};
pub use superblock::{read_super, write_super};
pub use table::{read_inode, write_inode};
pub use widths::{most_slots, slot_size, slots_a_block};
pub use zones::Zones;
