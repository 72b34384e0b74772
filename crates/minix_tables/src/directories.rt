//! The slots of one directory: a name is found, comes and goes, or leads to another inode.
//!
//! A directory is a list of slots. A free one has no name and may be used again; a directory never shrinks. `slots`
//! has the list, `index` where the names of a long one stand, and `laws` what is found in it after each call.
//!
//! Stands on `minix_layout`, whose `Slot` has the number of an inode and a name, and on `blk_base`.
mod index;
mod laws;
mod slots;

pub use laws::{
    added_names_are_found, led_names_stay, names_are_found, removed_names_are_gone,
    room_is_the_least_free_place,
};
pub use slots::Slots;
