//! Calls that make names, done in place on a volume that is in use, where the path has led.
//!
//! `creation`, `linking` and `making` have the calls. Each takes all its memory first: `entries` puts node and name into
//! the maps, which can be undone. Then it writes what cannot fail: `names` the slot, with a block of the directory from
//! `growth` where one begins, and `nodes` the links. `inode_map` says which inodes are in use: who makes a node finds the
//! lowest free one in it.
//!
//! Stands on `volume_steps`, whose steps the calls do, on `volume_in_use::now` for the volume, and on `volume_model::editing` for writes.
#![tactic(auto)]

mod creation;
mod directories;
mod entries;
mod growth;
mod inode_map;
mod inodes;
mod linking;
mod making;
mod marks;
mod names;
mod nodes;
pub mod removals;
pub mod renames;

pub use creation::create;
pub use directories::{NewSlot, slot_of};
pub use entries::enter;
pub use inode_map::InodeMap;
pub use linking::link;
pub use making::mkdir;
pub use marks::mark_inode;
pub use names::write_name;
pub use nodes::{add_link, number_of};
