//! A volume that is in use, as code: its parts, and what a change of it touched.
//!
//! `volume` has the parts, `touched` the lists of what was touched. They are what the steps of calls take: a step that is
//! done in place notes what it touched in lists whose room was made before the first write. `taking` takes zones for a
//! block, with their bits, `ways` has the zones on the way to it, and `inodes` writes an inode that changed.
//!
//! `new` makes a volume of its root alone.
//!
//! Stands on `volume_steps`, whose plain data a volume is, and on `volume_model::editing` for single writes.
mod inodes;
mod new;
mod taking;
mod touched;
mod volume;
mod ways;

pub use inodes::{copy_inode, write_inode};
pub use new::{dot, dots, new_volume};
pub use taking::{mark_zone, take_zones};
pub use touched::{Page, Touched};
pub use volume::VolumeNow;
pub use ways::block_zone;
