//! Renames, done in place on a volume that is in use, where both paths have led.
//!
//! `renaming` has the call, by what stands at the new name. `moving` does it where that is nothing: a node moves within its
//! directory, to another one, and below another parent, where it is a directory. `replacing` does it where a file is there.
//! Each takes all its memory first: room for its notes, and in `entries` the new name in its directory, in memory alone,
//! where no block says it yet. Then it writes what cannot fail: the old name goes, `slots` leads a slot that is in use to
//! another inode, and the new name's slot comes.
//!
//! Stands on `volume_steps`, whose steps the calls do, on `volume_names` and `removals`, whose steps in place these
//! calls share, and on `volume_in_use::now` for the volume.
mod entries;
mod moving;
mod renaming;
mod replacing;
mod site;
mod slots;

pub use renaming::{birth_named, rename};
pub use site::Site;
