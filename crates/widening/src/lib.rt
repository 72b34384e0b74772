//! Widening: from a volume with names of 14 bytes to one with names of 30.
//!
//! `widen` mounts an image and writes its directories anew. `specs/Directories.antt` has what each directory needs, which zones
//! it has and gets, and what is written; `specs/Widened.antt` has the whole image. Laws in `laws.rt` say that the widened image
//! has no fault and the same tree, and which blocks keep their bytes.
//!
//! Stands on `mount_make`, which mounts, and on `volume_model::editing` for single writes.
#![tactic(auto)]

mod bodies;
mod directory;
mod fault;
mod laws;
mod migrating;
mod zones;

pub use fault::WidenFault;
pub use laws::{
    no_room_has_two_causes, other_blocks_stay, wide_images_stay, widened_images_keep_trees,
};
pub use migrating::widen;
