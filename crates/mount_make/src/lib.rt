//! Mounting, from an image on a device to the volume that it has, and making, from sizes to an image.
//!
//! `mount` tests the superblock and that the image is whole, recovers the journal that may stand behind the volume,
//! and then reads the volume. `specs/Images.antt` has the tests in their order, and `specs/ImageTrees.antt` says in
//! no order what the tree of an image is, and which of its blocks are metadata. `make_volume` makes an image with a
//! new volume and an empty journal; `specs/Made.antt` has its blocks.
//!
//! Stands on `volume_ops`, whose walk finds the faults behind the superblock and the journal, on `journal_replay`,
//! which recovers a journal, and on `page_cache` for the pages of what was mounted.
#![tactic(auto)]

mod fault;
mod laws;
mod make;
mod mounting;
mod volume_block;

pub use fault::{ImageFault, MountFault};
pub use laws::{
    image_faults_are_first_defects, image_metadata_gives_trees, images_have_one_tree,
    made_images_are_plain, made_maps_mark_the_root,
};
pub use make::{MakeFault, make_volume, new_journal};
pub use mounting::{Mounted, mount};
