//! Minix V1 volumes: reading all of one, its walk, and the tree that it stands for.
//!
//! `specs/Walk.antt` has the walk, as a program that asks for blocks (`specs/Reads.antt`): from the root it
//! tests each inode, its zones (`specs/Zones.antt`) and a directory's slots (`specs/Slots.antt`), and ends with
//! the nodes and zones that it found or with the first fault and its block. `specs/Volume.antt` has the tree of a
//! volume, and the blocks that the walk reads.
//!
//! `specs/Faultless.antt` says what a volume without a fault is, by its fields and in no order, and
//! `specs/VolumeTrees.antt` what its tree is; `specs/Defects.antt` has what can be wrong, `specs/FirstFault.antt` which
//! fault is the first, and `specs/Metadata.antt` the metadata by their fields and the zones of the blocks of files.
//! The laws say that the walk gives just these.
//!
//! Stands on `minix_layout` and `minix_tables::inodes` for the format, `tree_model` for trees, and the trait of devices of
//! `order_model`, which it reads from.
#![tactic(auto)]

mod disk;
mod fault;
mod found;
mod laws;
mod marks;
mod places;
mod slots;
mod visit;
mod volume;
mod walk;
mod walk_fault;
mod zones;

pub use disk::Disk;
pub use fault::VolumeFault;
pub use found::{Found, FoundFile, FoundNode, Mapped, MappedZones};
pub use laws::{
    faults_are_first_defects, file_blocks_have_zones, metadata_gives_trees,
    same_metadata_gives_alike_trees, trees_are_rooted, trees_have_fields, volumes_have_one_tree,
    walks_end_well_without_fault, walks_read_metadata_alone,
};
pub use places::{inode_at, inode_of_birth};
pub use volume::{Volume, WalkedVolume};
