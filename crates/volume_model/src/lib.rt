//! What a changeable volume keeps: its nodes by birth beside its blocks, each as its inode and its zones say it.
//!
//! `specs/Volume.antt` has the invariant, `specs/Edits.antt` single writes as data, `specs/Ways.antt` where the number
//! of each zone of an inode stands, `specs/MapBlock.antt` and `specs/Cut.antt` how a file's blocks come and go, and
//! `specs/Touched.antt` what a call tells of the blocks, zones and pages that it changed. `laws` names the laws.
//!
//! Stands on `volume_ops`, which reads a volume, on `minix_tables::directories`, which has the slots of a directory, and on `tree_model`,
//! whose tree it stands for.
#![tactic(auto)]

pub mod editing;
mod file_zones;
mod laws;
mod placed;
mod slots;

pub use file_zones::FileZones;
pub use laws::{
    calls_are_told_as_one, changed_blocks_are_told, changed_node_stands, cut_file_stands,
    mapped_block_stands, names_come_and_go, new_volumes_are_plain, nodes_come_and_go, nodes_stay,
    plain_images_can_change, plain_volumes_are_read_back, writes_are_read,
};
pub use placed::{DirectoryPart, Part, Placed};
pub use slots::slots_in;
pub use tree_model::Names;
