//! A checker of Minix V1 volumes: whether the two maps, the links of the inodes and the dots of the directories say what
//! the volume's tree says.
//!
//! `specs/Clean.antt` says what a clean volume is, by its fields and in no order, and `specs/Verdicts.antt` which fault is
//! the first: the map of the inodes comes before the map of the zones, then come links, then dots, and within each the
//! lowest inode or zone. A volume of an image that can be mounted has no other fault.
//!
//! `births` finds the nodes that the walk met, `maps`, `links` and `dots` have a pass each, and `checking` puts them
//! together. Each pass looks at each inode, zone and name once. `kept_clean` has laws: calls keep volumes clean.
//!
//! Stands on `volume_ops`, which reads volumes and walks through them, and in `kept_clean` on `volume_steps`.
#![tactic(auto)]

mod births;
mod checking;
mod dots;
pub mod kept_clean;
mod laws;
mod links;
mod maps;
mod name_counts;
mod places;
mod verdict;

pub use checking::{check, check_volume};
pub use laws::{clean_volumes_agree_with_their_trees, one_verdict_is_told, same_metadata_is_clean};
pub use verdict::Verdict;
