//! A volume that was read, as a plain volume in use.
//!
//! `opening` has the call. It takes the zones that the walk met (`used`) and the nodes that it found (`nodes`), with
//! their inodes, and the slots of directories, as the blocks have them. `specs/Opened.antt` says which volumes can be
//! opened.
//!
//! Stands on `volume_ops`, which reads volumes, on `volume_model`, whose law says that a plain image can change, and on
//! `volume_calls`, which has plain volumes.
mod fields;
mod nodes;
mod opening;
mod used;

pub use opening::open_volume;
