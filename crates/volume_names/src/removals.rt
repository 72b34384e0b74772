//! Calls that take names away, done in place on a volume that is in use, where the path has led.
//!
//! `unlinking` and `removing` have the calls. Each takes all its memory first: room for its notes, and in `gone` a list of
//! the zones that go with a node and were metadata. Then it writes what cannot fail: `names` takes a name out of its
//! directory, and `nodes` a link from a node, or the node out of the volume.
//!
//! Stands on `volume_steps`, whose steps the calls do, on `volume_in_use::now` for the volume, on `volume_in_use::bytes`, which lets zones
//! go, and on `volume_model::editing` for writes.
mod gone;
mod names;
mod nodes;
mod removing;
mod unlinking;

pub use gone::{blocks_of, metadata_of};
pub use names::take_name;
pub use nodes::{drop_node, links_of, take_link};
pub use removing::rmdir;
pub use unlinking::{room, unlink};
