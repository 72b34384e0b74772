//! Writes to the blocks of a volume that changes.
//!
//! `edits` has single writes: an inode, a slot of a directory, a bit of a map, an entry of a zone of numbers, a body.
//! `map_block` maps a block of a file, `cut_to` lets all blocks of a file go from an index on, and
//! `zones_cut` and `zones_written` tell before the first write which zones that frees, and in which of those that stay
//! it changes a number. What each
//! call makes of the blocks is a definition of `volume_model`. None of the calls that write takes memory, and a write
//! behind the last block is left out, so no call has a condition on zones.
//!
//! Stands on `volume_model`, whose definitions and laws the calls meet, and on `minix_layout` for the format.
mod bodies;
mod cutting;
mod edits;
mod freed;
mod kept;
mod laws;
mod mapping;
mod written;

pub use bodies::zone_entry;
pub use cutting::cut_to;
pub use edits::{clear_from, put_body, put_entry, put_inode, put_slot, set_bit, table_block};
pub use freed::{CutZones, zones_cut};
pub use laws::cut_zones_are_told;
pub use mapping::{TakenZones, map_block};
pub use written::{WrittenZones, zones_written};
