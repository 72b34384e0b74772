//! What a call makes of the blocks that it tells as touched.
//!
//! A journal should hold no block that did not change. Outside of what a call touches all bytes are as before
//! (`volume_steps`). Here stands the other half: each touched block that was metadata before the call has other bytes
//! after it. `specs/Changed.antt` says this of a change. Where a node or a name comes, the volume must be tidy
//! (`specs/Tidy.antt`): what the new inode or slot overwrites is not what it says already. Calls keep a volume tidy.
//!
//! Stands on `volume_steps` for calls, and on `kept_clean` for what the maps of a volume in use say.
mod laws;

pub use laws::{calls_keep_volumes_tidy, touched_blocks_have_changed};
