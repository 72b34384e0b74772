//! Clean volumes that change: what a session keeps of them.
//!
//! `specs/Marked.antt` says which bits of the maps a volume in use has. A plain volume is clean just where its maps have
//! these bits, and calls keep it clean.
//!
//! Stands on `specs/Clean.antt` for what a clean volume is, and on `volume_steps` for calls.
pub mod changed;
mod laws;

pub use laws::{calls_keep_volumes_clean, marked_volumes_are_clean};
