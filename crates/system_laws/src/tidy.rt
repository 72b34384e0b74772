//! Volumes that were made are tidy: their maps mark what is in use, each inode but the root's is all zeros, and behind the
//! two slots of the root each slot is free. `calls_keep_volumes_tidy` of `vol_check::kept_clean::changed` says that calls keep it so.
//!
//! Stands on `call_sessions::made` for the volume of an image that was made, on `sessions` for its maps, and on
//! `vol_check::kept_clean::changed` for what tidy means.
mod laws;

pub use laws::made_volumes_are_tidy;
