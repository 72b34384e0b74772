//! Bytes of files in a volume that is in use, as code: what `write` and `truncate` do where their path has led.
//!
//! `content` has what is written. `open` takes a file's node out and puts it back, and `blocks` and `cutting` change it
//! meanwhile; `writing` and `truncating` have the calls, and `holes` says how many zones a write takes. What memory is
//! asked for comes first: then nothing is refused.
//!
//! Stands on `now`, whose parts of a volume it changes and whose notes it takes, and on `volume_steps`, whose
//! definitions the calls meet.
mod blocks;
mod bodies;
mod content;
mod cutting;
mod holes;
mod numbers;
mod open;
mod truncating;
mod writing;

pub use content::Content;
pub use cutting::{free_blocks, free_numbers};
pub use holes::wanted;
pub use truncating::truncate;
pub use writing::write;
