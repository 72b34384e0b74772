//! How bytes are written in texts: in hexadecimal, and as runs of equal bytes.
//!
//! Stands on nothing but std. The public calls: `put_hex`, `put_runs`, and the law `runs_are_maximal`.
#![tactic(auto)]

mod hex;
mod runs;

pub use hex::put_hex;
pub use runs::{put_runs, runs_are_maximal};
