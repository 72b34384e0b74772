//! Tests of the one-thread run of a script: what it leaves, on a device that is sound and on one of which a transfer fails.
//!
//! Stands on `stack_core`, and on `script_grammar` for its scripts.
#[cfg(test)]
mod runs;
