//! Tests of volumes in use: what a new one answers, and the tree that calls leave.
//!
//! Stands on `volume_calls`, and on `line_grammar::calls` for the lines of its calls.
#[cfg(test)]
mod new_volumes;
#[cfg(test)]
mod rows;
