//! A caller.
use crate::begun::Begun;
use tree_model::Call;

/// A caller: its calls, how many of them have ended, and whether the next one has begun.
#[derive(Drop)]
pub struct Thread {
    pub program: Vec<Call>,
    pub ended: u32,
    pub begun: Option<Begun>,
}
