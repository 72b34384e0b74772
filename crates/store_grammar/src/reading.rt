//! What was read of a store's script so far.
use crate::header::HeaderSoFar;
use line_grammar::events::{Events, SteerList};
use wal_store::Ops;

/// The parts of a script, after its first line.
#[derive(Clone, Copy, PartialEq, Eq, Debug)]
pub enum Section {
    Header,
    /// What is asked of the store.
    Asking,
    Events,
    Recovery,
}

/// The state of reading between two lines.
#[derive(Drop)]
pub struct Reading {
    pub room: u32,
    pub told: HeaderSoFar,
    pub section: Section,
    pub ops: Ops,
    /// How many puts there are.
    pub puts: u32,
    /// How many calls the store makes of them, with those that make its log.
    pub calls: u32,
    pub events: Events,
    /// How many events there are, with their repeats.
    pub expanded: u64,
    pub recovers: SteerList,
}
