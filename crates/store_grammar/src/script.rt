//! Scripts of a store as plain values.
use line_grammar::events::{Events, SteerList};
use wal_store::Ops;

/// The values of the header lines, with their defaults.
#[derive(Clone, Copy, PartialEq, Eq, Debug)]
pub struct StoreHeader {
    /// How many commands may wait in the device.
    pub depth: u32,
    /// How many items each queue between two parts of the stack holds.
    pub queue: u32,
    /// The transfer with this number fails, counted from 1.
    pub fail: Option<u64>,
    /// The device is off after so many steps.
    pub cut: Option<u64>,
}

/// A store's script, as it was read.
#[derive(Drop)]
pub struct StoreScript {
    /// The blocks of the log: the most puts.
    pub room: u32,
    pub header: StoreHeader,
    /// What is asked of the store, in order.
    pub ops: Ops,
    pub events: Events,
    /// The attempts of recovery that are cut, in order.
    pub recovers: SteerList,
}
