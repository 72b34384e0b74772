//! What was read of a volume script so far.
use crate::header::HeaderSoFar;
use line_grammar::calls::{LineList, Programs};
use line_grammar::events::{Events, SteerList};

/// The parts of a script, after its first line.
#[derive(Clone, Copy, PartialEq, Eq, Debug)]
pub enum Section {
    /// Header lines, and from the first thread on threads with their calls.
    Opening,
    Events,
    Recovery,
}

/// The form of a volume, as the words behind its sizes choose it.
#[derive(Clone, Copy, PartialEq, Eq, Debug)]
pub struct VolumeForm {
    /// The bytes that a name may have: 14, or 30.
    pub width: u16,
    /// The journal has tags of 64 bits.
    pub wide: bool,
}

/// The state of reading between two lines.
#[derive(Drop)]
pub struct Reading {
    pub inodes: u16,
    pub zones: u16,
    pub journal: u32,
    pub width: u16,
    pub wide: bool,
    pub told: HeaderSoFar,
    pub section: Section,
    pub programs: Programs,
    pub lines: LineList,
    pub events: Events,
    /// How many events there are, with their repeats.
    pub expanded: u64,
    pub recovers: SteerList,
}
