//! What was read of a script so far.
use crate::script::{Events, Form, RequestList};

/// The sections of a script, after its first line.
#[derive(Clone, Copy, PartialEq, Eq, Debug)]
pub enum Section {
    Header,
    Body,
    Events,
}

/// The state of reading between two lines.
#[derive(Drop)]
pub struct Reading {
    pub form: Form,
    pub depth: Option<u32>,
    pub queue: Option<u32>,
    pub fail: Option<u64>,
    pub cut: Option<u64>,
    /// The line `elevator` stood.
    pub elevator: bool,
    pub flash: Option<u32>,
    pub section: Section,
    pub puts: RequestList,
    pub events: Events,
    /// How many events there are, with their repeats.
    pub expanded: u64,
}
