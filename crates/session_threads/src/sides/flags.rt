//! What the loops tell one another.
use std::sync::atomic::{AtomicBool, Ordering};

/// Three flags, which only go up while the loops run.
#[derive(Drop)]
pub struct Flags {
    // Every program has ended, and nothing is left to submit or nothing may be submitted any more.
    submitted: AtomicBool,
    // The flush loop has ended.
    flushed: AtomicBool,
    // Memory was refused, or a thread.
    refused: AtomicBool,
}

impl Flags {
    pub fn lowered() -> Flags {
        Flags {
            submitted: AtomicBool::new(false),
            flushed: AtomicBool::new(false),
            refused: AtomicBool::new(false),
        }
    }

    pub fn is_submitted(&self) -> bool {
        self.submitted.load(Ordering::SeqCst)
    }

    pub fn raise_submitted(&self) {
        self.submitted.store(true, Ordering::SeqCst);
    }

    pub fn is_flushed(&self) -> bool {
        self.flushed.load(Ordering::SeqCst)
    }

    pub fn raise_flushed(&self) {
        self.flushed.store(true, Ordering::SeqCst);
    }

    pub fn is_refused(&self) -> bool {
        self.refused.load(Ordering::SeqCst)
    }

    pub fn raise_refused(&self) {
        self.refused.store(true, Ordering::SeqCst);
    }
}
