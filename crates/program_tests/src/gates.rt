//! Gates of the tests.
use session_threads::sides::{Gate, WORKER_STACK};
use std::sync::atomic::{AtomicBool, AtomicU32, Ordering};
use std::thread;

/// Lets every worker pass.
pub struct Open;

impl Gate for Open {
    fn pass(&self, _who: u32, _turn: u64) -> bool {
        true
    }
}

/// Lets every worker pass, and asks for a stack for this one that no machine has, so that its thread is refused.
#[derive(Drop)]
pub struct Without {
    pub who: u32,
}

impl Gate for Without {
    fn pass(&self, _who: u32, _turn: u64) -> bool {
        true
    }

    fn stack(&self, who: u32) -> usize {
        if who == self.who {
            usize::MAX
        } else {
            WORKER_STACK
        }
    }
}

/// Lets every worker pass; the first caller and the transfer loop each wait for the other before their first event.
#[derive(Drop)]
pub struct Meeting {
    caller: AtomicBool,
    transfers: AtomicBool,
    caller_saw: AtomicBool,
    transfers_saw: AtomicBool,
}

impl Meeting {
    pub fn new() -> Meeting {
        Meeting {
            caller: AtomicBool::new(false),
            transfers: AtomicBool::new(false),
            caller_saw: AtomicBool::new(false),
            transfers_saw: AtomicBool::new(false),
        }
    }

    /// Whether each saw the other, which it does where both run at once.
    pub fn have_met(&self) -> bool {
        self.caller_saw.load(Ordering::SeqCst) && self.transfers_saw.load(Ordering::SeqCst)
    }
}

// Whether the flag goes up before so many turns are over.
fn goes_up(flag: &AtomicBool) -> bool {
    for _ in 0..1_000_000 {
        if flag.load(Ordering::SeqCst) {
            return true;
        }
        thread::yield_now();
    }
    false
}

impl Gate for Meeting {
    fn pass(&self, who: u32, turn: u64) -> bool {
        if who == 1 && turn == 0 {
            self.caller.store(true, Ordering::SeqCst);
            self.caller_saw
                .store(goes_up(&self.transfers), Ordering::SeqCst);
        }
        if who == 105 && turn == 0 {
            self.transfers.store(true, Ordering::SeqCst);
            self.transfers_saw
                .store(goes_up(&self.caller), Ordering::SeqCst);
        }
        true
    }
}

/// Lets the flush loop pass once in two thousand passes of the others, so that all that can happen without it has happened.
#[derive(Drop)]
pub struct Late {
    passes: AtomicU32,
}

impl Late {
    pub fn new() -> Late {
        Late {
            passes: AtomicU32::new(0),
        }
    }
}

impl Gate for Late {
    fn pass(&self, who: u32, _turn: u64) -> bool {
        if who != 102 {
            self.passes.fetch_add(1, Ordering::SeqCst);
            return true;
        }
        let passes = self.passes.load(Ordering::SeqCst) >= 2_000;
        if passes {
            self.passes.store(0, Ordering::SeqCst);
        }
        passes
    }
}
