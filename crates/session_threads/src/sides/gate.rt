//! What lets workers go on, and on how much stack.

/// The stack of a worker's thread, in bytes, where its gate asks for no other.
pub const WORKER_STACK: usize = 1 << 20;

/// Lets a worker make its next event. `turn` counts the worker's calls from 0. After false the worker yields and asks again;
/// it holds no lock while it asks.
///
/// Workers 1 to 16 are the callers, 101 to 106 the loops of commits, flushes, accepts, dispatches, transfers and persists.
pub trait Gate {
    fn pass(&self, who: u32, turn: u64) -> bool;

    /// How many bytes of stack the thread of this worker gets, before it starts. The size goes up to a multiple of 128 KiB, and
    /// one that the machine has not refuses the thread.
    fn stack(&self, _who: u32) -> usize {
        WORKER_STACK
    }
}
