//! Searches over the requests that wait.
ghost use Rattle.std.specs.Prelude.{◌≡◌, ℕ, ◌<◌, ◌≤◌, length, Some, None, MatchOption, slice_get};
ghost use Rattle.std.specs.Option.{option_and_then};
ghost use Rattle.schedulers.specs.elevator.Elevator.{meets_before, listed, next_part};
ghost use Rattle.schedulers.specs.elevator.laws.Eligible.{IsRising};
ghost use Rattle.schedulers.specs.elevator.code.Found.{block_there, is_behind, better, IsBest, NoneBelow, IsNextBelow, IsListedAt, IsFirstPut, IsJoining};

use crate::reassign::EpochQueue;
use order_model::Kind;

// A put that waits, by its place in order of acceptance, and its block.
#[derive(Clone, Copy, PartialEq, Eq, Debug)]
pub struct Found {
    pub at: usize,
    pub block: u32,
}

// The head meets block `a` before block `b`.
fn meets_before(head: u64, a: u32, b: u32) -> bool
    ensures { result ≡ meets_before head a b }
{
    if u64::from(a) < head {
        a < b && u64::from(b) < head
    } else {
        u64::from(b) < head || a < b
    }
}

// The head meets the block after this one, where there is one.
fn is_behind(head: u64, after: Option<u32>, block: u32) -> bool
    ensures { result ≡ is_behind head after block }
{
    match after {
        Some(a) => meets_before(head, a, block),
        None => true,
    }
}

// The block of the put at this place of those that wait. None for a flush, and past the last.
fn put_block(queue: &EpochQueue, at: usize) -> Option<u32>
    ensures { result ≡ block_there queue.now.waiting at }
{
    let request = queue.get(at)?;
    match &request.kind {
        Kind::Put { block, .. } => Some(*block),
        Kind::Flush => None,
    }
}

// The better one of the best so far and of the put at a place.
fn better(
    head: u64,
    after: Option<u32>,
    best: Option<Found>,
    at: usize,
    block: u32,
) -> Option<Found>
    ensures { result ≡ better head after best at block }
{
    if !is_behind(head, after, block) {
        return best;
    }
    match best {
        Some(found) => {
            if meets_before(head, block, found.block) {
                Some(Found { at, block })
            } else {
                Some(found)
            }
        }
        None => Some(Found { at, block }),
    }
}

// The put that the head meets next, behind a block where there is one; of one block the first.
fn find_next(queue: &EpochQueue, head: u64, after: Option<u32>) -> Option<Found>
    ensures { IsBest queue.now.waiting head after (length queue.now.waiting) result }
{
    let mut best = None;
    for i in 0..queue.waiting() {
        if let Some(block) = put_block(queue, i) {
            best = better(head, after, best, i, block);
        }
    }
    best
}

// Where the request at place `pick` of the list waits.
pub fn find_listed(queue: &EpochQueue, head: u64, pick: u32) -> Option<usize>
    requires { IsRising queue.now.waiting }
    ensures { MatchOption result (slice_get (listed head queue.now.waiting) pick ≡ None) (IsListedAt queue.now.waiting head pick) }
{
    if queue.waiting() == 1 {
        return if pick == 0 { Some(0) } else { None };
    }
    if pick as usize >= queue.waiting() {
        return None;
    }
    let mut found = find_next(queue, head, None)?;
    for i in 0..pick {
        found = find_next(queue, head, Some(found.block))?;
    }
    Some(found.at)
}

// Where the first put of this block waits.
fn find_put(queue: &EpochQueue, block: u64) -> Option<usize>
    ensures { MatchOption result ((j : ℕ) → block_there queue.now.waiting j ≡ Some block → ⊥) (IsFirstPut queue.now.waiting block) }
{
    for i in 0..queue.waiting() {
        if let Some(b) = put_block(queue, i) {
            if u64::from(b) == block {
                return Some(i);
            }
        }
    }
    None
}

// Where the eligible put of this block and class waits.
pub fn find_joining(queue: &EpochQueue, block: u64, ordered: bool) -> Option<usize>
    requires { IsRising queue.now.waiting }
    ensures { MatchOption result (next_part queue.now block ordered ≡ None) (IsJoining queue.now block ordered) }
{
    let at = find_put(queue, block)?;
    let request = queue.get(at)?;
    if request.ordered == ordered {
        Some(at)
    } else {
        None
    }
}
