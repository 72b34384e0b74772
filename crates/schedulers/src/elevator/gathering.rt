//! Requests that leave in one command.
ghost use Rattle.std.specs.Prelude.{◌≡◌, ℕ, ◌+◌, ◌<◌, ◌≤◌, ◌^◌, true, false, length, Some, None, slice_get, if◌then◌else◌};
ghost use Rattle.std.specs.Option.{option_map, option_map_or};
ghost use Rattle.order_model.specs.Parts.{block_follows};
ghost use Rattle.order_model.specs.OrderClosed.{kind_block};
ghost use Rattle.schedulers.specs.reassign.Epoch.{Waiting, may_leave};
ghost use Rattle.schedulers.specs.elevator.Elevator.{joined, gathered, leaving_with, head_after};
ghost use Rattle.schedulers.specs.elevator.laws.Eligible.{IsRising};

use crate::elevator::searches::find_joining;
use crate::reassign::EpochQueue;
use order_model::{Command, Kind, Part, Parts, Priority, Request};

// A put becomes the last part of the command, which is ORDERED and a barrier where it is flagged.
fn join(command: &mut Command, request: Request, flagged: bool)
    requires room { length command.old.parts < 16 }
    requires follows { (block : ℕ) → kind_block request.kind ≡ Some block → block_follows command.old.parts block ≡ true }
    ensures { command.new ≡ joined command.old request flagged }
{
    let id = request.id;
    if let Kind::Put { block, body } = request.kind {
        // There is room, and the block follows.
        let _ = command.parts.push(Part { id, block, body });
    }
    if flagged {
        command.barrier = true;
        command.priority = Priority::Ordered;
    }
}

// Up to 15 puts of this class join the command, of this block and the following ones.
fn gather(queue: &mut EpochQueue, command: &mut Command, ordered: bool, first: u64)
    requires rising { IsRising queue.old.waiting }
    requires one { length command.old.parts ≡ 1 }
    requires follows { block_follows command.old.parts first ≡ true }
    requires few { first ≤ 2 ^ 32 }
    ensures { record { queue = queue.new; command = command.new } ≡ gathered 15 ordered first (record { queue = queue.old; command = command.old }) }
{
    let mut block = first;
    for n in 1..16u32 {
        let Some(at) = find_joining(queue, block, ordered) else {
            return;
        };
        let Some((request, flagged)) = queue.leave_at(at) else {
            return;
        };
        join(command, request, flagged);
        block += 1;
    }
}

// The block behind the put's.
fn block_behind(kind: &Kind) -> Option<u64>
    ensures { result ≡ option_map (λ b. b + 1) (kind_block kind.now) }
{
    match kind {
        Kind::Put { block, .. } => Some(u64::from(*block) + 1),
        Kind::Flush => None,
    }
}

// The request at this place of those that wait leaves, with those that its command takes along. The command
// is written where it stands.
pub fn take_together(queue: &mut EpochQueue, at: usize, into: &mut Command) -> bool
    requires may { (w : Waiting) → slice_get queue.old.waiting at ≡ Some w → may_leave queue.old.waiting w ≡ true }
    requires rising { IsRising queue.old.waiting }
    ensures command { option_map (λ w. (leaving_with queue.old w).command) (slice_get queue.old.waiting at) ≡ (if result then Some into.new else None) }
    ensures kept { result ≡ false → into.new ≡ into.old }
    ensures state { queue.new ≡ option_map_or (λ w. (leaving_with queue.old w).queue) (slice_get queue.old.waiting at) queue.old }
{
    let Some((first, flagged)) = queue.leave_at(at) else {
        return false;
    };
    let ordered = first.ordered;
    let next = block_behind(&first.kind);
    into.carry(first, flagged);
    if let Some(block) = next {
        gather(queue, into, ordered, block);
    }
    true
}

// The block behind the last part. A flush, which has none, leaves the head where it is.
pub fn head_after(head: u64, parts: &Parts) -> u64
    ensures { result ≡ head_after head parts.now }
{
    match parts.as_slice().last() {
        Some(Part { block, .. }) => u64::from(*block) + 1,
        None => head,
    }
}
