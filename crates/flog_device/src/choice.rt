//! The commands of the queue that may go by the log: those that it has places for, and no flush while a page
//! is not programmed.
ghost use Rattle.std.specs.Prelude.{◌≡◌, length, None, false, IsTrue, MatchOption, slice_get};
ghost use Rattle.std.specs.Option.{option_map_or};
ghost use Rattle.device_epochs.specs.queue.Queue.{Waiting, eligible, picked};
ghost use Rattle.flog_device.specs.Device.{fits};
ghost use Rattle.flog_device.specs.code.Helpers.{fitting, starts_with_flush, IsOrderly, IsChosen};

use device_epochs::queue::CommandQueue;
use order_model::Command;

// The parts of one command, at most.
const MAX_PARTS: usize = 16;

fn fits(free: usize, programmed: bool, command: &Command) -> bool
    ensures { result ≡ fits free programmed command.now }
{
    command.parts.as_slice().len() <= free && (command.flush.is_none() || programmed)
}

fn fits_at(queue: &CommandQueue, at: u32, free: usize, programmed: bool) -> bool
    ensures { result ≡ option_map_or (λ (w : Waiting). fits free programmed w.command) (picked queue.now at) false }
{
    match queue.peek(at) {
        Some(command) => fits(free, programmed, command),
        None => false,
    }
}

// The first command that is eligible is a flush.
fn starts_with_flush(queue: &CommandQueue) -> bool
    ensures { result ≡ starts_with_flush queue.now }
{
    match queue.peek(0) {
        Some(command) => command.flush.is_some(),
        None => false,
    }
}

// Each eligible command may go. This asks none but the first.
fn all_fit(queue: &CommandQueue, free: usize, programmed: bool) -> bool
    requires { IsOrderly queue.now }
    ensures { IsTrue result → fitting free programmed queue.now ≡ eligible queue.now.waiting }
{
    free >= MAX_PARTS && (programmed || !starts_with_flush(queue))
}

/// How many commands may go.
pub(crate) fn count_fitting(queue: &CommandQueue, free: usize, programmed: bool) -> u32
    requires { IsOrderly queue.now }
    ensures { result ≡ length (fitting free programmed queue.now) }
{
    if all_fit(queue, free, programmed) {
        return queue.eligible();
    }
    let mut count = 0;
    for at in 0..queue.eligible() {
        if fits_at(queue, at, free, programmed) {
            count += 1;
        }
    }
    count
}

/// The place in the eligible list of the command at place `pick` of those that may go.
pub(crate) fn find_fitting(
    queue: &CommandQueue,
    free: usize,
    programmed: bool,
    pick: u32,
) -> Option<u32>
    requires { IsOrderly queue.now }
    ensures { MatchOption result (slice_get (fitting free programmed queue.now) pick ≡ None) (IsChosen free programmed queue.now pick) }
{
    if all_fit(queue, free, programmed) {
        return if queue.number(pick).is_some() {
            Some(pick)
        } else {
            None
        };
    }
    let mut left = pick;
    for at in 0..queue.eligible() {
        if fits_at(queue, at, free, programmed) {
            if left == 0 {
                return Some(at);
            }
            left -= 1;
        }
    }
    None
}
