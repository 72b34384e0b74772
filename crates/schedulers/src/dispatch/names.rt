//! What the three queues of a session are called.
ghost use Rattle.atomic_table.specs.Seated.{TableId};

use std::marker::{Brand, PhantomData};

/// The name of one queue.
pub trait QueueName {
    ghost name: { TableId };
}

/// Which queues connect host, scheduler and device. It has no calls.
pub trait QueueNames {
    /// The queue of requests, from the host to the scheduler.
    ghost submission: { TableId };

    /// The queue of commands, from the scheduler to the device.
    ghost dispatch: { TableId };

    /// The queue of completions, from the device to the host.
    ghost completion: { TableId };
}

/// What passes `Brand` for N picks the names itself: these here are of no queue.
impl QueueNames for Brand {
    ghost use Rattle.schedulers.specs.dispatch.Opened.{no_queue};

    ghost submission = { no_queue };

    ghost dispatch = { no_queue };

    ghost completion = { no_queue };
}

/// The name that N has for the queue of requests.
pub struct SubmissionName<N> {
    names: PhantomData<N>,
}

/// The name that N has for the queue of commands.
pub struct DispatchName<N> {
    names: PhantomData<N>,
}

/// The name that N has for the queue of completions.
pub struct CompletionName<N> {
    names: PhantomData<N>,
}

impl<N: QueueNames> QueueName for SubmissionName<N> {
    ghost name = { N.submission };
}

impl<N: QueueNames> QueueName for DispatchName<N> {
    ghost name = { N.dispatch };
}

impl<N: QueueNames> QueueName for CompletionName<N> {
    ghost name = { N.completion };
}
