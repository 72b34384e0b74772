//! The three queues, their passes and their ends.
use crate::dispatch::names::{CompletionName, DispatchName, SubmissionName};
use crate::dispatch::putting::PutEnd;
use crate::dispatch::rule::{QueuePass, RuledQueue};
use crate::dispatch::taking::TakeEnd;
use order_model::{Command, Completion, Request};

/// Where the host puts requests.
pub type SubmitEnd<'a, N, H> = PutEnd<'a, Request, SubmissionName<N>, H>;

/// Where the scheduler takes requests.
pub type RequestEnd<'a, N, H> = TakeEnd<'a, Request, SubmissionName<N>, H>;

/// Where the scheduler puts commands.
pub type SendEnd<'a, N, H> = PutEnd<'a, Command, DispatchName<N>, H>;

/// Where the device takes commands.
pub type CommandEnd<'a, N, H> = TakeEnd<'a, Command, DispatchName<N>, H>;

/// Where the device puts completions.
pub type PostEnd<'a, N, H> = PutEnd<'a, Completion, CompletionName<N>, H>;

/// Where the host takes completions.
pub type CompletionEnd<'a, N, H> = TakeEnd<'a, Completion, CompletionName<N>, H>;

/// The three queues of a session. Threads share them by reference.
#[derive(Drop)]
pub struct Queues {
    pub(crate) submission: RuledQueue<Request>,
    pub(crate) dispatch: RuledQueue<Command>,
    pub(crate) completion: RuledQueue<Completion>,
}

/// The two passes of each queue, from which `ends` makes its two ends.
#[derive(Drop)]
pub struct Passes {
    pub(crate) submit: QueuePass<Request>,
    pub(crate) request: QueuePass<Request>,
    pub(crate) send: QueuePass<Command>,
    pub(crate) command: QueuePass<Command>,
    pub(crate) post: QueuePass<Completion>,
    pub(crate) completion: QueuePass<Completion>,
}
