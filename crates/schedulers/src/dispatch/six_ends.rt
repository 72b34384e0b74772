//! The six ends.
use crate::dispatch::names::QueueNames;
use crate::dispatch::queues::{CommandEnd, CompletionEnd, PostEnd, RequestEnd, SendEnd, SubmitEnd};
use std::sync::Wait;

/// The two ends of each queue. Where N is the same, so are the queues.
pub struct Ends<'a, N: QueueNames, H: Wait> {
    pub submit: SubmitEnd<'a, N, H>,
    pub request: RequestEnd<'a, N, H>,
    pub send: SendEnd<'a, N, H>,
    pub command: CommandEnd<'a, N, H>,
    pub post: PostEnd<'a, N, H>,
    pub completion: CompletionEnd<'a, N, H>,
}
