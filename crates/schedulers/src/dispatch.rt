//! The three queues between host, scheduler and device where these run on threads: requests, commands and
//! completions, each a `crossbeam_queue` of fixed capacity under one rule.
//!
//! Stands on `order_model`, whose `Outlet` and `Inlet` the ends implement. The rule is in `specs/Rule.antt`: what was
//! sent is what was taken and then what the queue holds, whatever the threads do. A queue has two passes, one for each of
//! its ends; who holds an end knows what went through it, and of the other end nothing. `make_queues` makes queues and
//! passes, `ends` gives the six ends, and `close` tells of all three queues that what was taken is a prefix of
//! what was sent.
//!
//! Two ends of one queue that come out of two locks are known to be of one queue by their type: it has a parameter N,
//! whose meanings name the three queues. `ends` takes N from its caller, and who calls that one picks N: it passes
//! `Brand`, and says in its proof which names are meant, as the tests of `queue_tests` do.
mod names;
mod one_queue;
mod opening;
mod putting;
mod queues;
mod rule;
mod six_ends;
mod taking;

pub use names::{CompletionName, DispatchName, QueueName, QueueNames, SubmissionName};
pub use opening::{close, ends, make_queues};
pub use putting::PutEnd;
pub use queues::{
    CommandEnd, CompletionEnd, Passes, PostEnd, Queues, RequestEnd, SendEnd, SubmitEnd,
};
pub use six_ends::Ends;
pub use taking::TakeEnd;
