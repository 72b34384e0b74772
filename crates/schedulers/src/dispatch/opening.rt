//! How the three queues and their ends are made, and how they end.
ghost use Rattle.std.specs.Prelude.{◌≡◌, ℕ, ◌<◌, [], IfOk};
ghost use Rattle.order_model.specs.Carrying.{IsPrefixOf};
ghost use Rattle.schedulers.specs.dispatch.Opened.{HaveCapacity, ArePassesOf, AreNew, AreNamed};

use crate::dispatch::names::{CompletionName, DispatchName, QueueNames, SubmissionName};
use crate::dispatch::one_queue::{close_queue, make_queue, put_end, take_end};
use crate::dispatch::queues::{Passes, Queues};
use crate::dispatch::six_ends::Ends;
use blk_base::NoMemory;
use order_model::{Command, Completion, Request};
use std::alloc::Global;
use std::sync::Wait;

/// Three empty queues of this capacity, and the passes of their ends. All room of a session's queues is taken here: no end
/// takes memory.
pub fn make_queues<H: Wait + Sync>(
    _rt: &H,
    alloc: Global,
    capacity: u32,
) -> Result<(Queues, Passes), NoMemory>
    requires { 0 < capacity }
    ensures capacity { IfOk result (λ r. HaveCapacity capacity r.0) }
    ensures passes { IfOk result (λ r. ArePassesOf r.0 r.1) }
    ensures new { IfOk result (λ r. AreNew r.1) }
{
    let (submission, submit, request) = make_queue::<Request>(alloc, capacity)?;
    let (dispatch, send, command) = make_queue::<Command>(alloc, capacity)?;
    let (completions, post, completion) = make_queue::<Completion>(alloc, capacity)?;
    let queues = Queues {
        submission,
        dispatch,
        completion: completions,
    };
    let passes = Passes {
        submit,
        request,
        send,
        command,
        post,
        completion,
    };
    Ok((queues, passes))
}

/// The ends of these queues, through which nothing went yet. N names the queues: the caller has it from its own caller.
pub fn ends<'a, N: QueueNames, H: Wait + Sync>(
    rt: &'a H,
    queues: &'a Queues,
    passes: Passes,
) -> Ends<'a, N, H>
    requires passes { ArePassesOf queues.now passes }
    requires new { AreNew passes }
    requires names { AreNamed N.submission N.dispatch N.completion passes }
    ensures sent { (result.submit.passed ≡ []) × (result.send.passed ≡ []) × (result.post.passed ≡ []) }
    ensures taken { (result.request.passed ≡ []) × (result.command.passed ≡ []) × (result.completion.passed ≡ []) }
    ensures put_capacity { (n : ℕ) → HaveCapacity n queues.now → (result.submit.capacity ≡ n) × (result.send.capacity ≡ n) × (result.post.capacity ≡ n) }
    ensures take_capacity { (n : ℕ) → HaveCapacity n queues.now → (result.request.capacity ≡ n) × (result.command.capacity ≡ n) × (result.completion.capacity ≡ n) }
{
    let Passes {
        submit,
        request,
        send,
        command,
        post,
        completion,
    } = passes;
    Ends {
        submit: put_end::<Request, SubmissionName<N>, H>(rt, &queues.submission, submit),
        request: take_end::<Request, SubmissionName<N>, H>(rt, &queues.submission, request),
        send: put_end::<Command, DispatchName<N>, H>(rt, &queues.dispatch, send),
        command: take_end::<Command, DispatchName<N>, H>(rt, &queues.dispatch, command),
        post: put_end::<Completion, CompletionName<N>, H>(rt, &queues.completion, post),
        completion: take_end::<Completion, CompletionName<N>, H>(
            rt,
            &queues.completion,
            completion,
        ),
    }
}

/// Takes each producing pass into the consuming one of its queue. Only who has all six ends can call it, so no thread is at
/// a queue any more. In each queue what was taken is a prefix of what was sent.
pub fn close<N: QueueNames, H: Wait + Sync>(ends: Ends<'_, N, H>)
    ensures requests { IsPrefixOf ends.entry.request.passed ends.entry.submit.passed }
    ensures commands { IsPrefixOf ends.entry.command.passed ends.entry.send.passed }
    ensures completions { IsPrefixOf ends.entry.completion.passed ends.entry.post.passed }
{
    let Ends {
        submit,
        request,
        send,
        command,
        post,
        completion,
    } = ends;
    close_queue(submit, request);
    close_queue(send, command);
    close_queue(post, completion);
}
