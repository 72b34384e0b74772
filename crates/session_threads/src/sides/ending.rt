//! Whether a session has ended.
ghost use Rattle.std.specs.Prelude.{◌≡◌, ◌↔◌, ℕ, [], true, length, Some, IsTrue, count_by};
ghost use Rattle.std.specs.List.{list_any};
ghost use Rattle.order_model.specs.Steps.{IsTraceOf};
ghost use Rattle.session_threads.specs.sides.Ended.{HasEnded, IsAllDone, is_failed, is_commit};

use host_core::Host;
use order_model::{Completion, Note, OrderedDev};
use schedulers::reassign::Scheduler;
use thread_sides::has_sent_all;

// Whether a completion says that a request failed.
fn some_failed(told: &[Completion]) -> bool
    ensures { result ≡ list_any is_failed told.now }
{
    told.iter().any(|c| matches!(c, Completion::Failed(_)))
}

// How many commit blocks were submitted.
fn commits(notes: &[Note]) -> usize
    ensures { result ≡ count_by is_commit notes.now }
{
    notes
        .iter()
        .filter(|n| matches!(n, Note::Commit { .. }))
        .count()
}

// Whether all that was submitted is on the medium, and no transaction is on its way.
fn is_all_done<S: Scheduler, D: OrderedDev>(host: &Host, sched: &S, dev: &D) -> bool
    ensures { IsTrue result ↔ IsAllDone host.now.host (S.steps.seen (S.state sched.now)) (D.seen (D.state dev.now)) }
{
    sched.trace().accepted.len() as u64 == host.submitted()
        && has_sent_all(sched)
        && dev.trace().took.len() == sched.trace().sent_out.len()
        && dev.is_quiet()
        && commits(host.notes()) == host.cuts().len()
}

/// Whether every program is at its end, and the power went at the steps of the `cut` line, a request failed, the session is
/// full, or all is done.
pub fn has_ended<S: Scheduler, D: OrderedDev>(
    cut: Option<u64>,
    host: &Host,
    sched: &S,
    dev: &D,
) -> bool
    ensures { IsTrue result ↔ HasEnded cut host.now.host (S.steps.seen (S.state sched.now)) (D.seen (D.state dev.now)) }
{
    if !host.is_done() {
        return false;
    }
    if let Some(steps) = cut
        && dev.trace().steps == steps
    {
        return true;
    }
    some_failed(dev.trace().sent.as_slice())
        || host.submitted() == host.limit()
        || is_all_done(host, sched, dev)
}
